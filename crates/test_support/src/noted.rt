//! Items that note their drops.
ghost use Rattle.std.proofs.Common.{rules};
ghost use Rattle.std.specs.Cmp.Rules.{comparing};
ghost use Rattle.std.specs.Ordering.{on};
ghost use Rattle.std.specs.Prelude.{◌≡◌, nat_eq};

use std::alloc::AllocError;
use std::cell::Cell;

/// Notes of the drops of some items, and how many clones of them succeed. They are in cells, so no contract can mention them.
#[derive(Drop)]
pub struct Notes {
    /// The names of the dropped items, each as a further digit.
    drops: Cell<u64>,
    /// The number of further clones that succeed.
    clones_left: Cell<u64>,
}

impl Notes {
    /// Returns notes of no drop. The next `clones_left` clones succeed.
    pub fn new(clones_left: u64) -> Notes {
        Notes {
            drops: Cell::new(0),
            clones_left: Cell::new(clones_left),
        }
    }

    /// Returns the names of the items dropped since the last call of [`Notes::take_drops`], as digits in the order of the
    /// drops.
    pub fn drops(&self) -> u64 {
        self.drops.get()
    }

    /// Returns the same as [`Notes::drops`], and forgets the drops.
    pub fn take_drops(&self) -> u64 {
        self.drops.replace(0)
    }

    /// Notes one more digit.
    pub fn note(&self, digit: u64) {
        self.drops
            .set(self.drops.get().wrapping_mul(10).wrapping_add(digit));
    }

    /// Returns the number of further clones that succeed.
    pub fn clones_left(&self) -> u64 {
        self.clones_left.get()
    }

    /// Lets the next `clones_left` clones succeed.
    pub fn allow_clones(&self, clones_left: u64) {
        self.clones_left.set(clones_left);
    }
}

/// An item whose name is a digit from 1 to 9. It notes the name when it is dropped. The default item notes nothing.
#[derive(Default)]
pub struct Noted<'a> {
    pub name: u64,
    notes: Option<&'a Notes>,
}

impl<'a> Noted<'a> {
    /// Returns an item that notes its drop in `notes`.
    pub fn new(name: u64, notes: &'a Notes) -> Noted<'a>
        ensures { result.name ≡ name }
    {
        Noted {
            name,
            notes: Some(notes),
        }
    }
}

impl Drop for Noted<'_> {
    fn drop(self) {
        let Self { name, notes } = self;
        if let Some(notes) = notes {
            notes.note(name);
        }
    }
}

/// Items are equal if their names are.
impl PartialEq for Noted<'_> {
    ghost eq = { on (λ item. item.name) nat_eq };

    ghost laws = { Prim.search (comparing, rules) };

    fn eq(&self, other: &Self) -> bool {
        self.name == other.name
    }
}

impl Clone for Noted<'_> {
    ghost use Rattle.std.specs.Prelude.{◌≡◌};

    ghost is_clone = { λ item copy. copy ≡ item };

    ghost is_infallible = { λ _. ⊥ };

    /// Returns an item of the same name, or `AllocError` if no more clones succeed.
    fn clone(&self) -> Result<Self, AllocError> {
        if let Some(notes) = self.notes {
            let left = notes.clones_left.get();
            if left == 0 {
                return Err(AllocError);
            }
            notes.clones_left.set(left - 1);
        }
        Ok(Noted {
            name: self.name,
            notes: self.notes,
        })
    }
}

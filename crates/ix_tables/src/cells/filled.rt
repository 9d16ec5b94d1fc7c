//! A place that has the bytes of an item at all times.
ghost use Rattle.std.specs.Prelude.{◌≡◌, Some, None, IsSome};
ghost use Rattle.std.specs.Borrow.{sem};
ghost use Rattle.ix_tables.specs.inner.Filled.{shown_item};
ghost use Rattle.ix_tables.specs.inner.FilledLending.{filled_lends};

use std::marker::Model;
use std::snapshot::Snapshot;

/// A place that holds an item, or has the bytes of one that contracts do not see. Nothing at run time says which.
#[derive(Drop)]
pub(crate) struct Filled<T> {
    item: T,
    held: Snapshot<bool>,
}

impl<T> Model for Filled<T> {
    ghost use Rattle.std.specs.Prelude.{Option};
    ghost use Rattle.ix_tables.specs.inner.Filled.{shown_item};

    ghost Value = { Option T };

    ghost view = { λ place. shown_item place.held.value place.item };
}

impl<T> Filled<T> {
    /// Creates a place with the bytes of `item`, which it holds if `held` is `true`.
    #[inline]
    pub(crate) fn new(item: T, held: bool) -> Self
        ensures { result ≡ shown_item held item }
    {
        Filled {
            item,
            held: Snapshot::of(&held),
        }
    }

    #[inline]
    pub(crate) fn get(&self) -> &T
        requires { IsSome self.now }
        ensures { self.now ≡ Some result.now }
    {
        &self.item
    }

    #[inline]
    pub(crate) fn get_mut(&mut self) -> &mut T
        requires { IsSome self.old }
        ensures* writes_back { sem 𝓛 (filled_lends T.row self.entry result) }
        ensures value { self.old ≡ Some result.now }
    {
        &mut self.item
    }
}

impl<T: Copy> Filled<T> {
    /// Copies the item out. The bytes stay.
    #[inline]
    pub(crate) fn take(&mut self) -> T
        requires { IsSome self.old }
        ensures value { self.old ≡ Some result }
        ensures place { self.new ≡ None }
    {
        self.held = Snapshot::of(&false);
        self.item
    }
}

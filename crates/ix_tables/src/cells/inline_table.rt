//! A table that is stored inline.
ghost use Rattle.std.specs.Prelude.{◌≡◌, ◌≤◌, length, Some, None, slice_set, replicate, refl};

use crate::cells::full_array::{place, place_mut, put};
use crate::cells::held_item::{item, item_mut};
use crate::cells::maybe_moved::MaybeMoved;
use crate::cells::{MAX_FIXED_CAPACITY, Table};
use arrayvec::ArrayVec;
use std::fmt;
use std::marker::Model;

/// A table of `CAP` places that is stored inline and does not allocate.
// The places are an `ArrayVec` that is always full: it is made of an array in one fill, and lends slices of its places.
pub struct InlineTable<T, const CAP: usize> {
    places: ArrayVec<Option<MaybeMoved<T>>, CAP>,
}

impl<T, const CAP: usize> Model for InlineTable<T, CAP> {
    ghost use Rattle.std.specs.Prelude.{◌≡◌, List, Option, length, map};
    ghost use Rattle.std.specs.Option.{option_flatten};

    ghost Value = { List (Option T) };

    ghost view = { λ table. map option_flatten table.places.items };

    ghost invariant = { λ table. length table.places.items ≡ CAP };
}

impl<T: Drop, const CAP: usize> InlineTable<T, CAP> {
    /// Creates a table of empty places. `CAP` is at most [`MAX_FIXED_CAPACITY`]. O(`CAP`).
    pub fn new() -> Self
        requires { CAP ≤ MAX_FIXED_CAPACITY }
        ensures { result ≡ replicate CAP None }
    {
        InlineTable::vacant()
    }

    fn vacant() -> Self
        ensures { result ≡ replicate CAP None }
    {
        InlineTable {
            places: ArrayVec::from(no_items()),
        }
    }
}

/// Creates a table of empty places. O(`CAP`).
impl<T: Drop, const CAP: usize> Default for InlineTable<T, CAP> {
    ghost is_default = { λ table. table ≡ replicate CAP None };

    fn default() -> Self {
        InlineTable::vacant()
    }
}

/// Prints the type's name and the number of places. No method tells which of them hold an item.
impl<T, const CAP: usize> fmt::Debug for InlineTable<T, CAP> {
    fn fmt<W: fmt::Write>(&self, f: &mut fmt::Formatter<W>) -> fmt::Result {
        let _places = &self.places;
        f.debug_struct("InlineTable")
            .field("len", &CAP)
            .finish_non_exhaustive()
    }
}

impl<T: Drop, const CAP: usize> Table<T> for InlineTable<T, CAP> {
    ghost places = { λ table. table };

    ghost with_item = { λ table i x. slice_set table i (Some x) };

    ghost places_with_item = { λ table i x. refl };

    ghost IsLen = { λ len. len ≡ CAP };

    #[inline]
    fn len(&self) -> usize
        ensures value { result ≡ length self.now }
        ensures known { length self.now ≡ CAP }
        ensures constant { result ≡ CAP }
    {
        let _places = &self.places;
        CAP
    }

    #[inline]
    fn put(&mut self, i: usize, item: T) {
        put(&mut self.places, i, Some(MaybeMoved::new(item)));
    }

    #[inline]
    fn take(&mut self, i: usize) -> T {
        item_mut(place_mut(&mut self.places, i)).take()
    }

    #[inline]
    fn get(&self, i: usize) -> &T {
        item(place(&self.places, i)).get()
    }

    #[inline]
    fn get_mut(&mut self, i: usize) -> &mut T {
        item_mut(place_mut(&mut self.places, i)).get_mut()
    }

    fn end(self) {
        let InlineTable { places: _ } = self;
    }
}

fn no_items<T, const CAP: usize>() -> [Option<MaybeMoved<T>>; CAP]
    ensures { result ≡ replicate CAP None }
{
    [const { None }; CAP]
}

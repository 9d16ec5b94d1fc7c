//! A table of `Copy` items that is stored inline, and has no tags.
ghost use Rattle.std.specs.Prelude.{◌≡◌, length, Some, None, slice_set, replicate, refl};

use crate::cells::Table;
use crate::cells::filled::Filled;
use crate::cells::full_array::{place, place_mut, put};
use arrayvec::ArrayVec;
use std::marker::Model;
use std::{array, fmt};

/// A table of `CAP` places that is stored inline and does not allocate, for items that are `Copy`.
///
/// A place has the bytes of an item at all times, and no other bytes. Only contracts see whether it holds that item. So a place
/// takes as many bytes as an item. A place of an [`InlineTable`](crate::InlineTable) takes up to twice as many. Dropping the table
/// visits no place.
#[derive(Drop)]
pub struct FilledInlineTable<T, const CAP: usize> {
    places: ArrayVec<Filled<T>, CAP>,
}

impl<T, const CAP: usize> Model for FilledInlineTable<T, CAP> {
    ghost use Rattle.std.specs.Prelude.{◌≡◌, List, Option, length};

    ghost Value = { List (Option T) };

    ghost view = { λ table. table.places.items };

    ghost invariant = { λ table. length table.places.items ≡ CAP };
}

impl<T: Copy, const CAP: usize> FilledInlineTable<T, CAP> {
    /// Creates a table of empty places, which have the bytes of `filler`. O(`CAP`).
    pub fn new(filler: T) -> Self
        ensures { result ≡ replicate CAP None }
    {
        FilledInlineTable {
            places: ArrayVec::from(empty_places(filler)),
        }
    }
}

/// Prints the type's name and the number of places. No method tells which of them hold an item.
impl<T, const CAP: usize> fmt::Debug for FilledInlineTable<T, CAP> {
    fn fmt<W: fmt::Write>(&self, f: &mut fmt::Formatter<W>) -> fmt::Result {
        let _places = &self.places;
        f.debug_struct("FilledInlineTable")
            .field("len", &CAP)
            .finish_non_exhaustive()
    }
}

impl<T: Copy, const CAP: usize> Table<T> for FilledInlineTable<T, CAP> {
    ghost places = { λ table. table };

    ghost with_item = { λ table i x. slice_set table i (Some x) };

    ghost places_with_item = { λ table i x. refl };

    ghost IsLen = { λ len. len ≡ CAP };

    #[inline]
    fn len(&self) -> usize
        ensures value { result ≡ length self.now }
        ensures known { length self.now ≡ CAP }
        ensures constant { result ≡ CAP }
    {
        let _places = &self.places;
        CAP
    }

    #[inline]
    fn put(&mut self, i: usize, item: T) {
        put(&mut self.places, i, Filled::new(item, true));
    }

    #[inline]
    fn take(&mut self, i: usize) -> T {
        place_mut(&mut self.places, i).take()
    }

    #[inline]
    fn get(&self, i: usize) -> &T {
        place(&self.places, i).get()
    }

    #[inline]
    fn get_mut(&mut self, i: usize) -> &mut T {
        place_mut(&mut self.places, i).get_mut()
    }

    fn end(self) {
        let FilledInlineTable { places: _ } = self;
    }
}

/// Returns places that hold nothing, with the bytes of `filler`.
fn empty_places<T: Copy, const CAP: usize>(filler: T) -> [Filled<T>; CAP]
    ensures { result ≡ replicate CAP None }
{
    array::from_fn(
        |_| -> Filled<T>
            ensures { result ≡ None }
        { Filled::new(filler, false) },
    )
}

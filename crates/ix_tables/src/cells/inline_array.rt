//! An array that is stored inline.
ghost use Rattle.std.specs.Prelude.{◌≡◌, length, slice_set, replicate, refl};

use crate::cells::Array;
use crate::cells::full_array::{place, place_mut};
use arrayvec::ArrayVec;
use std::fmt;
use std::marker::Model;

/// An array of `CAP` places that is stored inline and does not allocate.
#[derive(Drop)]
pub struct InlineArray<T, const CAP: usize> {
    places: ArrayVec<T, CAP>,
}

impl<T, const CAP: usize> Model for InlineArray<T, CAP> {
    ghost use Rattle.std.specs.Prelude.{◌≡◌, List, length};

    ghost Value = { List T };

    ghost view = { λ array. array.places.items };

    ghost invariant = { λ array. length array.places.items ≡ CAP };
}

impl<T: Copy, const CAP: usize> InlineArray<T, CAP> {
    /// Creates an array whose places each hold `item`. O(`CAP`).
    pub fn new(item: T) -> Self
        ensures { result ≡ replicate CAP item }
    {
        InlineArray {
            places: ArrayVec::from([item; CAP]),
        }
    }
}

/// Prints the list of the items.
impl<T: fmt::Debug, const CAP: usize> fmt::Debug for InlineArray<T, CAP> {
    fn fmt<W: fmt::Write>(&self, f: &mut fmt::Formatter<W>) -> fmt::Result {
        self.places.fmt(f)
    }
}

impl<T, const CAP: usize> Array<T> for InlineArray<T, CAP> {
    ghost items = { λ array. array };

    ghost with_item = { λ array i x. slice_set array i x };

    ghost items_with_item = { λ array i x. refl };

    ghost IsLen = { λ len. len ≡ CAP };

    #[inline]
    fn len(&self) -> usize
        ensures value { result ≡ length self.now }
        ensures known { length self.now ≡ CAP }
        ensures constant { result ≡ CAP }
    {
        let _places = &self.places;
        CAP
    }

    #[inline]
    fn get(&self, i: usize) -> &T {
        place(&self.places, i)
    }

    #[inline]
    fn get_mut(&mut self, i: usize) -> &mut T {
        place_mut(&mut self.places, i)
    }
}

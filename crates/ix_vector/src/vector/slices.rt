//! The methods of slices on vectors.
ghost use Rattle.std.specs.Prelude.{◌≡◌, ◌≤◌, length};
ghost use Rattle.std.specs.Borrow.{sem};
ghost use Rattle.ix_tables.specs.Bounded.{IsWithin};
ghost use Rattle.ix_vector.specs.Lending.{polymorphic_vec_lends, static_vec_lends};

use crate::vector::{PolymorphicVec, StaticVec, Vector};
use std::alloc::Allocator;
use std::convert::AsSlice;
use std::ops::{DerefSlice, DerefSliceMut};

/// Has the methods of `[T]` that the trait [`Vector`] does not have, such as `contains` and `binary_search`, and `vector[i]`.
impl<T: Default + Drop, const CAPACITY: usize> DerefSlice for StaticVec<T, CAPACITY> {
    type Elem = T;

    ghost deref_gives = { λ vector items. items ≡ vector };

    #[inline]
    fn deref(&self) -> &[T]
        ensures value { result.now ≡ self.now }
        ensures within { length self.now ≤ CAPACITY }
    {
        self.items()
    }
}

/// Has the methods of `[T]` that change elements, such as `swap` and `sort`, and `vector[i] = item`.
impl<T: Default + Drop, const CAPACITY: usize> DerefSliceMut for StaticVec<T, CAPACITY> {
    #[inline]
    fn deref_mut(&mut self) -> &mut [T]
        ensures* writes_back { sem 𝓛
            (static_vec_lends T.row CAPACITY.row T.Default self.entry result) }
        ensures value { result.now ≡ self.old }
        ensures within { length self.old ≤ CAPACITY }
    {
        Vector::as_mut_slice(self)
    }
}

impl<T: Default + Drop, const CAPACITY: usize> AsSlice<T> for StaticVec<T, CAPACITY> {
    ghost items = { λ vector. vector };

    #[inline]
    fn as_slice(&self) -> &[T]
        ensures value { result.now ≡ self.now }
        ensures within { length self.now ≤ CAPACITY }
    {
        self.deref()
    }
}

/// Has the methods of `[T]` that the trait [`Vector`] does not have, such as `contains` and `binary_search`, and `vector[i]`.
impl<T: Drop, A: Allocator> DerefSlice for PolymorphicVec<T, A> {
    type Elem = T;

    ghost deref_gives = { λ vector items. items ≡ vector.items };

    #[inline]
    fn deref(&self) -> &[T]
        ensures value { result.now ≡ self.now.items }
        ensures within { IsWithin self.now }
    {
        Vector::as_slice(self)
    }
}

/// Has the methods of `[T]` that change elements, such as `swap` and `sort`, and `vector[i] = item`.
impl<T: Drop, A: Allocator> DerefSliceMut for PolymorphicVec<T, A> {
    #[inline]
    fn deref_mut(&mut self) -> &mut [T]
        ensures* writes_back { sem 𝓛
            (polymorphic_vec_lends T.row A.row A.Allocator self.entry result) }
        ensures value { result.now ≡ self.old.items }
        ensures within { IsWithin self.old }
    {
        self.as_mut_slice()
    }
}

impl<T: Drop, A: Allocator> AsSlice<T> for PolymorphicVec<T, A> {
    ghost items = { λ vector. vector.items };

    #[inline]
    fn as_slice(&self) -> &[T]
        ensures value { result.now ≡ self.now.items }
        ensures within { IsWithin self.now }
    {
        DerefSlice::deref(self)
    }
}

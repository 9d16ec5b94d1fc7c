//! The vector that is stored inline.
ghost use Rattle.std.specs.Prelude.{◌≡◌, ◌+◌, ◌<◌, ◌≤◌, [], length, take, drop, Err, IsOk, IsOkUnless, IfOk, OnOk, OnErr, Some, slice_get, slice_set};
ghost use Rattle.std.specs.List.{AllZip, AppendsClones, refill};
ghost use Rattle.std.specs.Iterator.{IsFiniteIterable};
ghost use Rattle.std.specs.Borrow.{sem};
ghost use Rattle.std.specs.Cmp.Lexicographic.{pointwise, lists_per, lists_equiv};
ghost use Rattle.ix_tables.specs.Bounded.{bounded_new};
ghost use Rattle.ix_tables.specs.Cloning.{AreInfallible};
ghost use Rattle.ix_vector.specs.Iterating.{AreItemsOf, YieldsMoreThanFit};
ghost use Rattle.ix_vector.specs.declared.vector.modification_error.VectorModificationError.TheVariants.{InsertWouldExceedCapacity, OutOfBounds};
ghost use Rattle.std.proofs.Common.{arith, ap};
ghost use Rattle.std.proofs.lemmas.Grind.{common_steps};

use crate::vector::append::move_tail;
use crate::vector::{Vector, VectorModificationError};
use arrayvec::ArrayVec;
use ix_tables::cells::MAX_FIXED_CAPACITY;
use ix_tables::cells::full_array::{front_mut, put, put_clones, put_defaults, replace};
use std::alloc::AllocError;
use std::marker::Model;
use std::{fmt, mem, slice};

/// A vector of at most `CAPACITY` elements that is stored inline and does not allocate. Contracts see it as the list of its
/// elements: `vector` in a contract is that list, with no field `items`. `bounded` of [`Vector`] has the elements and the capacity.
///
/// The elements are dropped from the last to the first.
///
/// This is `StaticVec` of iceoryx2-bb-container.
// The `ArrayVec` is always full: its first `len` places hold the elements, the others hold defaults.
pub struct StaticVec<T: Default, const CAPACITY: usize> {
    places: ArrayVec<T, CAPACITY>,
    len: usize,
}

impl<T: Default, const CAPACITY: usize> Model for StaticVec<T, CAPACITY> {
    ghost use Rattle.std.specs.Prelude.{List, take};
    ghost use Rattle.std.specs.Coded.{coded_list};
    ghost use Rattle.ix_vector.specs.inner.Fronts.{IsFront};

    ghost Value = { List T };

    ghost coded = { coded_list T.code };

    ghost view = { λ vector. take vector.len vector.places.items };

    ghost invariant = { λ vector. IsFront CAPACITY vector.places.items vector.len };
}

impl<T: Default, const CAPACITY: usize> StaticVec<T, CAPACITY> {
    ghost use Rattle.ix_vector.specs.inner.ItemLending.{static_vec_lends_item};

    /// Creates an empty vector. `CAPACITY` is at most [`MAX_FIXED_CAPACITY`]. O(`CAPACITY`).
    pub fn new() -> Self
        requires { CAPACITY ≤ MAX_FIXED_CAPACITY }
        ensures { result ≡ [] }
    {
        StaticVec::empty()
    }

    fn empty() -> Self
        ensures { result ≡ [] }
    {
        StaticVec {
            places: ArrayVec::from(<[T; CAPACITY]>::default()),
            len: 0,
        }
    }

    #[inline]
    pub(super) fn items(&self) -> &[T]
        ensures value { result.now ≡ self.now }
        ensures within { length result.now ≤ CAPACITY }
    {
        &self.places.as_slice()[..self.len]
    }

    #[inline]
    fn item_mut(&mut self, index: usize) -> &mut T
        requires { index < length self.old }
        ensures* writes_back { sem 𝓛 (static_vec_lends_item T.row CAPACITY.row T.Default self.entry index result) }
        ensures value { slice_get self.old index ≡ Some result.now }
    {
        match self.places.get_mut(index) {
            Some(item) => item,
            None => unreachable!(),
        }
    }

    /// Returns the maximum number of elements. O(1).
    #[inline]
    #[must_use]
    pub const fn capacity() -> usize
        ensures { result ≡ CAPACITY }
    {
        CAPACITY
    }
}

impl<T: Default + Drop, const CAPACITY: usize> StaticVec<T, CAPACITY> {
    /// Creates a vector that holds the items of `iter`, in the order in which they come. `CAPACITY` is at most
    /// [`MAX_FIXED_CAPACITY`]. O(`CAPACITY`).
    ///
    /// Returns [`VectorModificationError::InsertWouldExceedCapacity`] if `iter` yields more than `CAPACITY` items. All items that
    /// it yielded, and the iterator, are dropped then.
    pub fn try_from_iter<U: IntoIterator<Item = T>>(
        iter: U,
    ) -> Result<Self, VectorModificationError>
        requires capacity { CAPACITY ≤ MAX_FIXED_CAPACITY }
        requires iter { IsFiniteIterable U.into_iter_gives
            U.IntoIter.can_next U.IntoIter.remaining iter }
        ensures value { IsOkUnless result InsertWouldExceedCapacity }
        ensures vector { IfOk result (λ vector.
            AreItemsOf U.into_iter_gives U.IntoIter.next_gives iter vector) }
        ensures full { OnErr result (YieldsMoreThanFit U.into_iter_gives U.IntoIter.next_gives iter
            (bounded_new CAPACITY)) }
    {
        let mut vector = StaticVec::new();
        vector.extend_from_iter(iter)?;
        Ok(vector)
    }
}

impl<T: Default + Drop, const CAPACITY: usize> StaticVec<T, CAPACITY> {
    /// Moves the elements from index `at` on to a new vector of the same capacity, in their order, and returns it.
    /// O(`CAPACITY`).
    ///
    /// Returns [`VectorModificationError::OutOfBounds`], and leaves the vector unchanged, if `at` is greater than the length.
    pub fn split_off(&mut self, at: usize) -> Result<Self, VectorModificationError>
        ensures tail { IfOk result (λ tail. tail ≡ drop at self.old) }
        ensures vector { self.new ≡ take at self.old }
        ensures bounds { at ≤ length self.old → IsOk result }
        ensures past { length self.old < at → result ≡ Err OutOfBounds }
        ensures refused { OnErr result (self.new ≡ self.old) }
    {
        if at > self.len() {
            return Err(VectorModificationError::OutOfBounds);
        }
        let mut tail = StaticVec::empty();
        move_tail(self, at, &mut tail);
        Ok(tail)
    }
}

impl<T: Default + Clone, const CAPACITY: usize> StaticVec<T, CAPACITY> {
    /// Appends clones of the elements. If cloning fails, drops the clones already made.
    #[inline(always)]
    fn append_clones(&mut self, items: &[T]) -> Result<(), AllocError>
        requires { length self.old + length items.now ≤ CAPACITY }
        ensures vector { OnOk result (AppendsClones T.is_clone self.old self.new items.now) }
        ensures refused { OnErr result (self.new ≡ self.old) }
        ensures memory { AreInfallible T.is_infallible items.now → IsOk result }
    {
        let len = self.len;
        put_clones(&mut self.places, len, items)?;
        self.len = len + items.len();
        Ok(())
    }
}

impl<T: Default + Drop, const CAPACITY: usize> Vector<T> for StaticVec<T, CAPACITY> {
    ghost bounded = { λ vector. record { items = vector; capacity = CAPACITY } };

    ghost with_slice = { λ vector xs. refill (length vector) vector xs };

    ghost with_item = { slice_set };

    #[inline]
    fn as_slice(&self) -> &[T] {
        self.items()
    }

    #[inline]
    fn as_mut_slice(&mut self) -> &mut [T] {
        front_mut(&mut self.places, self.len)
    }

    #[inline]
    fn get_mut(&mut self, index: usize) -> Option<&mut T> {
        if index < self.len {
            Some(self.item_mut(index))
        } else {
            None
        }
    }

    #[inline]
    fn capacity(&self) -> usize {
        StaticVec::<T, CAPACITY>::capacity()
    }

    #[inline]
    fn len(&self) -> usize {
        self.len
    }

    #[inline]
    fn push_unchecked(&mut self, item: T) {
        let len = self.len;
        put(&mut self.places, len, item);
        self.len = len + 1;
    }

    #[inline]
    fn pop(&mut self) -> Option<T> {
        if self.len == 0 {
            return None;
        }
        let last = self.len - 1;
        let item = replace(&mut self.places, last, T::default());
        self.len = last;
        Some(item)
    }

    /// O(`len - n`).
    fn truncate(&mut self, n: usize) {
        if n < self.len {
            put_defaults(&mut self.places, n, self.len);
            self.len = n;
        }
    }

    /// O(`other.len()`) clones.
    #[inline(always)]
    fn extend_from_slice_unchecked(&mut self, other: &[T]) -> Result<(), AllocError>
    where
        T: Clone,
    {
        self.append_clones(other)
    }

    ghost bounded_with_slice = { λ vector xs same. ap
        (λ items. record { items = items; capacity = CAPACITY })
        (Prim.search (arith, common_steps)) };
}

/// Creates an empty vector. O(`CAPACITY`).
impl<T: Default, const CAPACITY: usize> Default for StaticVec<T, CAPACITY> {
    ghost is_default = { λ vector. vector ≡ [] };

    fn default() -> Self {
        Self::empty()
    }
}

/// Drops the elements, the last one first.
impl<T: Default + Drop, const CAPACITY: usize> Drop for StaticVec<T, CAPACITY> {
    fn drop(mut self) {
        self.clear();
        let StaticVec { places: _, len: _ } = self;
    }
}

/// The elements of a [`StaticVec`] by value, as `into_iter` returns them.
pub type StaticVecIntoIter<T, const CAPACITY: usize> = arrayvec::IntoIter<T, CAPACITY>;

/// Yields the elements by value, from the first to the last. O(`CAPACITY`). Dropping the iterator drops the elements that are left,
/// the first one first.
impl<T: Default + Drop, const CAPACITY: usize> IntoIterator for StaticVec<T, CAPACITY> {
    type Item = T;

    type IntoIter = StaticVecIntoIter<T, CAPACITY>;

    ghost use Rattle.std.specs.Iterator.{YieldsFirst, YieldsLast};
    ghost use Rattle.std.specs.Iterator.Runs.{YieldsInOrder, YieldsInReverse};

    ghost into_iter_gives = { λ vector it. (it ≡ vector) × (length it ≤ CAPACITY)
        × YieldsInOrder (YieldsFirst {A = T} (λ rest. rest)) (λ rest. rest)
        × YieldsInReverse (YieldsLast {A = T} (λ rest. rest)) (λ rest. rest) };

    fn into_iter(self) -> StaticVecIntoIter<T, CAPACITY> {
        let StaticVec { mut places, len } = self;
        places.truncate(len);
        places.into_iter()
    }
}

/// Yields references to the elements, as [`Vector::iter`] does.
impl<'a, T: Default + Drop, const CAPACITY: usize> IntoIterator for &'a StaticVec<T, CAPACITY> {
    type Item = &'a T;

    type IntoIter = slice::Iter<'a, T>;

    ghost use Rattle.ix_vector.specs.Iterating.{YieldsRefsTo};

    ghost into_iter_gives = { λ vector it. YieldsRefsTo vector.now it
        × (length vector.now ≤ CAPACITY) };

    fn into_iter(self) -> slice::Iter<'a, T> {
        self.iter()
    }
}

/// Yields mutable references to the elements, as [`Vector::iter_mut`] does.
impl<'a, T: Default + Drop, const CAPACITY: usize> IntoIterator for &'a mut StaticVec<T, CAPACITY> {
    type Item = &'a mut T;

    type IntoIter = slice::IterMut<'a, T>;

    ghost use Rattle.std.specs.Borrow.{sem};
    ghost use Rattle.ix_vector.specs.Iterating.{YieldsMutRefsTo, static_vec_lends_iter};

    ghost into_iter_gives = { λ vector it. YieldsMutRefsTo vector.now it
        × (length vector.now ≤ CAPACITY) };

    fn into_iter(self) -> slice::IterMut<'a, T>
        ensures* writes_back { sem 𝓛
            (static_vec_lends_iter T.row CAPACITY.row T.Default self.entry result) }
        ensures into_iter_gives { YieldsMutRefsTo self.old result
            × (length self.old ≤ CAPACITY) }
    {
        self.iter_mut()
    }
}

impl<T: Default + Clone, const CAPACITY: usize> TryFrom<&[T]> for StaticVec<T, CAPACITY> {
    type Error = VectorModificationError;

    ghost use Rattle.ix_vector.specs.Conversions.{StaticVecFromSlice};

    ghost try_from_gives = { λ items result.
        StaticVecFromSlice CAPACITY T.is_clone T.is_infallible items.now result };

    /// Creates a vector that holds clones of `items`.
    ///
    /// O(`CAPACITY`), with `items.len()` clones. Returns [`VectorModificationError::InsertWouldExceedCapacity`] without cloning if
    /// there are more elements than `CAPACITY`, or `CAPACITY` is greater than [`MAX_FIXED_CAPACITY`]. Returns
    /// [`VectorModificationError::OutOfMemory`] if cloning an element fails.
    fn try_from(items: &[T]) -> Result<Self, VectorModificationError> {
        if CAPACITY > MAX_FIXED_CAPACITY {
            return Err(VectorModificationError::InsertWouldExceedCapacity);
        }
        if items.len() > CAPACITY {
            return Err(VectorModificationError::InsertWouldExceedCapacity);
        }
        let mut vector = StaticVec::new();
        match vector.append_clones(items) {
            Ok(()) => Ok(vector),
            Err(AllocError) => Err(VectorModificationError::OutOfMemory),
        }
    }
}

impl<T: Default + Clone, const CAPACITY: usize, const N: usize> TryFrom<&[T; N]>
    for StaticVec<T, CAPACITY> {
    type Error = VectorModificationError;

    ghost use Rattle.ix_vector.specs.Conversions.{StaticVecFromSlice};

    ghost try_from_gives = { λ items result.
        StaticVecFromSlice CAPACITY T.is_clone T.is_infallible items.now result };

    /// Creates a vector as the conversion from a slice of the array does.
    fn try_from(items: &[T; N]) -> Result<Self, VectorModificationError> {
        Self::try_from(items.as_slice())
    }
}

impl<T: Default + Drop, const CAPACITY: usize, const N: usize> TryFrom<[T; N]>
    for StaticVec<T, CAPACITY> {
    type Error = [T; N];

    ghost use Rattle.ix_vector.specs.Conversions.{StaticVecFromArray};

    ghost try_from_gives = { λ items result. StaticVecFromArray CAPACITY items result };

    /// Creates a vector that holds the elements of the array. O(`CAPACITY`).
    ///
    /// Returns the array as the error if it has more elements than `CAPACITY`.
    fn try_from(mut items: [T; N]) -> Result<Self, [T; N]> {
        if N > CAPACITY {
            return Err(items);
        }
        let mut vector = StaticVec::empty();
        for i in 0..N {
            vector.push_unchecked(mem::take(&mut items[i]));
        }
        Ok(vector)
    }
}

impl<T: Default + Clone, const CAPACITY: usize> Clone for StaticVec<T, CAPACITY> {
    ghost is_clone = { AllZip T.is_clone };

    ghost is_infallible = { AreInfallible T.is_infallible };

    /// Creates a vector that holds clones of the elements. O(`CAPACITY`).
    ///
    /// Returns the error of the first clone that fails.
    fn clone(&self) -> Result<Self, AllocError> {
        let mut vector = StaticVec::empty();
        vector.append_clones(self.items())?;
        Ok(vector)
    }
}

impl<T: Default + PartialEq, const CAPACITY: usize> PartialEq for StaticVec<T, CAPACITY> {
    ghost eq = { pointwise T.eq };

    ghost laws = { lists_per T.laws };

    fn eq(&self, other: &Self) -> bool {
        self.items() == other.items()
    }
}

impl<T: Default + Eq, const CAPACITY: usize> Eq for StaticVec<T, CAPACITY> {
    ghost laws = { lists_equiv T.Eq.laws };
}

/// Prints the elements as a list.
impl<T: Default + fmt::Debug, const CAPACITY: usize> fmt::Debug for StaticVec<T, CAPACITY> {
    fn fmt<W: fmt::Write>(&self, f: &mut fmt::Formatter<W>) -> fmt::Result {
        f.debug_list().entries(self.items()).finish()
    }
}

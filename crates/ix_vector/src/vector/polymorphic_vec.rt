//! The vector that allocates when it is made.
ghost use Rattle.std.specs.Prelude.{◌≡◌, ◌^◌, ℕ, ◌<◌, ◌≤◌, length, map, Some, IsOk, IfOk, slice_get, slice_set};
ghost use Rattle.std.specs.Borrow.{sem};
ghost use Rattle.std.specs.Cmp.{on_per, on_equiv};
ghost use Rattle.std.specs.Cmp.Lexicographic.{pointwise, lists_per, lists_equiv};
ghost use Rattle.std.proofs.Common.{arith, ap};
ghost use Rattle.std.proofs.lemmas.Grind.{common_steps};
ghost use Rattle.ix_tables.specs.Bounded.{bounded_new, with_items, IsFull, IsWithin};
ghost use Rattle.std.specs.List.{range_with_len};
ghost use Rattle.ix_tables.specs.Calls.{Computes, IsCallableBelow, ResultsFrom};
ghost use Rattle.ix_tables.specs.Cloning.{AreEqualClones};
ghost use Rattle.ix_tables.specs.Memory.{items_memory, no_memory};
ghost use Rattle.std.specs.Mem.{type_size};
ghost use Rattle.ix_vector.specs.VectorSteps.{vec_refill};

use crate::vector::Vector;
use ix_tables::cells::MemorySize;
use std::alloc::{AllocError, Allocator, Global};
use std::marker::Model;
use std::{fmt, slice, vec};

/// A vector that allocates from `A` once, when it is made, and deallocates when it is dropped. Contracts see it as a
/// bounded list.
///
/// `A` is the global allocator, a `&Bump` of `bumpalo`, a `&LocalHeap` of `linked_list_allocator`, or any other. The
/// elements are dropped from the last to the first.
///
/// This is `PolymorphicVec` of iceoryx2-bb-container.
pub struct PolymorphicVec<T, A: Allocator = Global> {
    pub(super) items: Vec<T, A>,
}

impl<T, A: Allocator> Model for PolymorphicVec<T, A> {
    ghost use Rattle.std.specs.Prelude.{length, ◌≤◌, vec_capacity};
    ghost use Rattle.ix_tables.specs.Bounded.{Bounded, bounded_code};

    ghost Value = { Bounded T };

    ghost coded = { bounded_code T.code };

    ghost view = { λ vector. record {
      items = vector.items.items;
      capacity = vec_capacity vector.items;
    } };

    ghost invariant = { λ vector. length vector.items.items ≤ vec_capacity vector.items };
}

impl<T: Drop, A: Allocator> PolymorphicVec<T, A> {
    /// Creates an empty vector with room for `capacity` elements.
    ///
    /// O(1), with at most one allocation. A capacity of 0 allocates nothing. Returns `AllocError` if the allocation fails, or if
    /// the elements would take more than `isize::MAX` bytes. For elements of size zero, also returns `AllocError` if there would be
    /// more than `isize::MAX` of them. Nothing stays allocated then.
    pub fn new(alloc: A, capacity: usize) -> Result<Self, AllocError>
        ensures value { IfOk result (λ vector. vector ≡ bounded_new capacity) }
        ensures memory { capacity ≡ 0 → IsOk result }
    {
        Ok(PolymorphicVec {
            items: Vec::with_capacity(alloc, capacity)?,
        })
    }

    /// Returns the amount of memory that a vector of this capacity allocates when it is made.
    ///
    /// This is one allocation, or none if the capacity is 0. The allocation for elements of size zero has no bytes. An allocator
    /// that rounds allocations up uses more bytes than this ([`MemorySize`]).
    ///
    /// Does not allocate. O(1).
    #[inline]
    #[must_use]
    pub fn memory_size(capacity: usize) -> MemorySize
        ensures value { result ≡ items_memory (type_size T.row) capacity }
        ensures monotone { (greater : ℕ) → capacity ≤ greater
            → result.bytes ≤ (items_memory (type_size T.row) greater).bytes }
        ensures none { capacity ≡ 0 → result ≡ no_memory }
        ensures no_bytes { type_size T.row ≡ 0 → result.bytes ≡ 0 }
    {
        MemorySize::of_items::<T>(capacity)
    }

    /// Creates a full vector whose element `n` is `f(n)`.
    ///
    /// Calls `f` at 0, 1, .. in this order, `capacity` times, after the memory is allocated. Returns `AllocError` without calling
    /// `f` if the allocation fails, as for [`PolymorphicVec::new`].
    pub fn from_fn<F: FnMut(usize) -> T>(
        alloc: A,
        capacity: usize,
        mut f: F,
    ) -> Result<Self, AllocError>
        requires { IsCallableBelow F.step F.pre capacity f }
        ensures capacity { IfOk result (λ vector. vector.capacity ≡ capacity) }
        ensures full { IfOk result (λ vector. IsFull vector) }
        ensures items { IfOk result
            (λ vector. (last : F) × ResultsFrom F.step 0 f vector.items last) }
        // If each call of `f` returns `item` of its argument and leaves `f` unchanged, element `n` is `item n`.
        ensures computed { (item : ℕ → T) → Computes F.step f item
            → IfOk result (λ vector. vector.items ≡ map item (range_with_len 0 capacity)) }
        ensures memory { capacity ≡ 0 → IsOk result }
    {
        let mut vector = PolymorphicVec::new(alloc, capacity)?;
        for n in 0..capacity {
            vector.push_unchecked(f(n));
        }
        Ok(vector)
    }
}

impl<T, A: Allocator> PolymorphicVec<T, A> {
    ghost use Rattle.ix_vector.specs.inner.ItemLending.{polymorphic_vec_lends_item};

    #[inline]
    fn item_mut(&mut self, index: usize) -> &mut T
        requires { index < length self.old.items }
        ensures* writes_back { sem 𝓛 (polymorphic_vec_lends_item T.row A.row A.Allocator self.entry index result) }
        ensures value { slice_get self.old.items index ≡ Some result.now }
    {
        &mut self.items[index]
    }
}

impl<T: Clone, A: Allocator + Copy> PolymorphicVec<T, A> {
    /// Creates a vector of the same capacity that holds clones of the elements, in memory of the same allocator.
    ///
    /// O(`len`) clones. Returns `AllocError` if an allocation or a clone fails. Nothing stays allocated then.
    pub fn try_clone(&self) -> Result<Self, AllocError>
        requires { AreEqualClones T.is_clone }
        ensures value { IfOk result (λ vector. vector ≡ self.now) }
        ensures memory { self.now.capacity ≡ 0 → IsOk result }
    {
        let mut copy = PolymorphicVec::new(*self.items.allocator(), self.capacity())?;
        copy.extend_from_slice_unchecked(self.as_slice())?;
        Ok(copy)
    }
}

impl<T: Drop, A: Allocator> Vector<T> for PolymorphicVec<T, A> {
    ghost bounded = { λ vector. vector };

    ghost with_slice = { vec_refill };

    ghost with_item = { λ vector index item.
        with_items vector (slice_set vector.items index item) };

    #[inline]
    fn as_slice(&self) -> &[T] {
        self.items.as_slice()
    }

    #[inline]
    fn as_mut_slice(&mut self) -> &mut [T] {
        self.items.as_mut_slice()
    }

    #[inline]
    fn get_mut(&mut self, index: usize) -> Option<&mut T> {
        if index < self.items.len() {
            Some(self.item_mut(index))
        } else {
            None
        }
    }

    #[inline]
    fn capacity(&self) -> usize {
        self.items.capacity()
    }

    #[inline]
    fn len(&self) -> usize {
        self.items.len()
    }

    #[inline]
    fn push_unchecked(&mut self, item: T) {
        self.items.push_reserved(item);
    }

    #[inline]
    fn pop(&mut self) -> Option<T> {
        self.items.pop()
    }

    ghost bounded_with_slice = { λ vector xs same. ap (with_items vector)
        (Prim.search (arith, common_steps)) };
}

/// Drops the elements, the last one first.
impl<T: Drop, A: Allocator> Drop for PolymorphicVec<T, A> {
    fn drop(mut self) {
        self.clear();
        let PolymorphicVec { items: _ } = self;
    }
}

/// Yields the elements by value, from the first to the last. O(1), without an allocation. Dropping the iterator drops the elements
/// that are left, the first one first.
impl<T: Drop, A: Allocator> IntoIterator for PolymorphicVec<T, A> {
    type Item = T;

    type IntoIter = vec::IntoIter<T, A>;

    ghost use Rattle.std.specs.Iterator.Runs.{YieldsInOrder, YieldsInReverse};
    ghost use Rattle.std_alloc.specs.Vec.Iter.{into_iter_items, into_iter_len, into_iter_steps, into_iter_steps_back};

    ghost into_iter_gives = { λ vector it. (into_iter_items it ≡ vector.items)
        × (into_iter_len it ≡ length vector.items) × (into_iter_len it < 2 ^ 64)
        × YieldsInOrder (into_iter_steps {X = T} {Z = A}) into_iter_items
        × YieldsInReverse (into_iter_steps_back {X = T} {Z = A}) into_iter_items };

    fn into_iter(self) -> vec::IntoIter<T, A> {
        let PolymorphicVec { items } = self;
        items.into_iter()
    }
}

/// Yields references to the elements, as [`Vector::iter`] does.
impl<'a, T: Drop, A: Allocator> IntoIterator for &'a PolymorphicVec<T, A> {
    type Item = &'a T;

    type IntoIter = slice::Iter<'a, T>;

    ghost use Rattle.ix_vector.specs.Iterating.{YieldsRefsTo};

    ghost into_iter_gives = { λ vector it. YieldsRefsTo vector.now.items it
        × IsWithin vector.now };

    fn into_iter(self) -> slice::Iter<'a, T> {
        self.iter()
    }
}

/// Yields mutable references to the elements, as [`Vector::iter_mut`] does.
impl<'a, T: Drop, A: Allocator> IntoIterator for &'a mut PolymorphicVec<T, A> {
    type Item = &'a mut T;

    type IntoIter = slice::IterMut<'a, T>;

    ghost use Rattle.std.specs.Borrow.{sem};
    ghost use Rattle.ix_vector.specs.Iterating.{YieldsMutRefsTo, polymorphic_vec_lends_iter};

    ghost into_iter_gives = { λ vector it. YieldsMutRefsTo vector.now.items it
        × IsWithin vector.now };

    fn into_iter(self) -> slice::IterMut<'a, T>
        ensures* writes_back { sem 𝓛
            (polymorphic_vec_lends_iter T.row A.row A.Allocator self.entry result) }
        ensures into_iter_gives { YieldsMutRefsTo self.old.items result × IsWithin self.old }
    {
        self.iter_mut()
    }
}

/// Compares the elements, whatever the capacities.
impl<T: PartialEq, A: Allocator> PartialEq for PolymorphicVec<T, A> {
    ghost eq = { λ vector other. pointwise T.eq vector.items other.items };

    ghost laws = { on_per (λ vector. vector.items) (lists_per T.laws) };

    fn eq(&self, other: &Self) -> bool {
        self.items == other.items
    }
}

impl<T: Eq, A: Allocator> Eq for PolymorphicVec<T, A> {
    ghost laws = { on_equiv (λ vector. vector.items) (lists_equiv T.Eq.laws) };
}

/// Prints the elements as a list.
impl<T: Drop + fmt::Debug, A: Allocator> fmt::Debug for PolymorphicVec<T, A> {
    fn fmt<W: fmt::Write>(&self, f: &mut fmt::Formatter<W>) -> fmt::Result {
        f.debug_list().entries(self.as_slice()).finish()
    }
}

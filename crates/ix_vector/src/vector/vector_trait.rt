//! The trait of all vectors.
ghost use Rattle.std.specs.Prelude.{ℕ, ◌≡◌, ◌+◌, ◌-◌, ◌<◌, ◌≤◌, ◌↔◌, Bool, List, [], ◌∷◌, ◌++◌, filter, length, take, Ok, Err, IsTrue, IsErr, IsOk, IsOkUnless, IfErr, IfSome, IsNone, IsSome, OnOk, OnErr, option_copied, slice_get, slice_set};
ghost use Rattle.std.specs.Bool.{OnFalse};
ghost use Rattle.std.specs.Fn.{CalledAt};
ghost use Rattle.std.specs.List.{AppendsResults, dedup, swap_remove};
ghost use Rattle.std.specs.List.Retain.{IsFiltered};
ghost use Rattle.std.specs.Borrow.{sem, LendsIf};
ghost use Rattle.std.specs.Iterator.{IsFiniteIterable};
ghost use Rattle.std.specs.Option.{option_copied_mut};
ghost use Rattle.ix_tables.specs.Bounded.{Bounded, IsWithin, IsFull, with_items, bounded_push};
ghost use Rattle.ix_tables.specs.Calls.{Computes, IsCallableOnEach};
ghost use Rattle.ix_tables.specs.Cloning.{AreEqualClones, AreInfallible};
ghost use Rattle.ix_vector.specs.Lending.{vec_lends};
ghost use Rattle.ix_vector.specs.Iterating.{IsCallableTimes, YieldsRefsTo, YieldsMutRefsTo, vec_lends_iter, ExtendsByItemsOf, YieldsMoreThanFit};
ghost use Rattle.ix_vector.specs.VectorDrain.{drain_items, drain_capacity, drain_lender, DrainKeepsAlong};
ghost use Rattle.ix_vector.specs.VectorSteps.{HasRoomFor, LacksRoomFor, vec_push_result, vec_insert, vec_insert_result, vec_remove, vec_pop, vec_last, vec_truncate, vec_extend, vec_resize, vec_resize_result};
ghost use Rattle.ix_vector.specs.declared.vector.modification_error.VectorModificationError.TheVariants.{InsertWouldExceedCapacity, OutOfMemory};

use crate::vector::append::move_tail;
use crate::vector::insert::{move_last_to, move_to_end};
use crate::vector::retain::{keep_in_front, unlike_in_front};
use crate::vector::{Drain, VectorModificationError};
use std::alloc::AllocError;
use std::slice;

/// A contiguous list of at most [`capacity`](Vector::capacity) elements. Contracts see it as a bounded list.
///
/// The memory for all elements is there once the vector is made, so no method allocates, except that cloning an element may. A
/// method that returns an error leaves the vector unchanged, and drops an element that was passed to it. Only
/// [`try_push`](Vector::try_push) and [`try_insert`](Vector::try_insert) return that element instead. Indexes start at 0.
///
/// This is `Vector` of iceoryx2-bb-container.
pub trait Vector<T: Drop> {
    /// The elements, and the capacity.
    ghost bounded: { Self → Bounded T };

    /// The vector with its elements overwritten by others.
    ghost with_slice: { Self → List T → Self };

    /// The vector with the element at an index replaced, if there is one.
    ghost with_item: { Self → ℕ → T → Self };

    /// Returns the elements as a slice. O(1).
    #[must_use]
    fn as_slice(&self) -> &[T]
        ensures value { result.now ≡ (bounded self.now).items }
        ensures within { IsWithin (bounded self.now) };

    /// Returns the elements as a mutable slice. O(1).
    #[must_use]
    fn as_mut_slice(&mut self) -> &mut [T]
        ensures* writes_back { sem 𝓛 (vec_lends Self.row T.row with_slice self.entry result) }
        ensures value { result.now ≡ (bounded self.old).items }
        ensures within { IsWithin (bounded self.old) };

    /// Returns an iterator over references to the elements, from the first to the last. O(1).
    #[inline]
    #[must_use]
    final fn iter(&self) -> slice::Iter<'_, T>
        ensures value { YieldsRefsTo (bounded self.now).items result }
        ensures within { IsWithin (bounded self.now) }
    {
        self.as_slice().iter()
    }

    /// Returns an iterator over mutable references to the elements, from the first to the last. O(1).
    #[inline]
    #[must_use]
    final fn iter_mut(&mut self) -> slice::IterMut<'_, T>
        ensures* writes_back { sem 𝓛 (vec_lends_iter Self.row T.row with_slice self.entry result) }
        ensures value { YieldsMutRefsTo (bounded self.old).items result }
        ensures within { IsWithin (bounded self.old) }
    {
        self.as_mut_slice().iter_mut()
    }

    /// Returns a reference to the element at `index`, or `None` if `index` is out of bounds. O(1).
    ///
    /// This hides the slice's `get`. For a range of elements, call `vector.as_slice().get(1..3)`.
    #[inline]
    #[must_use]
    final fn get(&self, index: usize) -> Option<&T>
        ensures value { option_copied result ≡ slice_get (bounded self.now).items index }
        ensures bounds { IsSome result ↔ (index < length (bounded self.now).items) }
        ensures within { IsWithin (bounded self.now) }
    {
        self.as_slice().get(index)
    }

    /// Returns a mutable reference to the element at `index`, or `None` if `index` is out of bounds. O(1).
    ///
    /// This hides the slice's `get_mut`. For a range of elements, call `vector.as_mut_slice().get_mut(1..3)`.
    #[must_use]
    fn get_mut(&mut self, index: usize) -> Option<&mut T>
        ensures* writes_back { sem 𝓛 (LendsIf Self.row T.row self.entry result
            (with_item self.old index) self.old) }
        ensures value { option_copied_mut result ≡ slice_get (bounded self.old).items index }
        ensures bounds { IsSome result ↔ (index < length (bounded self.old).items) }
        // Whatever element is written, the vector has it, and each other element is as it was.
        ensures holds { (written : T) → bounded (with_item self.old index written)
            ≡ with_items (bounded self.old) (slice_set (bounded self.old).items index written) }
        // Writing back the same element leaves the vector as it was.
        ensures unchanged { (item : T) → option_copied_mut result ≡ Some item
            → with_item self.old index item ≡ self.old }
        ensures within { IsWithin (bounded self.old) };

    /// Returns a reference to the first element, or `None` if the vector is empty. O(1).
    #[inline]
    #[must_use]
    final fn first(&self) -> Option<&T>
        ensures value { option_copied result ≡ slice_get (bounded self.now).items 0 }
        ensures empty { IsNone result ↔ ((bounded self.now).items ≡ []) }
        ensures within { IsWithin (bounded self.now) }
    {
        self.get(0)
    }

    /// Returns a mutable reference to the first element, or `None` if the vector is empty. O(1).
    #[inline]
    #[must_use]
    final fn first_mut(&mut self) -> Option<&mut T>
        ensures* writes_back { sem 𝓛 (LendsIf Self.row T.row self.entry result
            (with_item self.old 0) self.old) }
        ensures value { option_copied_mut result ≡ slice_get (bounded self.old).items 0 }
        ensures empty { IsNone result ↔ ((bounded self.old).items ≡ []) }
        ensures holds { (written : T) → bounded (with_item self.old 0 written)
            ≡ with_items (bounded self.old) (slice_set (bounded self.old).items 0 written) }
        ensures unchanged { (item : T) → option_copied_mut result ≡ Some item
            → with_item self.old 0 item ≡ self.old }
        ensures within { IsWithin (bounded self.old) }
    {
        self.get_mut(0)
    }

    /// Returns a reference to the last element, or `None` if the vector is empty. O(1).
    #[inline]
    #[must_use]
    final fn last(&self) -> Option<&T>
        ensures value { option_copied result ≡ vec_last (bounded self.now) }
        ensures empty { IsNone result ↔ ((bounded self.now).items ≡ []) }
        ensures within { IsWithin (bounded self.now) }
    {
        self.as_slice().last()
    }

    /// Returns a mutable reference to the last element, or `None` if the vector is empty. O(1).
    #[inline]
    #[must_use]
    final fn last_mut(&mut self) -> Option<&mut T>
        ensures* writes_back { sem 𝓛 (LendsIf Self.row T.row self.entry result
            (with_item self.old (length (bounded self.old).items - 1)) self.old) }
        ensures value { option_copied_mut result ≡ vec_last (bounded self.old) }
        ensures empty { IsNone result ↔ ((bounded self.old).items ≡ []) }
        ensures holds { (written : T) → bounded
            (with_item self.old (length (bounded self.old).items - 1) written)
            ≡ with_items (bounded self.old) (slice_set (bounded self.old).items
            (length (bounded self.old).items - 1) written) }
        ensures unchanged { (item : T) → option_copied_mut result ≡ Some item
            → with_item self.old (length (bounded self.old).items - 1) item ≡ self.old }
        ensures within { IsWithin (bounded self.old) }
    {
        let last = self.len().saturating_sub(1);
        self.get_mut(last)
    }

    /// Returns the maximum number of elements. O(1).
    #[must_use]
    fn capacity(&self) -> usize
        ensures { result ≡ (bounded self.now).capacity };

    /// Returns the number of elements. O(1).
    #[must_use]
    fn len(&self) -> usize
        ensures value { result ≡ length (bounded self.now).items }
        ensures within { IsWithin (bounded self.now) };

    /// Returns `true` if the vector has no elements. O(1).
    #[inline]
    #[must_use]
    final fn is_empty(&self) -> bool
        ensures value { IsTrue result ↔ ((bounded self.now).items ≡ []) }
        ensures within { IsWithin (bounded self.now) }
    {
        self.len() == 0
    }

    /// Returns `true` if there are as many elements as the capacity. A vector of capacity 0 is both empty and full. O(1).
    #[inline]
    #[must_use]
    final fn is_full(&self) -> bool
        ensures value { IsTrue result ↔ IsFull (bounded self.now) }
        ensures room { OnFalse result
            (length (bounded self.now).items < (bounded self.now).capacity) }
        ensures within { IsWithin (bounded self.now) }
    {
        self.len() == self.capacity()
    }

    /// Returns how many more elements fit. O(1).
    #[inline]
    #[must_use]
    final fn remaining_capacity(&self) -> usize
        ensures value { length (bounded self.now).items + result ≡ (bounded self.now).capacity }
        ensures within { IsWithin (bounded self.now) }
    {
        self.capacity() - self.len()
    }

    /// Appends `item` to a vector that is not full. O(1).
    fn push_unchecked(&mut self, item: T)
        requires { length (bounded self.old).items < (bounded self.old).capacity }
        ensures { bounded self.new
            ≡ with_items (bounded self.old) ((bounded self.old).items ++ item ∷ []) };

    /// Removes the last element and returns it, or `None` if the vector is empty. O(1).
    fn pop(&mut self) -> Option<T>
        ensures value { result ≡ vec_last (bounded self.old) }
        ensures vector { bounded self.new ≡ vec_pop (bounded self.old) }
        ensures within { IsWithin (bounded self.new) };

    /// Appends `item` at the end. O(1).
    ///
    /// Returns [`VectorModificationError::InsertWouldExceedCapacity`], and drops `item`, if the vector is full.
    #[inline]
    final fn push(&mut self, item: T) -> Result<(), VectorModificationError>
        ensures value { result ≡ vec_push_result (bounded self.old) }
        ensures vector { bounded self.new ≡ bounded_push (bounded self.old) item }
        ensures refused { OnErr result (self.new ≡ self.old) }
        ensures within { IsWithin (bounded self.new) }
    {
        if self.len() < self.capacity() {
            self.push_unchecked(item);
            return Ok(());
        }
        Err(VectorModificationError::InsertWouldExceedCapacity)
    }

    /// Appends `item` at the end, or returns it if the vector is full. O(1).
    ///
    /// Returns `Err` with `item`, and leaves the vector unchanged, if the vector is full.
    #[inline]
    final fn try_push(&mut self, item: T) -> Result<(), T>
        ensures full { IsErr result ↔ IsFull (bounded self.old) }
        ensures vector { bounded self.new ≡ bounded_push (bounded self.old) item }
        ensures returned { IfErr result (λ returned. returned ≡ item) }
        ensures refused { OnErr result (self.new ≡ self.old) }
        ensures within { IsWithin (bounded self.new) }
    {
        if self.len() == self.capacity() {
            return Err(item);
        }
        self.push_unchecked(item);
        Ok(())
    }

    /// Inserts `item` at `index`, shifting all later elements to the right. O(`len - index`).
    ///
    /// Returns [`VectorModificationError::InsertWouldExceedCapacity`] if the vector is full, and otherwise
    /// [`VectorModificationError::OutOfBounds`] if `index` is greater than the length.
    final fn insert(&mut self, index: usize, item: T) -> Result<(), VectorModificationError>
        ensures value { result ≡ vec_insert_result (bounded self.old) index }
        ensures vector { bounded self.new ≡ vec_insert (bounded self.old) index item }
        ensures refused { OnErr result (self.new ≡ self.old) }
        ensures within { IsWithin (bounded self.new) }
    {
        match self.try_insert(index, item) {
            Ok(()) => Ok(()),
            Err((error, _item)) => Err(error),
        }
    }

    /// Inserts `item` at `index` as [`Vector::insert`] does, or returns it with the error. O(`len - index`).
    ///
    /// Returns the errors of [`Vector::insert`], each together with `item`.
    final fn try_insert(
        &mut self,
        index: usize,
        item: T,
    ) -> Result<(), (VectorModificationError, T)>
        ensures inserted { OnOk result (vec_insert_result (bounded self.old) index ≡ Ok tt) }
        ensures error { IfErr result (λ refusal.
            vec_insert_result (bounded self.old) index ≡ Err refusal.0) }
        ensures returned { IfErr result (λ refusal. refusal.1 ≡ item) }
        ensures vector { bounded self.new ≡ vec_insert (bounded self.old) index item }
        ensures refused { OnErr result (self.new ≡ self.old) }
        ensures within { IsWithin (bounded self.new) }
    {
        if self.is_full() {
            return Err((VectorModificationError::InsertWouldExceedCapacity, item));
        }
        if index > self.len() {
            return Err((VectorModificationError::OutOfBounds, item));
        }
        self.push_unchecked(item);
        move_last_to(self.as_mut_slice(), index);
        Ok(())
    }

    /// Removes the element at `index` and returns it, shifting all later elements to the left. Returns `None` if `index` is out
    /// of bounds. O(`len - index`).
    final fn remove(&mut self, index: usize) -> Option<T>
        ensures value { result ≡ slice_get (bounded self.old).items index }
        ensures vector { bounded self.new ≡ vec_remove (bounded self.old) index }
        ensures refused { length (bounded self.old).items ≤ index → self.new ≡ self.old }
        ensures within { IsWithin (bounded self.new) }
    {
        if index < self.len() {
            move_to_end(self.as_mut_slice(), index);
            return self.pop();
        }
        None
    }

    /// Removes the element at `index` and returns it. The last element takes its place. Returns `None` if `index` is out of bounds.
    /// O(1).
    final fn swap_remove(&mut self, index: usize) -> Option<T>
        ensures value { result ≡ slice_get (bounded self.old).items index }
        ensures vector { IfSome result (λ item. bounded self.new
            ≡ with_items (bounded self.old) (swap_remove (bounded self.old).items index item)) }
        ensures refused { length (bounded self.old).items ≤ index → self.new ≡ self.old }
        ensures within { IsWithin (bounded self.new) }
    {
        let len = self.len();
        if index < len {
            self.as_mut_slice().swap(index, len - 1);
            return self.pop();
        }
        None
    }

    /// Moves all elements of `other` to the end of the vector, in their order. `other` is empty then. O(`other.len()`).
    ///
    /// Returns [`VectorModificationError::InsertWouldExceedCapacity`], and leaves both unchanged, if there is no room for
    /// all of them.
    final fn append(&mut self, other: &mut Self) -> Result<(), VectorModificationError>
        ensures full { LacksRoomFor (length (bounded other.old).items) (bounded self.old)
            → result ≡ Err InsertWouldExceedCapacity }
        ensures fits { HasRoomFor (length (bounded other.old).items) (bounded self.old)
            → result ≡ Ok tt }
        ensures vector { OnOk result
            (bounded self.new ≡ vec_extend (bounded self.old) (bounded other.old).items) }
        ensures emptied { OnOk result (bounded other.new ≡ with_items (bounded other.old) []) }
        ensures refused { OnErr result (self.new ≡ self.old) }
        ensures refused_other { OnErr result (other.new ≡ other.old) }
    {
        if other.len() > self.remaining_capacity() {
            return Err(VectorModificationError::InsertWouldExceedCapacity);
        }
        move_tail(other, 0, self);
        Ok(())
    }

    /// Shortens the vector, keeping the first `n` elements and dropping the rest, the last one first. Does nothing if `n` is
    /// greater than or equal to the length. O(`len - n`).
    fn truncate(&mut self, n: usize)
        ensures { bounded self.new ≡ vec_truncate (bounded self.old) n }
    {
        while n < self.len() {
            drop(self.pop());
        }
    }

    /// Keeps the elements for which `f` returns `true`, in their order, and drops the others. O(`len`).
    ///
    /// Calls `f` with each element, from the first to the last. The others are dropped after the last call, in any order.
    final fn retain<F: FnMut(&T) -> bool>(&mut self, f: F)
        requires { IsCallableOnEach F.FnMut (bounded self.old).items f }
        ensures items { IsFiltered (CalledAt F.FnMut) f
            (bounded self.old).items (bounded self.new).items }
        ensures count { length (bounded self.new).items ≤ length (bounded self.old).items }
        // If `f` computes `test` and stays as it was, the elements that pass `test` are kept.
        ensures filtered { (test : T → Bool) → Computes (CalledAt F.FnMut) f test
            → (bounded self.new).items ≡ filter test (bounded self.old).items }
        ensures capacity { (bounded self.new).capacity ≡ (bounded self.old).capacity }
    {
        let kept = keep_in_front(self.as_mut_slice(), f);
        self.truncate(kept);
    }

    /// Removes and drops each element that equals the one before it, so the first of equal elements in a row stays. The removed
    /// elements are dropped in any order. O(`len`).
    final fn dedup(&mut self)
    where
        T: PartialEq,
        ensures { bounded self.new
            ≡ with_items (bounded self.old) (dedup T.eq (bounded self.old).items) }
    {
        let kept = unlike_in_front(self.as_mut_slice());
        self.truncate(kept);
    }

    /// Returns an iterator that removes all elements, from the first to the last. O(`len`).
    #[inline]
    final fn drain(&mut self) -> Drain<'_, T, Self>
        ensures items { drain_items bounded result ≡ (bounded self.old).items }
        ensures capacity { drain_capacity bounded result ≡ (bounded self.old).capacity }
        // With these two clauses a caller knows that the vector is empty once the iterator is dropped.
        ensures same_reference { drain_lender bounded result ≡ self.entry.ghost_name }
        ensures stays { DrainKeepsAlong bounded result }
    {
        Drain::new(self)
    }

    /// Removes and drops all elements, the last one first. O(`len`).
    final fn clear(&mut self)
        ensures { bounded self.new ≡ with_items (bounded self.old) [] }
    {
        self.truncate(0);
    }

    /// Appends clones of all elements of `other`, for which there is room. O(`other.len()`) clones.
    ///
    /// Returns `AllocError` if cloning an element fails. The clones already made are dropped then.
    fn extend_from_slice_unchecked(&mut self, other: &[T]) -> Result<(), AllocError>
    where
        T: Clone,
        requires clones { AreEqualClones T.is_clone }
        requires room { HasRoomFor (length other.now) (bounded self.old) }
        ensures vector { OnOk result (bounded self.new ≡ vec_extend (bounded self.old) other.now) }
        ensures refused { OnErr result (bounded self.new ≡ bounded self.old) }
        ensures memory { AreInfallible T.is_infallible other.now → IsOk result }
    {
        let old_len = self.len();
        for item in other {
            match item.clone() {
                Ok(copy) => self.push_unchecked(copy),
                Err(error) => {
                    self.truncate(old_len);
                    return Err(error);
                }
            }
        }
        Ok(())
    }

    /// Appends clones of all elements of `other`. O(`other.len()`) clones.
    ///
    /// Returns [`VectorModificationError::InsertWouldExceedCapacity`] without cloning if there is no room for all of them. Returns
    /// [`VectorModificationError::OutOfMemory`] if cloning an element fails; the clones already made are dropped then.
    // Always inlined, like the function that it calls in fixed vectors: LLVM copies blocks where it sees that the two slices lie
    // apart.
    #[inline(always)]
    final fn extend_from_slice(&mut self, other: &[T]) -> Result<(), VectorModificationError>
    where
        T: Clone,
        requires clones { AreEqualClones T.is_clone }
        ensures full { LacksRoomFor (length other.now) (bounded self.old)
            → result ≡ Err InsertWouldExceedCapacity }
        ensures fits { HasRoomFor (length other.now) (bounded self.old)
            → IsOkUnless result OutOfMemory }
        ensures vector { OnOk result (bounded self.new ≡ vec_extend (bounded self.old) other.now) }
        ensures refused { OnErr result (bounded self.new ≡ bounded self.old) }
        ensures memory { HasRoomFor (length other.now) (bounded self.old)
            → AreInfallible T.is_infallible other.now → IsOk result }
    {
        if other.len() > self.capacity() - self.len() {
            return Err(VectorModificationError::InsertWouldExceedCapacity);
        }
        match self.extend_from_slice_unchecked(other) {
            Ok(()) => Ok(()),
            Err(AllocError) => Err(VectorModificationError::OutOfMemory),
        }
    }

    /// Appends the items of `iter`, in the order in which they come. O(the number of items).
    ///
    /// Returns [`VectorModificationError::InsertWouldExceedCapacity`] if `iter` yields an item for which there is no room. That
    /// item and the iterator are dropped. The items that were appended before it are dropped too, the last one first.
    final fn extend_from_iter<U: IntoIterator<Item = T>>(
        &mut self,
        iter: U,
    ) -> Result<(), VectorModificationError>
        requires { IsFiniteIterable U.into_iter_gives
            U.IntoIter.can_next U.IntoIter.remaining iter }
        ensures value { IsOkUnless result InsertWouldExceedCapacity }
        ensures vector { OnOk result (ExtendsByItemsOf U.into_iter_gives U.IntoIter.next_gives iter
            (bounded self.old) (bounded self.new)) }
        ensures full { OnErr result (YieldsMoreThanFit U.into_iter_gives U.IntoIter.next_gives iter
            (bounded self.old)) }
        ensures refused { OnErr result (bounded self.new ≡ bounded self.old) }
    {
        let old_len = self.len();
        for item in iter {
            if let Err(error) = self.push(item) {
                self.truncate(old_len);
                return Err(error);
            }
        }
        Ok(())
    }

    /// Resizes the vector to `n` elements: truncates it, or appends clones of `item`. O(`len - n`), or O(`n - len`) clones.
    ///
    /// Returns [`VectorModificationError::InsertWouldExceedCapacity`] if `n` is greater than the capacity. Returns
    /// [`VectorModificationError::OutOfMemory`] if cloning `item` fails; the clones already made are dropped then.
    final fn resize(&mut self, n: usize, item: T) -> Result<(), VectorModificationError>
    where
        T: Clone,
        requires clones { AreEqualClones T.is_clone }
        ensures full { (bounded self.old).capacity < n → result ≡ Err InsertWouldExceedCapacity }
        ensures fits { n ≤ (bounded self.old).capacity → IsOkUnless result OutOfMemory }
        ensures vector { OnOk result (bounded self.new ≡ vec_resize (bounded self.old) n item) }
        ensures refused { OnErr result (bounded self.new ≡ bounded self.old) }
        ensures shrinks { n ≤ length (bounded self.old).items → IsOk result }
        ensures memory { n ≤ (bounded self.old).capacity → T.is_infallible item → IsOk result }
    {
        let len = self.len();
        if n > self.capacity() {
            return Err(VectorModificationError::InsertWouldExceedCapacity);
        }
        if n <= len {
            self.truncate(n);
            return Ok(());
        }
        for _i in len..n {
            match item.clone() {
                Ok(copy) => self.push_unchecked(copy),
                Err(AllocError) => {
                    self.truncate(len);
                    return Err(VectorModificationError::OutOfMemory);
                }
            }
        }
        Ok(())
    }

    /// Resizes the vector to `n` elements: truncates it, or appends results of `f` in the order of its calls. O(`len - n`), or
    /// `n - len` calls.
    ///
    /// Returns [`VectorModificationError::InsertWouldExceedCapacity`] without calling `f` if `n` is greater than the
    /// capacity. `f` is not called to truncate either.
    final fn resize_with<F: FnMut() -> T>(
        &mut self,
        n: usize,
        mut f: F,
    ) -> Result<(), VectorModificationError>
        // If the method returns an error or truncates, it requires nothing of `f`.
        requires { n ≤ (bounded self.old).capacity
            → IsCallableTimes F.step F.pre (n - length (bounded self.old).items) f }
        ensures value { result ≡ vec_resize_result (bounded self.old) n }
        ensures len { OnOk result (length (bounded self.new).items ≡ n) }
        ensures vector { OnOk result (AppendsResults F.step (take n (bounded self.old).items)
            (bounded self.new).items f) }
        // If `f` always returns `item` and stays as it was, the vector is resized with `item`.
        ensures computed { (item : T)
            → ((x : T) (next : F) → F.step f x next → (x ≡ item) × (next ≡ f))
            → OnOk result (bounded self.new ≡ vec_resize (bounded self.old) n item) }
        ensures capacity { (bounded self.new).capacity ≡ (bounded self.old).capacity }
        ensures refused { OnErr result (self.new ≡ self.old) }
    {
        let old_len = self.len();
        if n > self.capacity() {
            return Err(VectorModificationError::InsertWouldExceedCapacity);
        }
        if n <= old_len {
            self.truncate(n);
            return Ok(());
        }
        for _i in old_len..n {
            self.push_unchecked(f());
        }
        Ok(())
    }

    /// Overwriting all elements changes nothing else.
    ghost bounded_with_slice: { (vector : Self) (xs : List T)
        → length xs ≡ length (bounded vector).items
        → bounded (with_slice vector xs) ≡ with_items (bounded vector) xs };
}

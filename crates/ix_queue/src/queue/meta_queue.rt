//! The queue over any table.
ghost use Rattle.std.specs.Prelude.{◌≡◌, ◌+◌, ◌<◌, ◌≤◌, ◌↔◌, [], Some, IsTrue, IsSome, IsNone, IsOk, IsErr, IfErr, OnErr, length, option_copied, slice_get};
ghost use Rattle.std.specs.List.{push};
ghost use Rattle.std.specs.Bool.{OnFalse};
ghost use Rattle.std.specs.Borrow.{sem, Lends, LendsIf};
ghost use Rattle.std.specs.Cmp.{on_per, on_equiv};
ghost use Rattle.std.specs.Cmp.Lexicographic.{pointwise, lists_per, lists_equiv};
ghost use Rattle.std.specs.Option.{option_copied_mut};
ghost use Rattle.ix_tables.specs.Bounded.{IsWithin, IsFull, has_room, bounded_new, bounded_push, with_items, vec_last, vec_pop};
ghost use Rattle.ix_tables.specs.Places.{IsVacant};
ghost use Rattle.ix_queue.specs.QueueSteps.{queue_overflow, queue_overflow_item, queue_front, queue_pop, queue_set, queue_set_front};
ghost use Rattle.ix_queue.specs.inner.Ring.{ring_place, ring_next};

use crate::queue::Iter;
use ix_tables::Table;
use std::fmt::{self, Debug, Formatter, Write};
use std::marker::{Model, PhantomData};

/// A queue whose elements lie in a table `S`. Contracts see it as a bounded list, with the front element, which is the
/// oldest, first.
///
/// The elements lie in a ring of the table's places. Each method takes O(1) time unless its docs say otherwise. Only functions that
/// make a queue allocate. Dropping a queue drops its elements, the front element first, in O(capacity) time.
///
/// This is `MetaQueue` of iceoryx2-bb-container.
pub struct MetaQueue<T, S: Table<T>> {
    pub(crate) table: S,
    start: usize,
    len: usize,
    of: PhantomData<T>,
}

impl<T, S: Table<T>> Model for MetaQueue<T, S> {
    ghost use Rattle.std.specs.Prelude.{length};
    ghost use Rattle.ix_tables.specs.Bounded.{Bounded, bounded_code};
    ghost use Rattle.ix_queue.specs.inner.Ring.{ring_row, row_items, IsRing};

    ghost Value = { Bounded T };

    ghost coded = { bounded_code T.code };

    ghost view = { λ queue. record {
      items = row_items (ring_row (S.places queue.table) queue.start);
      capacity = length (S.places queue.table);
    } };

    ghost invariant = { λ queue. IsRing (S.places queue.table) queue.start queue.len };
}

/// Returns the place that is `i` places after `start`, where the first place follows the last.
#[inline]
fn place_after(start: usize, i: usize, capacity: usize) -> usize
    requires start { start ≤ capacity }
    requires i { i < capacity }
    ensures { result ≡ ring_place start i capacity }
{
    let places_to_the_end = capacity - start;
    if i < places_to_the_end {
        start + i
    } else {
        i - places_to_the_end
    }
}

/// Returns the place after `place`, where the first place follows the last.
#[inline]
fn next_after(place: usize, capacity: usize) -> usize
    requires { place < capacity }
    ensures { result ≡ ring_next place capacity }
{
    if place + 1 == capacity { 0 } else { place + 1 }
}

impl<T, S: Table<T>> MetaQueue<T, S> {
    ghost use Rattle.ix_queue.specs.contracts.queue.meta_queue.MetaQueue.{the_row};

    /// Creates an empty queue over `table`, whose length is the capacity.
    ///
    /// Every place of `table` must be empty. A table of any kind will do, including your own.
    #[inline]
    pub fn from_table(table: S) -> Self
        requires { IsVacant (S.places table) }
        ensures { result ≡ bounded_new (length (S.places table)) }
    {
        MetaQueue {
            table,
            start: 0,
            len: 0,
            of: PhantomData,
        }
    }

    /// Returns the maximum number of elements.
    #[must_use]
    #[inline]
    pub fn capacity(&self) -> usize
        ensures value { result ≡ self.now.capacity }
        // The capacity of an inline queue is the one in its type: every method's contract says so.
        ensures known { S.IsLen self.now.capacity }
    {
        self.table.len()
    }

    /// Returns the number of elements, which is at most the capacity.
    #[must_use]
    #[inline]
    pub fn len(&self) -> usize
        ensures value { result ≡ length self.now.items }
        ensures within { IsWithin self.now }
        ensures known { S.IsLen self.now.capacity }
    {
        // The contract of `len` tells the checker the facts about the capacity.
        let _capacity = self.table.len();
        self.len
    }

    /// Returns `true` if the queue has no elements.
    #[must_use]
    #[inline]
    pub fn is_empty(&self) -> bool
        ensures value { IsTrue result ↔ (self.now.items ≡ []) }
        ensures known { S.IsLen self.now.capacity }
    {
        self.len() == 0
    }

    /// Returns `true` if the number of elements is the capacity. A queue of capacity 0 is both empty and full.
    #[must_use]
    #[inline]
    pub fn is_full(&self) -> bool
        ensures value { IsTrue result ↔ IsFull self.now }
        ensures room { OnFalse result (length self.now.items < self.now.capacity) }
        ensures known { S.IsLen self.now.capacity }
    {
        self.len == self.table.len()
    }

    /// Returns how many more elements fit.
    #[must_use]
    #[inline]
    pub fn remaining_capacity(&self) -> usize
        ensures value { length self.now.items + result ≡ self.now.capacity }
        ensures full { result ≡ 0 ↔ IsFull self.now }
        ensures known { S.IsLen self.now.capacity }
    {
        self.capacity() - self.len()
    }

    /// Appends `value` at the back and returns `true`. Returns `false`, and drops `value`, if the queue is full.
    #[must_use]
    #[inline]
    pub fn push(&mut self, value: T) -> bool
    where
        T: Drop,
        ensures value { result ≡ has_room self.old }
        ensures queue { self.new ≡ bounded_push self.old value }
        ensures full { OnFalse result (IsFull self.old) }
        ensures refused { OnFalse result (self.new ≡ self.old) }
        ensures within { IsWithin self.new }
        ensures known { S.IsLen self.old.capacity }
    {
        let capacity = self.table.len();
        let has_room = self.len < capacity;
        if has_room {
            self.append(value, capacity);
        }
        has_room
    }

    /// Appends `value` at the back, or returns it if the queue is full.
    ///
    /// Returns `Err` with `value`, and leaves the queue unchanged, if the queue is full.
    #[inline]
    pub fn try_push(&mut self, value: T) -> Result<(), T>
        ensures queue { self.new ≡ bounded_push self.old value }
        ensures full { IsErr result ↔ IsFull self.old }
        ensures room { IsOk result → length self.old.items < self.old.capacity }
        ensures returned { IfErr result (λ returned. returned ≡ value) }
        ensures refused { OnErr result (self.new ≡ self.old) }
        ensures within { IsWithin self.new }
        ensures known { S.IsLen self.old.capacity }
    {
        let capacity = self.table.len();
        if self.len == capacity {
            return Err(value);
        }
        self.append(value, capacity);
        Ok(())
    }

    /// Appends `value` at the back, removing the front element first if the queue is full. Returns the removed element, or `None`
    /// if there was room. At capacity 0, returns `value` itself.
    #[inline]
    pub fn push_with_overflow(&mut self, value: T) -> Option<T>
        ensures value { result ≡ queue_overflow_item self.old value }
        ensures queue { self.new ≡ queue_overflow self.old value }
        ensures full { IsSome result ↔ IsFull self.old }
        ensures within { IsWithin self.new }
        ensures known { S.IsLen self.old.capacity }
    {
        let capacity = self.table.len();
        if self.len < capacity {
            self.append(value, capacity);
            return None;
        }
        if capacity == 0 {
            return Some(value);
        }
        let start = self.start;
        let front = self.table.take(start);
        self.table.put(start, value);
        self.start = next_after(start, capacity);
        Some(front)
    }

    /// Removes the front element and returns it, or `None` if the queue is empty.
    #[inline]
    pub fn pop(&mut self) -> Option<T>
        ensures value { result ≡ queue_front self.old }
        ensures queue { self.new ≡ queue_pop self.old }
        ensures empty { IsNone result ↔ (self.old.items ≡ []) }
        ensures room { IsSome result → length self.new.items < self.new.capacity }
        ensures known { S.IsLen self.old.capacity }
    {
        let capacity = self.table.len();
        let start = self.start;
        let len = self.len;
        if len == 0 {
            return None;
        }
        let item = self.table.take(start);
        self.start = next_after(start, capacity);
        self.len = len - 1;
        Some(item)
    }

    /// Removes the back element, which is the newest, and returns it, or `None` if the queue is empty.
    #[inline]
    pub fn pop_back(&mut self) -> Option<T>
        ensures value { result ≡ vec_last self.old }
        ensures queue { self.new ≡ vec_pop self.old }
        ensures empty { IsNone result ↔ (self.old.items ≡ []) }
        ensures room { IsSome result → length self.new.items < self.new.capacity }
        ensures known { S.IsLen self.old.capacity }
    {
        let capacity = self.table.len();
        let len = self.len;
        if len == 0 {
            return None;
        }
        let last = len - 1;
        let place = place_after(self.start, last, capacity);
        let item = self.table.take(place);
        self.len = last;
        Some(item)
    }

    /// Removes all elements and drops them, the front element first. O(`len`).
    pub fn clear(&mut self)
    where
        T: Drop,
        ensures queue { self.new ≡ bounded_new self.old.capacity }
        ensures known { S.IsLen self.old.capacity }
    {
        while let Some(item) = self.pop() {
            drop(item);
        }
    }

    /// Returns a reference to the front element, or `None` if the queue is empty.
    #[must_use]
    #[inline]
    pub fn peek(&self) -> Option<&T>
        ensures value { option_copied result ≡ queue_front self.now }
        ensures empty { IsNone result ↔ (self.now.items ≡ []) }
        ensures known { S.IsLen self.now.capacity }
    {
        if self.len() == 0 {
            return None;
        }
        Some(self.table.get(self.start))
    }

    /// Returns a mutable reference to the front element, or `None` if the queue is empty.
    #[inline]
    pub fn peek_mut(&mut self) -> Option<&mut T>
        ensures* writes_back { sem 𝓛 (LendsIf (the_row T.row S.row S.Table)
            T.row self.entry result (queue_set_front self.old) self.old) }
        ensures value { option_copied_mut result ≡ queue_front self.old }
        ensures empty { IsNone result ↔ (self.old.items ≡ []) }
        ensures known { S.IsLen self.old.capacity }
    {
        if self.len() == 0 {
            None
        } else {
            Some(self.front_mut())
        }
    }

    /// Returns a copy of the element at `index`, where 0 is the front. `index` must be less than the number of elements.
    #[must_use]
    #[inline]
    pub fn get(&self, index: usize) -> T
    where
        T: Copy,
        requires { index < length self.now.items }
        ensures value { slice_get self.now.items index ≡ Some result }
        ensures known { S.IsLen self.now.capacity }
    {
        *self.item_at(index)
    }

    /// Returns a copy of the element at `index`, as [`MetaQueue::get`] does.
    #[must_use]
    #[inline]
    pub fn get_unchecked(&self, index: usize) -> T
    where
        T: Copy,
        requires { index < length self.now.items }
        ensures value { slice_get self.now.items index ≡ Some result }
        ensures known { S.IsLen self.now.capacity }
    {
        self.get(index)
    }

    /// Returns an iterator over the elements, the front element first. O(1), and O(`len`) for all of its elements together.
    #[must_use]
    #[inline]
    pub fn iter(&self) -> Iter<'_, T, S>
        ensures items { result ≡ self.now.items }
        ensures known { S.IsLen self.now.capacity }
    {
        Iter::new(self)
    }

    /// Returns a reference to the element at `index`, where 0 is the front.
    #[inline]
    pub(crate) fn item_at(&self, index: usize) -> &T
        requires { index < length self.now.items }
        ensures value { slice_get self.now.items index ≡ Some result.now }
        ensures known { S.IsLen self.now.capacity }
    {
        self.table
            .get(place_after(self.start, index, self.table.len()))
    }

    /// Returns a mutable reference to the element at `index`, where 0 is the front.
    #[inline]
    pub(crate) fn item_at_mut(&mut self, index: usize) -> &mut T
        requires { index < length self.old.items }
        ensures* writes_back { sem 𝓛 (Lends (the_row T.row S.row S.Table)
            T.row self.entry result (queue_set self.old index)) }
        ensures value { slice_get self.old.items index ≡ Some result.now }
    {
        let place = place_after(self.start, index, self.table.len());
        self.table.get_mut(place)
    }

    /// Returns a mutable reference to the front element of a queue that has one.
    #[inline]
    fn front_mut(&mut self) -> &mut T
        requires { 0 < length self.old.items }
        ensures* writes_back { sem 𝓛 (Lends (the_row T.row S.row S.Table)
            T.row self.entry result (queue_set_front self.old)) }
        ensures value { queue_front self.old ≡ Some result.now }
    {
        self.table.get_mut(self.start)
    }

    /// Appends `value` at the back of a queue of this capacity that is not full.
    #[inline]
    pub(crate) fn append(&mut self, value: T, capacity: usize)
        requires capacity { capacity ≡ self.old.capacity }
        requires room { length self.old.items < self.old.capacity }
        ensures { self.new ≡ with_items self.old (push self.old.items value) }
    {
        let start = self.start;
        let len = self.len;
        let place = place_after(start, len, capacity);
        self.table.put(place, value);
        // Written again: LLVM assumes that a place of an inline table may be any field, and would load `start` again.
        self.start = start;
        self.len = len + 1;
    }

    /// Consumes an empty queue.
    #[inline]
    fn end(self)
        requires { self.items ≡ [] }
    {
        let MetaQueue {
            table,
            start: _,
            len: _,
            of: _,
        } = self;
        table.end();
    }

    /// Consumes a queue and drops its elements, the front element first.
    fn drop_items(mut self)
    where
        T: Drop,
    {
        self.clear();
        self.end();
    }
}

/// Drops the elements, the front element first.
impl<T: Drop, S: Table<T>> Drop for MetaQueue<T, S> {
    fn drop(self) {
        // `drop_items` moves the queue with all of its places, so an empty queue ends without it.
        if self.is_empty() {
            self.end();
        } else {
            self.drop_items();
        }
    }
}

/// Queues are equal if their elements are, in order. Their capacities and the places of the elements do not matter.
impl<T: PartialEq, S: Table<T>> PartialEq for MetaQueue<T, S> {
    ghost eq = { λ queue other. pointwise T.eq queue.items other.items };

    ghost laws = { on_per (λ queue. queue.items) (lists_per T.laws) };

    /// Returns `true` if the queues are equal. O(`len`).
    fn eq(&self, other: &Self) -> bool {
        if self.len() != other.len() {
            return false;
        }
        for i in 0..self.len() {
            if self.item_at(i) != other.item_at(i) {
                return false;
            }
        }
        true
    }
}

impl<T: Eq, S: Table<T>> Eq for MetaQueue<T, S> {
    ghost laws = { on_equiv (λ queue. queue.items) (lists_equiv T.Eq.laws) };
}

/// Prints a list of the elements, the front element first. O(`len`).
impl<T: Debug, S: Table<T>> Debug for MetaQueue<T, S> {
    fn fmt<W: Write>(&self, f: &mut Formatter<W>) -> fmt::Result {
        self.iter().fmt(f)
    }
}

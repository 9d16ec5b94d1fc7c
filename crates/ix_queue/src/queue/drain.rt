//! The iterator that drains a queue.
ghost use Rattle.std.specs.Prelude.{◌≡◌, length, Some, IfSome};
ghost use Rattle.std.specs.Iterator.{UpTo, at_most, item_count};
ghost use Rattle.std.specs.Iterator.SizeHint.{IsWithinCount};
ghost use Rattle.ix_tables.specs.Bounded.{bounded_new};

use crate::queue::MetaQueue;
use ix_tables::Table;
use std::fmt::{self, Debug, Formatter, Write};
use std::iter::FusedIterator;

/// An iterator that removes the elements of a queue, the front element first, as [`MetaQueue::drain`] returns it.
///
/// Dropping it drops the elements that are still to come, the next one first. The queue is empty then.
pub struct Drain<'a, T, S: Table<T>> {
    queue: &'a mut MetaQueue<T, S>,
}

impl<T, S: Table<T>> MetaQueue<T, S> {
    ghost use Rattle.ix_queue.specs.QueueDrain.{drain_items, drain_capacity, drain_lender, DrainKeepsAlong};

    /// Returns an iterator that removes all elements, the front element first. Dropping it drops the elements that are still to
    /// come, and the queue is empty then. O(1), and O(`len`) for all of its elements together.
    #[inline]
    pub fn drain(&mut self) -> Drain<'_, T, S>
    where
        T: Drop,
        ensures items { drain_items result ≡ self.old.items }
        ensures capacity { drain_capacity result ≡ self.old.capacity }
        ensures known { S.IsLen self.old.capacity }
        // With these two clauses a caller knows that the queue is empty once the iterator is dropped.
        ensures same_reference { drain_lender result ≡ self.entry.ghost_name }
        ensures stays { DrainKeepsAlong result }
    {
        // The contract of `capacity` tells the checker the facts about the capacity.
        let _capacity = self.capacity();
        Drain { queue: self }
    }
}

/// Drops the elements that are still to come, the next one first. The queue is empty then. O(the number of elements).
impl<T: Drop, S: Table<T>> Drop for Drain<'_, T, S> {
    ghost use Rattle.ix_queue.specs.QueueDrain.{drain_capacity};

    fn drop(self)
        ensures { self.exit.0.now ≡ bounded_new (drain_capacity self.entry) }
    {
        let Drain { queue } = self;
        queue.clear();
    }
}

impl<T: Drop, S: Table<T>> Iterator for Drain<'_, T, S> {
    type Item = T;

    ghost use Rattle.ix_queue.specs.QueueDrain.{drain_items, DrainSteps};

    ghost next_gives = { DrainSteps };

    ghost remaining = { item_count drain_items };

    /// Removes the front element and returns it, or `None` if there is none. O(1).
    #[inline]
    fn next(&mut self) -> Option<T> {
        self.queue.pop()
    }

    /// Returns the number of elements that are still to come, as both bounds. O(1).
    #[inline]
    fn size_hint(&self) -> (usize, Option<usize>)
        ensures value { result ≡ (length (drain_items self.now), Some (length (drain_items self.now))) }
        ensures lower { IsWithinCount result.0 (at_most (length (drain_items self.now))) }
        ensures upper { IfSome result.1 (UpTo (at_most (length (drain_items self.now)))) }
    {
        let len = self.queue.len();
        (len, Some(len))
    }
}

impl<T: Drop, S: Table<T>> DoubleEndedIterator for Drain<'_, T, S> {
    ghost use Rattle.ix_queue.specs.QueueDrain.{DrainStepsBack};

    ghost next_back_gives = { DrainStepsBack };

    /// Removes the back element and returns it, or `None` if there is none. O(1).
    #[inline]
    fn next_back(&mut self) -> Option<T> {
        self.queue.pop_back()
    }
}

impl<T: Drop, S: Table<T>> ExactSizeIterator for Drain<'_, T, S> {
    /// Returns the number of elements that are still to come. O(1).
    #[inline]
    fn len(&self) -> usize {
        self.queue.len()
    }
}

impl<T: Drop, S: Table<T>> FusedIterator for Drain<'_, T, S> {}

/// Prints a list of the elements that are still to come. O(the number of elements).
impl<T: Debug, S: Table<T>> Debug for Drain<'_, T, S> {
    fn fmt<W: Write>(&self, f: &mut Formatter<W>) -> fmt::Result {
        self.queue.fmt(f)
    }
}

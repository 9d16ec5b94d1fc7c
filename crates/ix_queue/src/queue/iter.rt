//! The iterators of queues.
ghost use Rattle.std.specs.Prelude.{◌≡◌, length, Some, IfSome, ⊤};
ghost use Rattle.std.specs.Iterator.{YieldsFirst, YieldsLast, YieldsFirstRef, YieldsLastRef, UpTo, at_most, item_count};
ghost use Rattle.std.specs.Iterator.SizeHint.{IsWithinCount};

use crate::queue::MetaQueue;
use ix_tables::Table;
use std::alloc::AllocError;
use std::fmt::{self, Debug, Formatter, Write};
use std::iter::FusedIterator;
use std::marker::Model;

/// An iterator over the elements of a queue, the front element first, as [`MetaQueue::iter`] returns it. Contracts see the elements
/// that are still to come.
#[derive(Drop)]
pub struct Iter<'a, T, S: Table<T>> {
    queue: &'a MetaQueue<T, S>,
    /// The index of the first element that is still to come.
    index: usize,
    /// The index after the last one.
    end: usize,
}

impl<'a, T, S: Table<T>> Model for Iter<'a, T, S> {
    ghost use Rattle.std.specs.Prelude.{List, slice_range};
    ghost use Rattle.ix_queue.specs.inner.Ring.{IsIndexRange};

    ghost Value = { List T };

    ghost view = { λ iter. slice_range iter.queue.now.items iter.index iter.end };

    ghost invariant = { λ iter. IsIndexRange iter.queue.now.items iter.index iter.end };
}

impl<'a, T, S: Table<T>> Iter<'a, T, S> {
    /// Returns an iterator over all elements. O(1).
    #[inline]
    pub(crate) fn new(queue: &'a MetaQueue<T, S>) -> Self
        ensures items { result ≡ queue.now.items }
        ensures known { S.IsLen queue.now.capacity }
    {
        Iter {
            queue,
            index: 0,
            end: queue.len(),
        }
    }
}

impl<'a, T, S: Table<T>> Iterator for Iter<'a, T, S> {
    type Item = &'a T;

    ghost next_gives = { YieldsFirstRef (λ rest. rest) };

    ghost remaining = { item_count (λ rest. rest) };

    /// Returns the next element, or `None` after the back one. O(1).
    #[inline]
    fn next(&mut self) -> Option<&'a T> {
        let index = self.index;
        if index == self.end {
            return None;
        }
        self.index = index + 1;
        Some(self.queue.item_at(index))
    }

    /// Returns the number of elements that are still to come, as both bounds. O(1).
    #[inline]
    fn size_hint(&self) -> (usize, Option<usize>)
        ensures value { result ≡ (length self.now, Some (length self.now)) }
        ensures lower { IsWithinCount result.0 (at_most (length self.now)) }
        ensures upper { IfSome result.1 (UpTo (at_most (length self.now))) }
    {
        let len = self.len();
        (len, Some(len))
    }
}

impl<'a, T, S: Table<T>> DoubleEndedIterator for Iter<'a, T, S> {
    ghost next_back_gives = { YieldsLastRef (λ rest. rest) };

    /// Returns the last element that is still to come, or `None` if there is none. O(1).
    #[inline]
    fn next_back(&mut self) -> Option<&'a T> {
        if self.index == self.end {
            return None;
        }
        let last = self.end - 1;
        self.end = last;
        Some(self.queue.item_at(last))
    }
}

impl<'a, T, S: Table<T>> ExactSizeIterator for Iter<'a, T, S> {
    /// Returns the number of elements that are still to come. O(1).
    #[inline]
    fn len(&self) -> usize {
        self.end - self.index
    }
}

impl<'a, T, S: Table<T>> FusedIterator for Iter<'a, T, S> {}

impl<'a, T, S: Table<T>> Clone for Iter<'a, T, S> {
    ghost is_clone = { λ iter clone. clone ≡ iter };

    ghost is_infallible = { λ _. ⊤ };

    /// Returns an iterator over the elements that are still to come. O(1). Never fails.
    #[inline]
    fn clone(&self) -> Result<Self, AllocError> {
        Ok(Iter {
            queue: self.queue,
            index: self.index,
            end: self.end,
        })
    }
}

/// Prints a list of the elements that are still to come. O(the number of elements).
impl<'a, T: Debug, S: Table<T>> Debug for Iter<'a, T, S> {
    fn fmt<W: Write>(&self, f: &mut Formatter<W>) -> fmt::Result {
        let mut list = f.debug_list();
        for i in self.index..self.end {
            list.entry(self.queue.item_at(i));
        }
        list.finish()
    }
}

/// An iterator that removes the elements of a queue, the front element first, as `into_iter` returns it. Contracts see the elements
/// that are still to come.
///
/// It owns the queue's memory. Dropping it drops the elements that are still to come, the next one first, in O(capacity) time.
#[derive(Drop)]
pub struct IntoIter<T, S: Table<T>> {
    queue: MetaQueue<T, S>,
}

impl<T, S: Table<T>> Model for IntoIter<T, S> {
    ghost use Rattle.std.specs.Prelude.{List};

    ghost Value = { List T };

    ghost view = { λ iter. iter.queue.items };
}

impl<T: Drop, S: Table<T>> Iterator for IntoIter<T, S> {
    type Item = T;

    ghost next_gives = { YieldsFirst (λ rest. rest) };

    ghost remaining = { item_count (λ rest. rest) };

    /// Removes the next element and returns it, or `None` after the back one. O(1).
    #[inline]
    fn next(&mut self) -> Option<T> {
        self.queue.pop()
    }

    /// Returns the number of elements that are still to come, as both bounds. O(1).
    #[inline]
    fn size_hint(&self) -> (usize, Option<usize>)
        ensures value { result ≡ (length self.now, Some (length self.now)) }
        ensures lower { IsWithinCount result.0 (at_most (length self.now)) }
        ensures upper { IfSome result.1 (UpTo (at_most (length self.now))) }
    {
        let len = self.queue.len();
        (len, Some(len))
    }
}

impl<T: Drop, S: Table<T>> DoubleEndedIterator for IntoIter<T, S> {
    ghost next_back_gives = { YieldsLast (λ rest. rest) };

    /// Removes the last element that is still to come and returns it, or `None` if there is none. O(1).
    #[inline]
    fn next_back(&mut self) -> Option<T> {
        self.queue.pop_back()
    }
}

impl<T: Drop, S: Table<T>> ExactSizeIterator for IntoIter<T, S> {
    /// Returns the number of elements that are still to come. O(1).
    #[inline]
    fn len(&self) -> usize {
        self.queue.len()
    }
}

impl<T: Drop, S: Table<T>> FusedIterator for IntoIter<T, S> {}

/// Prints a list of the elements that are still to come. O(the number of elements).
impl<T: Debug, S: Table<T>> Debug for IntoIter<T, S> {
    fn fmt<W: Write>(&self, f: &mut Formatter<W>) -> fmt::Result {
        self.queue.fmt(f)
    }
}

impl<'a, T, S: Table<T>> IntoIterator for &'a MetaQueue<T, S> {
    type Item = &'a T;

    type IntoIter = Iter<'a, T, S>;

    ghost into_iter_gives = { λ queue iter. iter ≡ queue.now.items };

    /// Returns an iterator over the elements, the front element first. O(1).
    #[inline]
    fn into_iter(self) -> Iter<'a, T, S> {
        self.iter()
    }
}

impl<T: Drop, S: Table<T>> IntoIterator for MetaQueue<T, S> {
    type Item = T;

    type IntoIter = IntoIter<T, S>;

    ghost into_iter_gives = { λ queue iter. iter ≡ queue.items };

    /// Returns an iterator that removes the elements, the front element first. O(1).
    #[inline]
    fn into_iter(self) -> IntoIter<T, S> {
        IntoIter { queue: self }
    }
}

//! The iterator over the values of slot maps.
ghost use Rattle.std.specs.Prelude.{◌≡◌, length, map, Some, IfSome, ⊤};
ghost use Rattle.std.specs.Iterator.{YieldsFirstBy, YieldsLastBy, UpTo, at_most, item_count};
ghost use Rattle.std.specs.Iterator.SizeHint.{IsWithinCount};

use crate::slotmap::{Iter, SlotMapStorage};
use ix_tables::MaybeMoved;
use std::alloc::AllocError;
use std::fmt::{self, Debug, Formatter, Write};
use std::iter::FusedIterator;
use std::marker::Model;

/// An iterator over the values of a slot map in rising order of the indexes of their keys, as
/// [`MetaSlotMap::values`](crate::MetaSlotMap::values) returns it. Contracts see the values that are still to come.
#[derive(Drop)]
pub struct Values<'a, T, M: SlotMapStorage<MaybeMoved<T>>> {
    items: Iter<'a, T, M>,
}

impl<'a, T, M: SlotMapStorage<MaybeMoved<T>>> Model for Values<'a, T, M> {
    ghost use Rattle.std.specs.Prelude.{List, map};

    ghost Value = { List T };

    ghost view = { λ values. map (λ item. item.1) values.items };
}

impl<'a, T, M: SlotMapStorage<MaybeMoved<T>>> Values<'a, T, M> {
    /// Returns an iterator over the values of entries. O(1).
    #[inline]
    pub(crate) fn new(items: Iter<'a, T, M>) -> Self
        ensures { result ≡ map (λ item. item.1) items.entry }
    {
        Values { items }
    }
}

impl<'a, T, M: SlotMapStorage<MaybeMoved<T>>> Iterator for Values<'a, T, M> {
    type Item = &'a T;

    ghost next_gives = { YieldsFirstBy (λ value. value.now) (λ rest. rest) };

    ghost remaining = { item_count (λ rest. rest) };

    /// Returns the next value, or `None` after the last one. O(the number of slots without a value before it).
    #[inline]
    fn next(&mut self) -> Option<&'a T> {
        match self.items.next() {
            Some((_, value)) => Some(value),
            None => None,
        }
    }

    /// Returns the number of values that are still to come, as both bounds. O(1).
    #[inline]
    fn size_hint(&self) -> (usize, Option<usize>)
        ensures value { result ≡ (length self.now, Some (length self.now)) }
        ensures lower { IsWithinCount result.0 (at_most (length self.now)) }
        ensures upper { IfSome result.1 (UpTo (at_most (length self.now))) }
    {
        self.items.size_hint()
    }
}

impl<'a, T, M: SlotMapStorage<MaybeMoved<T>>> DoubleEndedIterator for Values<'a, T, M> {
    ghost next_back_gives = { YieldsLastBy (λ value. value.now) (λ rest. rest) };

    /// Returns the last value that is still to come, or `None` if there is none. O(the number of slots without a value after
    /// it).
    #[inline]
    fn next_back(&mut self) -> Option<&'a T> {
        match self.items.next_back() {
            Some((_, value)) => Some(value),
            None => None,
        }
    }
}

impl<'a, T, M: SlotMapStorage<MaybeMoved<T>>> ExactSizeIterator for Values<'a, T, M> {
    /// Returns the number of values that are still to come. O(1).
    #[inline]
    fn len(&self) -> usize {
        self.items.len()
    }
}

impl<'a, T, M: SlotMapStorage<MaybeMoved<T>>> FusedIterator for Values<'a, T, M> {}

impl<'a, T, M: SlotMapStorage<MaybeMoved<T>>> Clone for Values<'a, T, M> {
    ghost is_clone = { λ iter clone. clone ≡ iter };

    ghost is_infallible = { λ _. ⊤ };

    /// Returns an iterator over the values that are still to come. O(1). Never fails.
    #[inline]
    fn clone(&self) -> Result<Self, AllocError> {
        Ok(Values {
            items: self.items.rest(),
        })
    }
}

/// Prints a list of the values that are still to come. O(capacity).
impl<'a, T: Debug, M: SlotMapStorage<MaybeMoved<T>>> Debug for Values<'a, T, M> {
    fn fmt<W: Write>(&self, f: &mut Formatter<W>) -> fmt::Result {
        let mut list = f.debug_list();
        for (_, value) in self.items.rest() {
            list.entry(value);
        }
        list.finish()
    }
}

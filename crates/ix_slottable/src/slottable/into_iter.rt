//! The iterator that removes the values of a slot table.
ghost use Rattle.std.specs.Prelude.{◌≡◌, length, Some, IfSome};
ghost use Rattle.std.specs.Iterator.{YieldsFirst, YieldsLast, UpTo, at_most, item_count};
ghost use Rattle.std.specs.Iterator.SizeHint.{IsWithinCount};
ghost use Rattle.ix_slottable.specs.SlotTableState.{entries};

use crate::slottable::{MetaSlotTable, SlotTableKey, Storage};
use std::fmt::{self, Debug, Formatter, Write};
use std::iter::FusedIterator;
use std::marker::Model;

/// An iterator that removes the values of a slot table, each with its key, in rising order of the keys, as `into_iter` returns it.
/// Contracts see the items that are still to come.
///
/// It owns the table's memory. Dropping it drops the values that are still to come, the value of the least key first, in
/// O(capacity) time.
#[derive(Drop)]
pub struct IntoIter<T, M: Storage<T>> {
    map: MetaSlotTable<T, M>,
    /// The least key that is still to be visited.
    key: usize,
    /// The key after the greatest one that is still to be visited.
    end: usize,
}

impl<T, M: Storage<T>> Model for IntoIter<T, M> {
    ghost use Rattle.std.specs.Prelude.{ℕ, List, length, slice_range};
    ghost use Rattle.ix_slottable.specs.SlotTableState.{held_count, entries_from};
    ghost use Rattle.ix_slottable.specs.inner.KeyRange.{IsKeyRange};

    ghost Value = { List (ℕ × T) };

    ghost view = { λ iter. entries_from iter.key (slice_range iter.map.values iter.key iter.end) };

    ghost invariant = { λ iter. IsKeyRange (length iter.map.values) iter.key iter.end (held_count iter.map)
        (entries_from iter.key (slice_range iter.map.values iter.key iter.end)) };
}

impl<T: Drop, M: Storage<T>> Iterator for IntoIter<T, M> {
    type Item = (SlotTableKey, T);

    ghost next_gives = { YieldsFirst (λ rest. rest) };

    ghost remaining = { item_count (λ rest. rest) };

    /// Removes the value of the next held key and returns both, or `None` after the last one. O(the number of free keys before
    /// it).
    #[inline]
    fn next(&mut self) -> Option<(SlotTableKey, T)> {
        if self.map.is_empty() {
            return None;
        }
        let number = self.map.held_from(self.key);
        self.key = number + 1;
        let key = SlotTableKey::new(number);
        Some((key, self.map.remove_unchecked(key)))
    }

    /// Returns the number of items that are still to come, as both bounds. O(1).
    #[inline]
    fn size_hint(&self) -> (usize, Option<usize>)
        ensures value { result ≡ (length self.now, Some (length self.now)) }
        ensures lower { IsWithinCount result.0 (at_most (length self.now)) }
        ensures upper { IfSome result.1 (UpTo (at_most (length self.now))) }
    {
        let len = self.map.len();
        (len, Some(len))
    }
}

impl<T: Drop, M: Storage<T>> DoubleEndedIterator for IntoIter<T, M> {
    ghost next_back_gives = { YieldsLast (λ rest. rest) };

    /// Removes the value of the last held key that is still to come and returns both, or `None` if there is none. O(the number
    /// of free keys after it).
    #[inline]
    fn next_back(&mut self) -> Option<(SlotTableKey, T)> {
        if self.map.is_empty() {
            return None;
        }
        let number = self.map.held_before(self.end);
        self.end = number;
        let key = SlotTableKey::new(number);
        Some((key, self.map.remove_unchecked(key)))
    }
}

impl<T: Drop, M: Storage<T>> ExactSizeIterator for IntoIter<T, M> {
    /// Returns the number of items that are still to come. O(1).
    #[inline]
    fn len(&self) -> usize {
        self.map.len()
    }
}

impl<T: Drop, M: Storage<T>> FusedIterator for IntoIter<T, M> {}

/// Prints a list of the items that are still to come, each as the number of its key and its value. O(capacity).
impl<T: Debug, M: Storage<T>> Debug for IntoIter<T, M> {
    fn fmt<W: Write>(&self, f: &mut Formatter<W>) -> fmt::Result {
        self.map.iter().fmt(f)
    }
}

impl<T: Drop, M: Storage<T>> IntoIterator for MetaSlotTable<T, M> {
    type Item = (SlotTableKey, T);

    type IntoIter = IntoIter<T, M>;

    ghost into_iter_gives = { λ map iter. iter ≡ entries map };

    /// Returns an iterator that removes the values, each with its key, in rising order of the keys. O(1).
    #[inline]
    fn into_iter(self) -> IntoIter<T, M> {
        let end = self.capacity();
        IntoIter {
            map: self,
            key: 0,
            end,
        }
    }
}

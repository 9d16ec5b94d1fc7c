//! The iterator that drains a slot table.
ghost use Rattle.std.specs.Prelude.{◌≡◌, length, drop, Some, IfSome};
ghost use Rattle.std.specs.Iterator.{UpTo, at_most, item_count};
ghost use Rattle.std.specs.Iterator.SizeHint.{IsWithinCount};
ghost use Rattle.ix_slottable.specs.SlotTableState.{held_count, entries, entries_from};
ghost use Rattle.ix_slottable.specs.SlotTableSteps.{slot_table_clear};

use crate::slottable::{MetaSlotTable, SlotTableKey, Storage};
use std::fmt::{self, Debug, Formatter, Write};
use std::iter::FusedIterator;

/// An iterator that removes the values of a slot table, each with its key, in rising order of the keys. [`MetaSlotTable::drain`]
/// returns it.
///
/// Dropping it drops the values that are still to come, the value of the least key first. The table is empty then.
pub struct Drain<'a, T, M: Storage<T>> {
    map: &'a mut MetaSlotTable<T, M>,
    /// No key below this one has a value.
    key: usize,
    ghost counted: { held_count map.now ≡ length (entries_from key (drop key map.now.values)) },
}

impl<T, M: Storage<T>> MetaSlotTable<T, M> {
    ghost use Rattle.ix_slottable.specs.Draining.{DrainingKeepsAlong};
    ghost use Rattle.ix_slottable.specs.SlotTableDrain.{drain_items, drain_left, drain_lender};

    /// Returns an iterator that removes all values, each with its key, in rising order of the keys. Dropping the iterator drops the
    /// values that are still to come. The table is then as [`MetaSlotTable::clear`] leaves it. O(1), and O(capacity) for all of its
    /// items together.
    #[inline]
    pub fn drain(&mut self) -> Drain<'_, T, M>
    where
        T: Drop,
        ensures items { drain_items result ≡ entries self.old }
        ensures left { drain_left result ≡ slot_table_clear self.old }
        // The table that is left has no value, and every key is free.
        ensures count { held_count (slot_table_clear self.old) ≡ 0 }
        ensures room { length (slot_table_clear self.old).free ≡ length self.old.values }
        // With these two clauses a caller knows the state of the table once the iterator is dropped.
        ensures same_reference { drain_lender result ≡ self.entry.ghost_name }
        ensures stays { DrainingKeepsAlong drain_items drain_lender drain_left result }
        ensures known { M.Items.Table.IsLen (length self.old.values) }
    {
        // Names the number of values, so that the check knows how many keys are free.
        let _len = self.len();
        Drain { map: self, key: 0 }
    }
}

/// Drops the values that are still to come, the value of the least key first. The table is empty then. O(capacity).
impl<T: Drop, M: Storage<T>> Drop for Drain<'_, T, M> {
    ghost use Rattle.ix_slottable.specs.SlotTableDrain.{drain_left};

    fn drop(self)
        ensures { self.exit.0.now ≡ drain_left self.entry }
    {
        let Drain { map, key: _ } = self;
        map.clear();
    }
}

impl<T: Drop, M: Storage<T>> Iterator for Drain<'_, T, M> {
    type Item = (SlotTableKey, T);

    ghost use Rattle.ix_slottable.specs.Draining.{DrainingSteps};
    ghost use Rattle.ix_slottable.specs.SlotTableDrain.{drain_items, drain_left, drain_lender};

    ghost next_gives = { DrainingSteps drain_items drain_lender drain_left };

    ghost remaining = { item_count drain_items };

    /// Removes the value of the next held key and returns both, or `None` after the last one. O(the number of free keys before
    /// it).
    #[inline]
    fn next(&mut self) -> Option<(SlotTableKey, T)> {
        if self.map.is_empty() {
            return None;
        }
        let number = self.map.held_from(self.key);
        self.key = number + 1;
        let key = SlotTableKey::new(number);
        Some((key, self.map.remove_unchecked(key)))
    }

    /// Returns the number of items that are still to come, as both bounds. O(1).
    #[inline]
    fn size_hint(&self) -> (usize, Option<usize>)
        ensures value { result ≡ (length (drain_items self.now), Some (length (drain_items self.now))) }
        ensures lower { IsWithinCount result.0 (at_most (length (drain_items self.now))) }
        ensures upper { IfSome result.1 (UpTo (at_most (length (drain_items self.now)))) }
    {
        let len = self.map.len();
        (len, Some(len))
    }
}

impl<T: Drop, M: Storage<T>> ExactSizeIterator for Drain<'_, T, M> {
    /// Returns the number of items that are still to come. O(1).
    #[inline]
    fn len(&self) -> usize {
        self.map.len()
    }
}

impl<T: Drop, M: Storage<T>> FusedIterator for Drain<'_, T, M> {}

/// Prints a list of the items that are still to come, each as the number of its key and its value. O(capacity).
impl<T: Debug, M: Storage<T>> Debug for Drain<'_, T, M> {
    fn fmt<W: Write>(&self, f: &mut Formatter<W>) -> fmt::Result {
        self.map.iter().fmt(f)
    }
}

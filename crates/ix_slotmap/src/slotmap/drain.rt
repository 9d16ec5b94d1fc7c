//! The iterator that drains a slot map.
ghost use Rattle.std.specs.Prelude.{◌≡◌, ◌≤◌, length, drop, Some, IsSome, IfSome};
ghost use Rattle.std.specs.Iterator.{UpTo, at_most, item_count};
ghost use Rattle.std.specs.Iterator.SizeHint.{IsWithinCount};
ghost use Rattle.ix_slottable.specs.SlotTableState.{entries_from};
ghost use Rattle.ix_slotmap.specs.Generations.{SlotKey, slot_map_value, slot_map_len, IsDead, held_entries, slot_map_entries};
ghost use Rattle.ix_slotmap.specs.SlotMapSteps.{slot_map_clear};

use crate::slotmap::{MetaSlotMap, SlotMapKey, SlotMapStorage};
use ix_tables::{MaybeMoved, Touches};
use std::fmt::{self, Debug, Formatter, Write};
use std::iter::FusedIterator;

/// An iterator that removes the held keys of a slot map, each with its value, in rising order of the indexes.
/// [`MetaSlotMap::drain`] returns it.
///
/// Dropping it drops the values that are still to come, the value of the least index first. No key is held then.
pub struct Drain<'a, T, M: SlotMapStorage<MaybeMoved<T>>> {
    map: &'a mut MetaSlotMap<T, MaybeMoved<T>, M>,
    /// No slot before this one has a value.
    index: usize,
    ghost counted: { slot_map_len map.now ≡ length (held_entries map.now (entries_from index (drop index map.now.slots.values))) },
}

impl<T, M: SlotMapStorage<MaybeMoved<T>>> MetaSlotMap<T, MaybeMoved<T>, M> {
    ghost use Rattle.ix_slottable.specs.Draining.{DrainingKeepsAlong};
    ghost use Rattle.ix_slotmap.specs.SlotMapDrain.{drain_items, drain_left, drain_lender};

    /// Returns an iterator that removes all held keys, each with its value, in rising order of the indexes. Dropping the iterator
    /// drops the values that are still to come. The map is then as [`MetaSlotMap::clear`] leaves it. O(1), and O(capacity) for all
    /// of its items together.
    #[inline]
    pub fn drain(&mut self) -> Drain<'_, T, M>
    where
        T: Drop,
        ensures items { drain_items result ≡ slot_map_entries self.old }
        ensures left { drain_left result ≡ slot_map_clear self.old }
        // The map that is left holds no key: each key that was held is dead, and no fewer slots are free.
        ensures count { slot_map_len (slot_map_clear self.old) ≡ 0 }
        ensures killed { (key : SlotKey) → IsSome (slot_map_value self.old key)
            → IsDead (slot_map_clear self.old) key }
        ensures dead { (key : SlotKey) → IsDead self.old key → IsDead (slot_map_clear self.old) key }
        ensures grows { length self.old.slots.free ≤ length (slot_map_clear self.old).slots.free }
        // With these two clauses a caller knows the state of the map once the iterator is dropped.
        ensures same_reference { drain_lender result ≡ self.entry.ghost_name }
        ensures stays { DrainingKeepsAlong drain_items drain_lender drain_left result }
        ensures known { M.Slots.Items.Table.IsLen (length self.old.slots.values) }
    {
        // Names the number of values, so that the check knows that all are still to come.
        let _len = self.len();
        Drain {
            map: self,
            index: 0,
        }
    }
}

/// Drops the values that are still to come, the value of the least index first. No key is held then. O(capacity).
impl<T: Drop, M: SlotMapStorage<MaybeMoved<T>>> Drop for Drain<'_, T, M> {
    ghost use Rattle.ix_slotmap.specs.SlotMapDrain.{drain_left};

    fn drop(self)
        ensures { self.exit.0.now ≡ drain_left self.entry }
    {
        let Drain { map, index: _ } = self;
        map.clear();
    }
}

impl<T: Drop, M: SlotMapStorage<MaybeMoved<T>>> Iterator for Drain<'_, T, M> {
    type Item = (SlotMapKey, T);

    ghost use Rattle.ix_slottable.specs.Draining.{DrainingSteps};
    ghost use Rattle.ix_slotmap.specs.SlotMapDrain.{drain_items, drain_left, drain_lender};

    ghost next_gives = { DrainingSteps drain_items drain_lender drain_left };

    ghost remaining = { item_count drain_items };

    /// Removes the next held key and returns it with its value, or `None` after the last one. O(the number of slots without a
    /// value before it).
    #[inline]
    fn next(&mut self) -> Option<(SlotMapKey, T)> {
        if self.map.is_empty() {
            return None;
        }
        let index = self.map.held_from(self.index);
        let key = self.map.key_of(index, &mut Touches::new());
        let value = self.map.remove_held(index, &mut Touches::new());
        self.index = index + 1;
        Some((key, value))
    }

    /// Returns the number of items that are still to come, as both bounds. O(1).
    #[inline]
    fn size_hint(&self) -> (usize, Option<usize>)
        ensures value { result ≡ (length (drain_items self.now), Some (length (drain_items self.now))) }
        ensures lower { IsWithinCount result.0 (at_most (length (drain_items self.now))) }
        ensures upper { IfSome result.1 (UpTo (at_most (length (drain_items self.now)))) }
    {
        let len = self.map.len();
        (len, Some(len))
    }
}

impl<T: Drop, M: SlotMapStorage<MaybeMoved<T>>> ExactSizeIterator for Drain<'_, T, M> {
    /// Returns the number of items that are still to come. O(1).
    #[inline]
    fn len(&self) -> usize {
        self.map.len()
    }
}

impl<T: Drop, M: SlotMapStorage<MaybeMoved<T>>> FusedIterator for Drain<'_, T, M> {}

/// Prints a list of the items that are still to come, each as the index and the generation of its key, and its value. O(capacity).
impl<T: Debug, M: SlotMapStorage<MaybeMoved<T>>> Debug for Drain<'_, T, M> {
    fn fmt<W: Write>(&self, f: &mut Formatter<W>) -> fmt::Result {
        self.map.iter().fmt(f)
    }
}

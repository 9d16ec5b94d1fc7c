//! The iterator that drains a map.
ghost use Rattle.std.specs.Prelude.{◌≡◌, length, drop, Some, IfSome};
ghost use Rattle.std.specs.Iterator.{UpTo, at_most, item_count};
ghost use Rattle.std.specs.Iterator.SizeHint.{IsWithinCount};
ghost use Rattle.ix_slottable.specs.SlotTableState.{held_count, entries_from};
ghost use Rattle.ix_slottable.specs.SlotTableSteps.{slot_table_clear};
ghost use Rattle.ix_flatmap.specs.MapState.{map_items};

use crate::map::{KeyIndex, MetaMap, Pair};
use ix_slottable::slottable::{SlotTableKey, Storage};
use std::fmt::{self, Debug, Formatter, Write};
use std::iter::FusedIterator;

/// An iterator that removes the keys of a map, each with its value, in slot order, as [`MetaMap::drain`] returns it.
///
/// Dropping it drops the keys and values that are still to come, the next ones first. The map is empty then.
pub struct Drain<'a, K: Eq + Drop, V: Drop, M: Storage<Pair<K, V>>, I: KeyIndex<K, V>> {
    map: &'a mut MetaMap<Pair<K, V>, M, I>,
    /// No slot before this one has a pair.
    place: usize,
    ghost counted: { held_count map.now ≡ length (entries_from place (drop place map.now.values)) },
}

impl<K: Eq + Drop, V: Drop, M: Storage<Pair<K, V>>, I: KeyIndex<K, V>> MetaMap<Pair<K, V>, M, I> {
    ghost use Rattle.ix_slottable.specs.Draining.{DrainingKeepsAlong};
    ghost use Rattle.ix_flatmap.specs.MapDrain.{drain_items, drain_left, drain_lender};

    /// Returns an iterator that removes all keys, each with its value, in slot order. Dropping the iterator drops the keys and
    /// values that are still to come. The map is then as [`MetaMap::clear`] leaves it. O(1), and O(capacity) for all of its items
    /// together, on average in a hash map.
    #[inline]
    pub fn drain(&mut self) -> Drain<'_, K, V, M, I>
        ensures items { drain_items result ≡ map_items self.old }
        ensures left { drain_left result ≡ slot_table_clear self.old }
        // The map that is left has no key, and every slot is free.
        ensures count { held_count (slot_table_clear self.old) ≡ 0 }
        ensures room { length (slot_table_clear self.old).free ≡ length self.old.values }
        // With these two clauses a caller knows the state of the map once the iterator is dropped.
        ensures same_reference { drain_lender result ≡ self.entry.ghost_name }
        ensures stays { DrainingKeepsAlong drain_items drain_lender drain_left result }
        ensures known { M.Items.Table.IsLen (length self.old.values) }
    {
        // Names the number of keys, so that the check knows how many slots are free.
        let _len = self.len();
        Drain {
            map: self,
            place: 0,
        }
    }
}

/// Drops the keys and values that are still to come, the next ones first. The map is empty then. O(capacity).
impl<K: Eq + Drop, V: Drop, M: Storage<Pair<K, V>>, I: KeyIndex<K, V>> Drop
    for Drain<'_, K, V, M, I> {
    ghost use Rattle.ix_flatmap.specs.MapDrain.{drain_left};

    fn drop(self)
        ensures { self.exit.0.now ≡ drain_left self.entry }
    {
        let Drain { map, place: _ } = self;
        map.clear();
    }
}

impl<K: Eq + Drop, V: Drop, M: Storage<Pair<K, V>>, I: KeyIndex<K, V>> Iterator
    for Drain<'_, K, V, M, I> {
    type Item = (K, V);

    ghost use Rattle.ix_slottable.specs.Draining.{DrainingSteps};
    ghost use Rattle.ix_flatmap.specs.MapDrain.{drain_items, drain_left, drain_lender};

    ghost next_gives = { DrainingSteps drain_items drain_lender drain_left };

    ghost remaining = { item_count drain_items };

    /// Removes the next key and returns it with its value, or `None` after the last one. O(the number of free slots before
    /// it), on average in a hash map.
    #[inline]
    fn next(&mut self) -> Option<(K, V)> {
        if self.map.is_empty() {
            return None;
        }
        let number = self.map.held_from(self.place);
        self.place = number + 1;
        let pair = self.map.remove_at(SlotTableKey::new(number));
        Some((pair.key, pair.value))
    }

    /// Returns the number of items that are still to come, as both bounds. O(1).
    #[inline]
    fn size_hint(&self) -> (usize, Option<usize>)
        ensures value { result ≡ (length (drain_items self.now), Some (length (drain_items self.now))) }
        ensures lower { IsWithinCount result.0 (at_most (length (drain_items self.now))) }
        ensures upper { IfSome result.1 (UpTo (at_most (length (drain_items self.now)))) }
    {
        let len = self.map.len();
        (len, Some(len))
    }
}

impl<K: Eq + Drop, V: Drop, M: Storage<Pair<K, V>>, I: KeyIndex<K, V>> ExactSizeIterator
    for Drain<'_, K, V, M, I> {
    /// Returns the number of items that are still to come. O(1).
    #[inline]
    fn len(&self) -> usize {
        self.map.len()
    }
}

impl<K: Eq + Drop, V: Drop, M: Storage<Pair<K, V>>, I: KeyIndex<K, V>> FusedIterator
    for Drain<'_, K, V, M, I> {}

/// Prints a list of the items that are still to come, each as a key and its value. O(capacity).
impl<K: Eq + Debug + Drop, V: Debug + Drop, M: Storage<Pair<K, V>>, I: KeyIndex<K, V>> Debug
    for Drain<'_, K, V, M, I> {
    fn fmt<W: Write>(&self, f: &mut Formatter<W>) -> fmt::Result {
        self.map.iter().fmt(f)
    }
}

//! The iterator of slot maps.
ghost use Rattle.std.specs.Prelude.{◌≡◌, length, Some, IfSome, ⊤};
ghost use Rattle.std.specs.Iterator.{YieldsFirstBy, YieldsLastBy, UpTo, at_most, item_count};
ghost use Rattle.std.specs.Iterator.SizeHint.{IsWithinCount};
ghost use Rattle.ix_slotmap.specs.Generations.{slot_map_entries};

use crate::slotmap::{MetaSlotMap, SlotMapKey, SlotMapStorage};
use ix_tables::{MaybeMoved, Touches};
use std::alloc::AllocError;
use std::fmt::{self, Debug, Formatter, Write};
use std::iter::FusedIterator;
use std::marker::Model;

/// An iterator over the held keys of a slot map in rising order of their indexes, each with its value, as
/// [`MetaSlotMap::iter`] returns it. Contracts see the items that are still to come.
///
/// This is `Iter` of iceoryx2-bb-container.
#[derive(Drop)]
pub struct Iter<'a, T, M: SlotMapStorage<MaybeMoved<T>>> {
    map: &'a MetaSlotMap<T, MaybeMoved<T>, M>,
    /// The least index that is still to be visited.
    index: usize,
    /// The index after the greatest one that is still to be visited.
    end: usize,
    /// The number of items that are still to come.
    left: usize,
}

impl<'a, T, M: SlotMapStorage<MaybeMoved<T>>> Model for Iter<'a, T, M> {
    ghost use Rattle.std.specs.Prelude.{List, length, slice_range};
    ghost use Rattle.ix_slottable.specs.SlotTableState.{entries_from};
    ghost use Rattle.ix_slottable.specs.inner.KeyRange.{IsKeyRange};
    ghost use Rattle.ix_slotmap.specs.Generations.{SlotKey, held_entries};

    ghost Value = { List (SlotKey × T) };

    ghost view = { λ iter. held_entries iter.map.now
        (entries_from iter.index (slice_range iter.map.now.slots.values iter.index iter.end)) };

    ghost invariant = { λ iter. IsKeyRange (length iter.map.now.slots.values) iter.index iter.end iter.left
        (held_entries iter.map.now
        (entries_from iter.index (slice_range iter.map.now.slots.values iter.index iter.end))) };
}

impl<'a, T, M: SlotMapStorage<MaybeMoved<T>>> Iter<'a, T, M> {
    /// Returns an iterator over all held keys. O(1).
    #[inline]
    pub(crate) fn new(map: &'a MetaSlotMap<T, MaybeMoved<T>, M>) -> Self
        ensures entries { result ≡ slot_map_entries map.now }
        ensures known { M.Slots.Items.Table.IsLen (length map.now.slots.values) }
    {
        Iter {
            map,
            index: 0,
            end: map.capacity(),
            left: map.len(),
        }
    }

    /// Returns an iterator over the items that are still to come. O(1).
    #[inline]
    pub(crate) fn rest(&self) -> Iter<'a, T, M>
        ensures { result ≡ self.now }
    {
        Iter {
            map: self.map,
            index: self.index,
            end: self.end,
            left: self.left,
        }
    }
}

impl<'a, T, M: SlotMapStorage<MaybeMoved<T>>> Iterator for Iter<'a, T, M> {
    type Item = (SlotMapKey, &'a T);

    ghost next_gives = { YieldsFirstBy (λ item. (item.0, item.1.now)) (λ rest. rest) };

    ghost remaining = { item_count (λ rest. rest) };

    /// Returns the next held key with its value, or `None` after the last one. O(the number of slots without a value before it).
    #[inline]
    fn next(&mut self) -> Option<(SlotMapKey, &'a T)> {
        if self.left == 0 {
            return None;
        }
        let index = self.map.held_from(self.index);
        self.index = index + 1;
        self.left -= 1;
        let key = self.map.key_of(index, &mut Touches::new());
        Some((key, self.map.value_at(index)))
    }

    /// Returns the number of items that are still to come, as both bounds. O(1).
    #[inline]
    fn size_hint(&self) -> (usize, Option<usize>)
        ensures value { result ≡ (length self.now, Some (length self.now)) }
        ensures lower { IsWithinCount result.0 (at_most (length self.now)) }
        ensures upper { IfSome result.1 (UpTo (at_most (length self.now))) }
    {
        (self.left, Some(self.left))
    }
}

impl<'a, T, M: SlotMapStorage<MaybeMoved<T>>> DoubleEndedIterator for Iter<'a, T, M> {
    ghost next_back_gives = { YieldsLastBy (λ item. (item.0, item.1.now)) (λ rest. rest) };

    /// Returns the last held key that is still to come with its value, or `None` if there is none. O(the number of slots without a
    /// value after it).
    #[inline]
    fn next_back(&mut self) -> Option<(SlotMapKey, &'a T)> {
        if self.left == 0 {
            return None;
        }
        let index = self.map.held_before(self.end);
        self.end = index;
        self.left -= 1;
        let key = self.map.key_of(index, &mut Touches::new());
        Some((key, self.map.value_at(index)))
    }
}

impl<'a, T, M: SlotMapStorage<MaybeMoved<T>>> ExactSizeIterator for Iter<'a, T, M> {
    /// Returns the number of items that are still to come. O(1).
    #[inline]
    fn len(&self) -> usize {
        self.left
    }
}

impl<'a, T, M: SlotMapStorage<MaybeMoved<T>>> FusedIterator for Iter<'a, T, M> {}

impl<'a, T, M: SlotMapStorage<MaybeMoved<T>>> Clone for Iter<'a, T, M> {
    ghost is_clone = { λ iter clone. clone ≡ iter };

    ghost is_infallible = { λ _. ⊤ };

    /// Returns an iterator over the items that are still to come. O(1). Never fails.
    #[inline]
    fn clone(&self) -> Result<Self, AllocError> {
        Ok(self.rest())
    }
}

/// Prints a list of the items that are still to come, each as the index and the generation of its key, and its value. O(capacity).
impl<'a, T: Debug, M: SlotMapStorage<MaybeMoved<T>>> Debug for Iter<'a, T, M> {
    fn fmt<W: Write>(&self, f: &mut Formatter<W>) -> fmt::Result {
        let mut list = f.debug_list();
        for (key, value) in self.rest() {
            list.entry(&(key.index(), key.generation(), value));
        }
        list.finish()
    }
}

impl<'a, T, M: SlotMapStorage<MaybeMoved<T>>> IntoIterator
    for &'a MetaSlotMap<T, MaybeMoved<T>, M> {
    type Item = (SlotMapKey, &'a T);

    type IntoIter = Iter<'a, T, M>;

    ghost into_iter_gives = { λ map iter. iter ≡ slot_map_entries map.now };

    /// Returns an iterator over the held keys in rising order of their indexes, each with its value. O(1).
    #[inline]
    fn into_iter(self) -> Iter<'a, T, M> {
        self.iter()
    }
}

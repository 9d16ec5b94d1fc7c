//! The iterator of slot tables.
ghost use Rattle.std.specs.Prelude.{◌≡◌, length, Some, IfSome, ⊤};
ghost use Rattle.std.specs.Iterator.{YieldsFirstBy, YieldsLastBy, UpTo, at_most, item_count};
ghost use Rattle.std.specs.Iterator.SizeHint.{IsWithinCount};
ghost use Rattle.ix_slottable.specs.SlotTableState.{entries};

use crate::slottable::{MetaSlotTable, SlotTableKey, Storage};
use std::alloc::AllocError;
use std::fmt::{self, Debug, Formatter, Write};
use std::iter::FusedIterator;
use std::marker::Model;

/// An iterator over the held keys of a slot table in rising order, each with its value, as [`MetaSlotTable::iter`] returns
/// it. Contracts see the items that are still to come.
///
/// This is `Iter` of iceoryx2-bb-container.
#[derive(Drop)]
pub struct Iter<'a, T, M: Storage<T>> {
    map: &'a MetaSlotTable<T, M>,
    /// The least key that is still to be visited.
    key: usize,
    /// The key after the greatest one that is still to be visited.
    end: usize,
    /// The number of items that are still to come.
    left: usize,
}

impl<'a, T, M: Storage<T>> Model for Iter<'a, T, M> {
    ghost use Rattle.std.specs.Prelude.{ℕ, List, length, slice_range};
    ghost use Rattle.ix_slottable.specs.SlotTableState.{entries_from};
    ghost use Rattle.ix_slottable.specs.inner.KeyRange.{IsKeyRange};

    ghost Value = { List (ℕ × T) };

    ghost view = { λ iter. entries_from iter.key (slice_range iter.map.now.values iter.key iter.end) };

    ghost invariant = { λ iter. IsKeyRange (length iter.map.now.values) iter.key iter.end iter.left
        (entries_from iter.key (slice_range iter.map.now.values iter.key iter.end)) };
}

impl<'a, T, M: Storage<T>> Iter<'a, T, M> {
    /// Returns an iterator over all held keys. O(1).
    #[inline]
    pub(crate) fn new(map: &'a MetaSlotTable<T, M>) -> Self
        ensures entries { result ≡ entries map.now }
        ensures known { M.Items.Table.IsLen (length map.now.values) }
    {
        Iter {
            map,
            key: 0,
            end: map.capacity(),
            left: map.len(),
        }
    }

    /// Returns an iterator over the items that are still to come. O(1).
    #[inline]
    pub(crate) fn rest(&self) -> Iter<'a, T, M>
        ensures { result ≡ self.now }
    {
        Iter {
            map: self.map,
            key: self.key,
            end: self.end,
            left: self.left,
        }
    }
}

impl<'a, T, M: Storage<T>> Iterator for Iter<'a, T, M> {
    type Item = (SlotTableKey, &'a T);

    ghost next_gives = { YieldsFirstBy (λ item. (item.0, item.1.now)) (λ rest. rest) };

    ghost remaining = { item_count (λ rest. rest) };

    /// Returns the next held key with its value, or `None` after the last one. O(the number of free keys before it).
    #[inline]
    fn next(&mut self) -> Option<(SlotTableKey, &'a T)> {
        if self.left == 0 {
            return None;
        }
        let key = self.map.held_from(self.key);
        self.key = key + 1;
        self.left -= 1;
        let key = SlotTableKey::new(key);
        Some((key, self.map.get_unchecked(key)))
    }

    /// Returns the number of items that are still to come, as both bounds. O(1).
    #[inline]
    fn size_hint(&self) -> (usize, Option<usize>)
        ensures value { result ≡ (length self.now, Some (length self.now)) }
        ensures lower { IsWithinCount result.0 (at_most (length self.now)) }
        ensures upper { IfSome result.1 (UpTo (at_most (length self.now))) }
    {
        (self.left, Some(self.left))
    }
}

impl<'a, T, M: Storage<T>> DoubleEndedIterator for Iter<'a, T, M> {
    ghost next_back_gives = { YieldsLastBy (λ item. (item.0, item.1.now)) (λ rest. rest) };

    /// Returns the last held key that is still to come with its value, or `None` if there is none. O(the number of free keys
    /// after it).
    #[inline]
    fn next_back(&mut self) -> Option<(SlotTableKey, &'a T)> {
        if self.left == 0 {
            return None;
        }
        let key = self.map.held_before(self.end);
        self.end = key;
        self.left -= 1;
        let key = SlotTableKey::new(key);
        Some((key, self.map.get_unchecked(key)))
    }
}

impl<'a, T, M: Storage<T>> ExactSizeIterator for Iter<'a, T, M> {
    /// Returns the number of items that are still to come. O(1).
    #[inline]
    fn len(&self) -> usize {
        self.left
    }
}

impl<'a, T, M: Storage<T>> FusedIterator for Iter<'a, T, M> {}

impl<'a, T, M: Storage<T>> Clone for Iter<'a, T, M> {
    ghost is_clone = { λ iter clone. clone ≡ iter };

    ghost is_infallible = { λ _. ⊤ };

    /// Returns an iterator over the items that are still to come. O(1). Never fails.
    #[inline]
    fn clone(&self) -> Result<Self, AllocError> {
        Ok(self.rest())
    }
}

/// Prints a list of the items that are still to come, each as the number of its key and its value. O(capacity).
impl<'a, T: Debug, M: Storage<T>> Debug for Iter<'a, T, M> {
    fn fmt<W: Write>(&self, f: &mut Formatter<W>) -> fmt::Result {
        let mut list = f.debug_list();
        for (key, value) in self.rest() {
            list.entry(&(key.value(), value));
        }
        list.finish()
    }
}

impl<'a, T, M: Storage<T>> IntoIterator for &'a MetaSlotTable<T, M> {
    type Item = (SlotTableKey, &'a T);

    type IntoIter = Iter<'a, T, M>;

    ghost into_iter_gives = { λ map iter. iter ≡ entries map.now };

    /// Returns an iterator over the held keys in rising order, each with its value. O(1).
    #[inline]
    fn into_iter(self) -> Iter<'a, T, M> {
        self.iter()
    }
}

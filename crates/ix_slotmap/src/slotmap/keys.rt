//! The iterator over the keys of slot maps.
ghost use Rattle.std.specs.Prelude.{◌≡◌, length, Some, IfSome, ⊤};
ghost use Rattle.std.specs.Iterator.{YieldsFirstBy, YieldsLastBy, UpTo, at_most, item_count};
ghost use Rattle.std.specs.Iterator.SizeHint.{IsWithinCount};
ghost use Rattle.std.specs.Map.{keys_of};

use crate::slotmap::{Iter, SlotMapKey, SlotMapStorage};
use ix_tables::MaybeMoved;
use std::alloc::AllocError;
use std::fmt::{self, Debug, Formatter, Write};
use std::iter::FusedIterator;
use std::marker::Model;

/// An iterator over the held keys of a slot map in rising order of their indexes, as
/// [`MetaSlotMap::keys`](crate::MetaSlotMap::keys) returns it. Contracts see the keys that are still to come.
#[derive(Drop)]
pub struct Keys<'a, T, M: SlotMapStorage<MaybeMoved<T>>> {
    items: Iter<'a, T, M>,
}

impl<'a, T, M: SlotMapStorage<MaybeMoved<T>>> Model for Keys<'a, T, M> {
    ghost use Rattle.std.specs.Prelude.{List};
    ghost use Rattle.std.specs.Map.{keys_of};
    ghost use Rattle.ix_slotmap.specs.Generations.{SlotKey};

    ghost Value = { List SlotKey };

    ghost view = { λ keys. keys_of keys.items };
}

impl<'a, T, M: SlotMapStorage<MaybeMoved<T>>> Keys<'a, T, M> {
    /// Returns an iterator over the keys of entries. O(1).
    #[inline]
    pub(crate) fn new(items: Iter<'a, T, M>) -> Self
        ensures { result ≡ keys_of items.entry }
    {
        Keys { items }
    }
}

impl<'a, T, M: SlotMapStorage<MaybeMoved<T>>> Iterator for Keys<'a, T, M> {
    type Item = SlotMapKey;

    ghost next_gives = { YieldsFirstBy (λ key. key) (λ rest. rest) };

    ghost remaining = { item_count (λ rest. rest) };

    /// Returns the next held key, or `None` after the last one. O(the number of slots without a value before it).
    #[inline]
    fn next(&mut self) -> Option<SlotMapKey> {
        match self.items.next() {
            Some((key, _)) => Some(key),
            None => None,
        }
    }

    /// Returns the number of keys that are still to come, as both bounds. O(1).
    #[inline]
    fn size_hint(&self) -> (usize, Option<usize>)
        ensures value { result ≡ (length self.now, Some (length self.now)) }
        ensures lower { IsWithinCount result.0 (at_most (length self.now)) }
        ensures upper { IfSome result.1 (UpTo (at_most (length self.now))) }
    {
        self.items.size_hint()
    }
}

impl<'a, T, M: SlotMapStorage<MaybeMoved<T>>> DoubleEndedIterator for Keys<'a, T, M> {
    ghost next_back_gives = { YieldsLastBy (λ key. key) (λ rest. rest) };

    /// Returns the last held key that is still to come, or `None` if there is none. O(the number of slots without a value after
    /// it).
    #[inline]
    fn next_back(&mut self) -> Option<SlotMapKey> {
        match self.items.next_back() {
            Some((key, _)) => Some(key),
            None => None,
        }
    }
}

impl<'a, T, M: SlotMapStorage<MaybeMoved<T>>> ExactSizeIterator for Keys<'a, T, M> {
    /// Returns the number of keys that are still to come. O(1).
    #[inline]
    fn len(&self) -> usize {
        self.items.len()
    }
}

impl<'a, T, M: SlotMapStorage<MaybeMoved<T>>> FusedIterator for Keys<'a, T, M> {}

impl<'a, T, M: SlotMapStorage<MaybeMoved<T>>> Clone for Keys<'a, T, M> {
    ghost is_clone = { λ iter clone. clone ≡ iter };

    ghost is_infallible = { λ _. ⊤ };

    /// Returns an iterator over the keys that are still to come. O(1). Never fails.
    #[inline]
    fn clone(&self) -> Result<Self, AllocError> {
        Ok(Keys {
            items: self.items.rest(),
        })
    }
}

/// Prints a list of the indexes and generations of the keys that are still to come. O(capacity).
impl<'a, T, M: SlotMapStorage<MaybeMoved<T>>> Debug for Keys<'a, T, M> {
    fn fmt<W: Write>(&self, f: &mut Formatter<W>) -> fmt::Result {
        let mut list = f.debug_list();
        for (key, _) in self.items.rest() {
            list.entry(&(key.index(), key.generation()));
        }
        list.finish()
    }
}

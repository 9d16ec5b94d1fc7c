//! The iterator of maps.
ghost use Rattle.std.specs.Prelude.{◌≡◌, length, map, Some, IfSome, ⊤};
ghost use Rattle.std.specs.Iterator.{YieldsFirstBy, YieldsLastBy, UpTo, at_most, item_count};
ghost use Rattle.std.specs.Iterator.SizeHint.{IsWithinCount};
ghost use Rattle.ix_flatmap.specs.MapState.{map_item};

use crate::map::{MetaMap, Pair, PairIndex};
use ix_slottable::slottable::{self, Storage};
use std::alloc::AllocError;
use std::fmt::{self, Debug, Formatter, Write};
use std::iter::FusedIterator;
use std::marker::Model;

/// An iterator over the keys of a map in slot order, each with its value, as
/// [`MetaMap::iter`](crate::map::MetaMap::iter) returns it. Contracts see the items that are still to come.
#[derive(Drop)]
pub struct Iter<'a, K, V, M: Storage<Pair<K, V>>> {
    pairs: slottable::Iter<'a, Pair<K, V>, M>,
}

impl<'a, K, V, M: Storage<Pair<K, V>>> Model for Iter<'a, K, V, M> {
    ghost use Rattle.std.specs.Prelude.{List, map};
    ghost use Rattle.ix_flatmap.specs.MapState.{map_item};

    ghost Value = { List (K × V) };

    ghost view = { λ iter. map map_item iter.pairs };
}

impl<'a, K, V, M: Storage<Pair<K, V>>> Iter<'a, K, V, M> {
    /// Returns an iterator over the keys of pairs, each with its value. O(1).
    #[doc(hidden)]
    #[inline]
    pub fn new(pairs: slottable::Iter<'a, Pair<K, V>, M>) -> Self
        ensures { result ≡ map map_item pairs.entry }
    {
        Iter { pairs }
    }
}

impl<'a, K, V, M: Storage<Pair<K, V>>> Iterator for Iter<'a, K, V, M> {
    type Item = (&'a K, &'a V);

    ghost next_gives = { YieldsFirstBy (λ item. (item.0.now, item.1.now)) (λ rest. rest) };

    ghost remaining = { item_count (λ rest. rest) };

    /// Returns the next key with its value, or `None` after the last one. O(the number of free slots before it).
    #[inline]
    fn next(&mut self) -> Option<(&'a K, &'a V)> {
        match self.pairs.next() {
            Some((_, pair)) => Some((&pair.key, &pair.value)),
            None => None,
        }
    }

    /// Returns the number of items that are still to come, as both bounds. O(1).
    #[inline]
    fn size_hint(&self) -> (usize, Option<usize>)
        ensures value { result ≡ (length self.now, Some (length self.now)) }
        ensures lower { IsWithinCount result.0 (at_most (length self.now)) }
        ensures upper { IfSome result.1 (UpTo (at_most (length self.now))) }
    {
        self.pairs.size_hint()
    }
}

impl<'a, K, V, M: Storage<Pair<K, V>>> DoubleEndedIterator for Iter<'a, K, V, M> {
    ghost next_back_gives = { YieldsLastBy (λ item. (item.0.now, item.1.now)) (λ rest. rest) };

    /// Returns the last key that is still to come with its value, or `None` if there is none. O(the number of free slots after
    /// it).
    #[inline]
    fn next_back(&mut self) -> Option<(&'a K, &'a V)> {
        match self.pairs.next_back() {
            Some((_, pair)) => Some((&pair.key, &pair.value)),
            None => None,
        }
    }
}

impl<'a, K, V, M: Storage<Pair<K, V>>> ExactSizeIterator for Iter<'a, K, V, M> {
    /// Returns the number of items that are still to come. O(1).
    #[inline]
    fn len(&self) -> usize {
        self.pairs.len()
    }
}

impl<'a, K, V, M: Storage<Pair<K, V>>> FusedIterator for Iter<'a, K, V, M> {}

impl<'a, K, V, M: Storage<Pair<K, V>>> Clone for Iter<'a, K, V, M> {
    ghost is_clone = { λ iter clone. clone ≡ iter };

    ghost is_infallible = { λ _. ⊤ };

    /// Returns an iterator over the items that are still to come. O(1). Never fails.
    #[inline]
    fn clone(&self) -> Result<Self, AllocError> {
        Ok(Iter {
            pairs: self.pairs.clone()?,
        })
    }
}

/// Prints a list of the items that are still to come, each as a key and its value. O(capacity).
impl<'a, K: Debug, V: Debug, M: Storage<Pair<K, V>>> Debug for Iter<'a, K, V, M> {
    fn fmt<W: Write>(&self, f: &mut Formatter<W>) -> fmt::Result {
        let Ok(pairs) = self.pairs.clone() else {
            return Err(fmt::Error);
        };
        let mut list = f.debug_list();
        for (_, pair) in pairs {
            list.entry(&(&pair.key, &pair.value));
        }
        list.finish()
    }
}

impl<'a, K: Eq, V, M: Storage<Pair<K, V>>, I: PairIndex<Pair<K, V>>> IntoIterator
    for &'a MetaMap<Pair<K, V>, M, I> {
    ghost use Rattle.ix_flatmap.specs.MapState.{map_items};

    type Item = (&'a K, &'a V);

    type IntoIter = Iter<'a, K, V, M>;

    ghost into_iter_gives = { λ map iter. iter ≡ map_items map.now };

    /// Returns an iterator over the keys in slot order, each with its value. O(1).
    #[inline]
    fn into_iter(self) -> Iter<'a, K, V, M> {
        Iter::new(self.pairs.iter())
    }
}

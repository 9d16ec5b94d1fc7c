//! The iterator that removes the pairs of a map.
ghost use Rattle.std.specs.Prelude.{◌≡◌, length, map, Some, IfSome};
ghost use Rattle.std.specs.Iterator.{YieldsFirst, YieldsLast, UpTo, at_most, item_count};
ghost use Rattle.std.specs.Iterator.SizeHint.{IsWithinCount};
ghost use Rattle.ix_slottable.specs.SlotTableState.{entries};

use crate::map::{IntoItem, MetaMap, PairIndex};
use ix_slottable::slottable::{self, Storage};
use std::fmt::{self, Debug, Formatter, Write};
use std::iter::FusedIterator;
use std::marker::Model;

/// An iterator that removes the keys of a map, each with its value, in slot order, as `into_iter` returns it. Contracts see the
/// items that are still to come.
///
/// It owns the map's memory, except the memory of the index. Dropping it drops the keys and values that are still to come, the next
/// ones first, in O(capacity) time.
#[derive(Drop)]
pub struct IntoIter<P: IntoItem, M: Storage<P>> {
    pairs: slottable::IntoIter<P, M>,
}

impl<P: IntoItem, M: Storage<P>> Model for IntoIter<P, M> {
    ghost use Rattle.std.specs.Prelude.{List, map};

    ghost Value = { List (P.Key × P.Value) };

    ghost view = { λ iter. map (λ entry. P.item entry.1) iter.pairs };
}

impl<P: IntoItem + Drop, M: Storage<P>> Iterator for IntoIter<P, M> {
    type Item = (P::Key, P::Value);

    ghost next_gives = { YieldsFirst (λ rest. rest) };

    ghost remaining = { item_count (λ rest. rest) };

    /// Removes the next key and returns it with its value, or `None` after the last one. O(the number of free slots before
    /// it).
    #[inline]
    fn next(&mut self) -> Option<(P::Key, P::Value)> {
        match self.pairs.next() {
            Some((_, pair)) => Some(pair.into_item()),
            None => None,
        }
    }

    /// Returns the number of items that are still to come, as both bounds. O(1).
    #[inline]
    fn size_hint(&self) -> (usize, Option<usize>)
        ensures value { result ≡ (length self.now, Some (length self.now)) }
        ensures lower { IsWithinCount result.0 (at_most (length self.now)) }
        ensures upper { IfSome result.1 (UpTo (at_most (length self.now))) }
    {
        self.pairs.size_hint()
    }
}

impl<P: IntoItem + Drop, M: Storage<P>> DoubleEndedIterator for IntoIter<P, M> {
    ghost next_back_gives = { YieldsLast (λ rest. rest) };

    /// Removes the last key that is still to come and returns it with its value, or `None` if there is none. O(the number of
    /// free slots after it).
    #[inline]
    fn next_back(&mut self) -> Option<(P::Key, P::Value)> {
        match self.pairs.next_back() {
            Some((_, pair)) => Some(pair.into_item()),
            None => None,
        }
    }
}

impl<P: IntoItem + Drop, M: Storage<P>> ExactSizeIterator for IntoIter<P, M> {
    /// Returns the number of items that are still to come. O(1).
    #[inline]
    fn len(&self) -> usize {
        self.pairs.len()
    }
}

impl<P: IntoItem + Drop, M: Storage<P>> FusedIterator for IntoIter<P, M> {}

/// Prints a list of the slots that are still to come, each as its number and its pair. O(capacity).
impl<P: IntoItem + Debug, M: Storage<P>> Debug for IntoIter<P, M> {
    fn fmt<W: Write>(&self, f: &mut Formatter<W>) -> fmt::Result {
        self.pairs.fmt(f)
    }
}

// Over any `P`: the checker covers no caller of a function that takes by value a type which needs `Pair<K, V>: Keyed`.
impl<P: IntoItem + Drop, M: Storage<P>, I: PairIndex<P> + Drop> IntoIterator for MetaMap<P, M, I> {
    type Item = (P::Key, P::Value);

    type IntoIter = IntoIter<P, M>;

    ghost into_iter_gives = { λ own iter. iter ≡ map (λ entry. P.item entry.1) (entries own) };

    /// Returns an iterator that removes the keys, each with its value, in slot order. O(1).
    #[inline]
    fn into_iter(self) -> IntoIter<P, M> {
        let MetaMap { pairs, index: _ } = self;
        IntoIter {
            pairs: pairs.into_iter(),
        }
    }
}

//! The iterator over the values of maps.

use crate::map::Pair;
use ix_slottable::slottable::{Part, Parts};

/// An iterator over the values of a map in slot order of their keys, as
/// [`MetaMap::values`](crate::map::MetaMap::values) returns it. Contracts see the values that are still to come.
///
/// Its items are `&'a V`.
pub type Values<'a, K, V, M> = Parts<'a, Pair<K, V>, M, PairValue>;

/// The value of a pair.
pub struct PairValue;

impl<K, V> Part<Pair<K, V>> for PairValue {
    type Of = V;

    ghost part = { λ pair. pair.value };

    #[inline]
    fn of(pair: &Pair<K, V>) -> &V {
        &pair.value
    }
}

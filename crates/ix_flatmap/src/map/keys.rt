//! The iterator over the keys of maps.

use crate::map::Pair;
use ix_slottable::slottable::{Part, Parts};

/// An iterator over the keys of a map in slot order, as [`MetaMap::keys`](crate::map::MetaMap::keys)
/// returns it. Contracts see the keys that are still to come.
///
/// Its items are `&'a K`.
pub type Keys<'a, K, V, M> = Parts<'a, Pair<K, V>, M, PairKey>;

/// The key of a pair.
pub struct PairKey;

impl<K, V> Part<Pair<K, V>> for PairKey {
    type Of = K;

    ghost part = { λ pair. pair.key };

    #[inline]
    fn of(pair: &Pair<K, V>) -> &K {
        &pair.key
    }
}

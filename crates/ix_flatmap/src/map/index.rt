//! Values of a map by their keys.
ghost use Rattle.std.specs.Prelude.{◌≡◌, IsSome, Some};
ghost use Rattle.ix_flatmap.specs.MapState.{map_value};

use crate::map::{KeyIndex, MetaMap, Pair};
use ix_slottable::slottable::Storage;
use std::ops::Index;

/// `map[&key]` is the value of `key`, which the map has to have. [`MetaMap::get_ref`] accepts any key.
impl<'q, K: Eq + Drop, V: Drop, M: Storage<Pair<K, V>>, I: KeyIndex<K, V>> Index<&'q K>
    for MetaMap<Pair<K, V>, M, I> {
    type Output = V;

    ghost can_index = { λ map key. IsSome (map_value K.eq map key.now) };

    ghost index_gives = { λ map key value. map_value K.eq map key.now ≡ Some value };

    #[inline]
    fn index(&self, key: &'q K) -> &V {
        match self.get_ref(key) {
            Some(value) => value,
            None => unreachable!(),
        }
    }
}

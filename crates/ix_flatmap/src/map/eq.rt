//! Equality of maps.
ghost use Rattle.std.specs.Prelude.{◌≡◌};
ghost use Rattle.std.specs.List.{list_any};
ghost use Rattle.ix_flatmap.specs.MapState.{HasDistinctKeys, map_items};
ghost use Rattle.ix_flatmap.specs.MapCompared.{is_same_item, has_each, has_same};
ghost use Rattle.ix_flatmap.specs.laws.MapCompared.{same_items_per, same_items_equiv};

use crate::map::{Iter, KeyIndex, MetaMap, Pair};
use ix_slottable::slottable::Storage;

/// Maps are equal if each has the keys of the other, with equal values. Slots, capacities and indexes do not matter.
impl<K: Eq + Drop, V: PartialEq + Drop, M: Storage<Pair<K, V>>, I: KeyIndex<K, V>> PartialEq
    for MetaMap<Pair<K, V>, M, I> {
    ghost eq = { λ map other. has_same (is_same_item K.eq V.eq) (map_items map) (map_items other) };

    ghost laws = { same_items_per K.eq V.eq K.Eq.laws V.laws };

    /// Returns `true` if the maps are equal. Compares the numbers of keys first, and then looks for each key of the other map
    /// in this one.
    fn eq(&self, other: &Self) -> bool {
        self.len() == other.len() && has_each_of(self, other.iter())
    }
}

impl<K: Eq + Drop, V: Eq + Drop, M: Storage<Pair<K, V>>, I: KeyIndex<K, V>> Eq
    for MetaMap<Pair<K, V>, M, I> {
    ghost laws = { same_items_equiv K.eq V.eq K.Eq.laws V.Eq.laws };
}

/// Returns `true` if `map` has each of these keys, with an equal value.
fn has_each_of<K: Eq + Drop, V: PartialEq + Drop, M: Storage<Pair<K, V>>, I: KeyIndex<K, V>>(
    map: &MetaMap<Pair<K, V>, M, I>,
    items: Iter<'_, K, V, M>,
) -> bool
    requires { HasDistinctKeys K.eq map.now }
    ensures { result ≡ has_each (is_same_item K.eq V.eq) (map_items map.now) items.entry }
{
    for (key, value) in items {
        if !has_equal(map, key, value) {
            return false;
        }
    }
    true
}

/// Returns `true` if `map` has an equal key, with an equal value.
#[inline]
fn has_equal<K: Eq + Drop, V: PartialEq + Drop, M: Storage<Pair<K, V>>, I: KeyIndex<K, V>>(
    map: &MetaMap<Pair<K, V>, M, I>,
    key: &K,
    value: &V,
) -> bool
    requires { HasDistinctKeys K.eq map.now }
    ensures { result ≡ list_any (λ item. is_same_item K.eq V.eq item (key.now, value.now))
        (map_items map.now) }
{
    match map.get_ref(key) {
        Some(own) => *own == *value,
        None => false,
    }
}

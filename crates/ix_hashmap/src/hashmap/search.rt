//! How a hash map looks for a key.
ghost use Rattle.std.specs.Prelude.{◌≡◌, option_map};
ghost use Rattle.ix_flatmap.specs.MapState.{AreEqualByBytes, HasDistinctKeys, has_bytes, map_entry};
ghost use Rattle.ix_hashmap.specs.inner.HashChains.{LeadsToKey};

use crate::hashmap::ChainLink;
use crate::hashmap::chain_table::ChainTable;
use ix_flatmap::map::Pair;
use ix_slottable::slottable::{MetaSlotTable, SlotTableKey, Storage};
use ix_tables::Array;
use std::convert::AsSlice;

/// Returns the slot of the key that equals `key`, and the pair there. If the map has one, it is in the chain that begins at
/// `first`.
#[inline]
pub(crate) fn find_from<'a, K: Eq, V, M: Storage<Pair<K, V>>, C: Array<ChainLink>>(
    pairs: &'a MetaSlotTable<Pair<K, V>, M>,
    chains: &ChainTable<C>,
    first: u32,
    key: &K,
) -> Option<(SlotTableKey, &'a Pair<K, V>)>
    requires leads { LeadsToKey K.eq pairs.now chains.now key.now first }
    requires distinct { HasDistinctKeys K.eq pairs.now }
    ensures { option_map (λ entry. (entry.0, entry.1.now)) result
        ≡ map_entry K.eq pairs.now key.now }
{
    let first = first as usize;
    // Most chains have one slot at most, so that the first is looked at before the loop.
    if first >= chains.len() {
        return None;
    }
    let number = SlotTableKey::new(first);
    let pair = pairs.get_unchecked(number);
    if pair.key == *key {
        return Some((number, pair));
    }
    find_later(pairs, chains, chains.next(first), key)
}

/// Returns what [`find_from`] returns, for a chain whose first slot was looked at.
#[inline]
fn find_later<'a, K: Eq, V, M: Storage<Pair<K, V>>, C: Array<ChainLink>>(
    pairs: &'a MetaSlotTable<Pair<K, V>, M>,
    chains: &ChainTable<C>,
    first: u32,
    key: &K,
) -> Option<(SlotTableKey, &'a Pair<K, V>)>
    requires leads { LeadsToKey K.eq pairs.now chains.now key.now first }
    requires distinct { HasDistinctKeys K.eq pairs.now }
    ensures { option_map (λ entry. (entry.0, entry.1.now)) result
        ≡ map_entry K.eq pairs.now key.now }
{
    let places = chains.len();
    let mut place = first as usize;
    while place < places {
        let number = SlotTableKey::new(place);
        let pair = pairs.get_unchecked(number);
        if pair.key == *key {
            return Some((number, pair));
        }
        place = chains.next(place) as usize;
    }
    None
}

/// Returns the slot of the key with these bytes, and the pair there. If the map has one, it is in the chain that begins at
/// `first`.
#[inline]
pub(crate) fn find_bytes<'a, K: Eq + AsSlice<u8>, V, M: Storage<Pair<K, V>>, C: Array<ChainLink>>(
    pairs: &'a MetaSlotTable<Pair<K, V>, M>,
    chains: &ChainTable<C>,
    first: u32,
    bytes: &[u8],
) -> Option<(SlotTableKey, &'a Pair<K, V>)>
    requires leads { LeadsToKey (has_bytes K.items) pairs.now chains.now bytes.now first }
    requires distinct { HasDistinctKeys K.eq pairs.now }
    requires equal { AreEqualByBytes K.eq K.items }
    ensures { option_map (λ entry. (entry.0, entry.1.now)) result
        ≡ map_entry (has_bytes K.items) pairs.now bytes.now }
{
    let places = chains.len();
    let mut place = first as usize;
    while place < places {
        let number = SlotTableKey::new(place);
        let pair = pairs.get_unchecked(number);
        if pair.key.as_slice() == bytes {
            return Some((number, pair));
        }
        place = chains.next(place) as usize;
    }
    None
}

//! How a flat map looks for a key.
ghost use Rattle.std.specs.Prelude.{◌≡◌, ◌+◌, ◌<◌, ◌≤◌, ℕ, length, nat_lt, if◌then◌else◌, IfSome, IsNone, option_map, true};
ghost use Rattle.ix_slottable.specs.SlotTableState.{IsHeld};
ghost use Rattle.ix_flatmap.specs.MapState.{HasDistinctKeys, has_bytes, map_entry, IsBound};
ghost use Rattle.ix_flatmap.specs.inner.FlatSearch.{is_key_at, HasNoKeyIn, IsFoundIn};
ghost use Rattle.ix_flatmap.specs.declared.flatmap.search.TheConstants.{BLOCK_LEN, ROW_LEN};

use crate::map::Pair;
use ix_slottable::slottable::{MetaSlotTable, SlotTableKey, Storage};
use std::convert::AsSlice;

/// A map without a free slot before its last key compares so many keys at a time, with no branch between them.
const BLOCK_LEN: usize = 8;

/// It compares so many keys at a time, which are four blocks, if it has at least [`MANY`] keys.
const ROW_LEN: usize = 32;

/// From so many keys on, comparing a row at a time saves more time than the last row's needless comparisons cost.
const MANY: usize = 128;

/// Returns the slot of the key that equals `key`, and the pair there. Each slot before `end` has a pair, and
/// no other does.
#[inline(always)]
pub(crate) fn find_in_front<'a, K: Eq, V, M: Storage<Pair<K, V>>>(
    pairs: &'a MetaSlotTable<Pair<K, V>, M>,
    end: usize,
    key: &K,
) -> Option<(SlotTableKey, &'a Pair<K, V>)>
    requires distinct { HasDistinctKeys K.eq pairs.now }
    requires bound { IsBound pairs.now end }
    requires held { (place : ℕ) → place < end → IsHeld pairs.now place }
    ensures { option_map (λ entry. (entry.0, entry.1.now)) result
        ≡ map_entry K.eq pairs.now key.now }
{
    if end < MANY {
        find_by_blocks(pairs, 0, end, key)
    } else {
        find_by_rows(pairs, end, key)
    }
}

/// Does what [`find_in_front`] does, a row at a time.
// Not inlined, since a small map does not need it.
#[inline(never)]
fn find_by_rows<'a, K: Eq, V, M: Storage<Pair<K, V>>>(
    pairs: &'a MetaSlotTable<Pair<K, V>, M>,
    end: usize,
    key: &K,
) -> Option<(SlotTableKey, &'a Pair<K, V>)>
    requires distinct { HasDistinctKeys K.eq pairs.now }
    requires bound { IsBound pairs.now end }
    requires held { (place : ℕ) → place < end → IsHeld pairs.now place }
    ensures { option_map (λ entry. (entry.0, entry.1.now)) result
        ≡ map_entry K.eq pairs.now key.now }
{
    let rows = end / ROW_LEN;
    for row in 0..rows {
        let start = row * ROW_LEN;
        if let Some(index) = index_in_row(pairs, start, key) {
            let place = SlotTableKey::new(start + index);
            return Some((place, pairs.get_unchecked(place)));
        }
    }
    find_by_blocks(pairs, rows * ROW_LEN, end, key)
}

/// Does what [`find_in_front`] does, a block at a time. No slot before `start` has the key.
#[inline(always)]
fn find_by_blocks<'a, K: Eq, V, M: Storage<Pair<K, V>>>(
    pairs: &'a MetaSlotTable<Pair<K, V>, M>,
    start: usize,
    end: usize,
    key: &K,
) -> Option<(SlotTableKey, &'a Pair<K, V>)>
    requires distinct { HasDistinctKeys K.eq pairs.now }
    requires none { HasNoKeyIn K.eq pairs.now key.now 0 start }
    requires order { start ≤ end }
    requires bound { IsBound pairs.now end }
    requires held { (place : ℕ) → place < end → IsHeld pairs.now place }
    ensures { option_map (λ entry. (entry.0, entry.1.now)) result
        ≡ map_entry K.eq pairs.now key.now }
{
    let blocks = end / BLOCK_LEN;
    for block in start / BLOCK_LEN..blocks {
        let start = block * BLOCK_LEN;
        let index = index_in_block(pairs, start, key);
        if index < BLOCK_LEN {
            let place = SlotTableKey::new(start + index);
            return Some((place, pairs.get_unchecked(place)));
        }
    }
    find_from(pairs, blocks * BLOCK_LEN, end, key)
}

/// Returns which of the [`ROW_LEN`] slots from `start` on has a key that equals `key`. Each of these slots has a pair.
#[inline]
fn index_in_row<K: Eq, V, M: Storage<Pair<K, V>>>(
    pairs: &MetaSlotTable<Pair<K, V>, M>,
    start: usize,
    key: &K,
) -> Option<usize>
    requires fits { start + ROW_LEN ≤ 18446744073709551615 }
    requires within { start + ROW_LEN ≤ length pairs.now.values }
    requires held { (place : ℕ) → place < start + ROW_LEN → IsHeld pairs.now place }
    ensures found { IfSome result (λ index.
        is_key_at K.eq pairs.now key.now (start + index) ≡ true) }
    ensures within { IfSome result (λ index. index < ROW_LEN) }
    ensures absent { IsNone result → HasNoKeyIn K.eq pairs.now key.now start ROW_LEN }
{
    let (first, second) = indexes_in_blocks(pairs, start, key);
    let (third, fourth) = indexes_in_blocks(pairs, start + 2 * BLOCK_LEN, key);
    if first.min(second).min(third).min(fourth) == BLOCK_LEN {
        return None;
    }
    let left = index_in_either(first, second, BLOCK_LEN);
    let right = index_in_either(third, fourth, BLOCK_LEN);
    Some(index_in_either(left, right, 2 * BLOCK_LEN))
}

/// Returns the results of [`index_in_block`] for the block at `start` and for the block after it. Side by side they take less time,
/// because a number that is moved to a register serves both.
#[inline]
fn indexes_in_blocks<K: Eq, V, M: Storage<Pair<K, V>>>(
    pairs: &MetaSlotTable<Pair<K, V>, M>,
    start: usize,
    key: &K,
) -> (usize, usize)
    requires fits { start + BLOCK_LEN + BLOCK_LEN ≤ 18446744073709551615 }
    requires within { start + BLOCK_LEN + BLOCK_LEN ≤ length pairs.now.values }
    requires held { (place : ℕ) → place < start + BLOCK_LEN + BLOCK_LEN
        → IsHeld pairs.now place }
    ensures first { IsFoundIn K.eq pairs.now key.now start BLOCK_LEN BLOCK_LEN result.0 }
    ensures second { IsFoundIn K.eq pairs.now key.now (start + BLOCK_LEN) BLOCK_LEN BLOCK_LEN
        result.1 }
{
    let mut first = BLOCK_LEN;
    let mut second = BLOCK_LEN;
    for i in 0..BLOCK_LEN {
        if has_key_at(pairs, start + i, key) {
            first = i;
        }
        if has_key_at(pairs, start + BLOCK_LEN + i, key) {
            second = i;
        }
    }
    (first, second)
}

/// Returns which of the [`BLOCK_LEN`] slots from `start` on has a key that equals `key`, or [`BLOCK_LEN`]. Each of these
/// slots has a pair.
// Compares all of these keys, with no branch: which of them is equal can't be predicted.
#[inline]
fn index_in_block<K: Eq, V, M: Storage<Pair<K, V>>>(
    pairs: &MetaSlotTable<Pair<K, V>, M>,
    start: usize,
    key: &K,
) -> usize
    requires fits { start + BLOCK_LEN ≤ 18446744073709551615 }
    requires within { start + BLOCK_LEN ≤ length pairs.now.values }
    requires held { (place : ℕ) → place < start + BLOCK_LEN → IsHeld pairs.now place }
    ensures { IsFoundIn K.eq pairs.now key.now start BLOCK_LEN BLOCK_LEN result }
{
    let mut found = BLOCK_LEN;
    for i in 0..BLOCK_LEN {
        if has_key_at(pairs, start + i, key) {
            found = i;
        }
    }
    found
}

/// Returns `true` if the key of a slot that has a pair equals `key`.
#[inline]
fn has_key_at<K: Eq, V, M: Storage<Pair<K, V>>>(
    pairs: &MetaSlotTable<Pair<K, V>, M>,
    place: usize,
    key: &K,
) -> bool
    requires { IsHeld pairs.now place }
    ensures { result ≡ is_key_at K.eq pairs.now key.now place }
{
    pairs.get_unchecked(SlotTableKey::new(place)).key == *key
}

/// Returns the slot of the key that equals `key`, and the pair there. No slot before `start` has the key, and no slot from `end` on
/// has a pair.
#[inline]
pub(crate) fn find_from<'a, K: Eq, V, M: Storage<Pair<K, V>>>(
    pairs: &'a MetaSlotTable<Pair<K, V>, M>,
    start: usize,
    end: usize,
    key: &K,
) -> Option<(SlotTableKey, &'a Pair<K, V>)>
    requires distinct { HasDistinctKeys K.eq pairs.now }
    requires none { HasNoKeyIn K.eq pairs.now key.now 0 start }
    requires bound { IsBound pairs.now end }
    ensures { option_map (λ entry. (entry.0, entry.1.now)) result
        ≡ map_entry K.eq pairs.now key.now }
{
    for place in start..end {
        let place = SlotTableKey::new(place);
        if let Some(pair) = pairs.get(place)
            && pair.key == *key
        {
            return Some((place, pair));
        }
    }
    None
}

/// Returns the slot of the key that equals `key`, and the pair there. No slot from `end` on has a pair.
#[doc(hidden)]
#[inline]
pub fn find_in_order<'a, K: Eq, V, M: Storage<Pair<K, V>>>(
    pairs: &'a MetaSlotTable<Pair<K, V>, M>,
    end: usize,
    key: &K,
) -> Option<(SlotTableKey, &'a Pair<K, V>)>
    requires distinct { HasDistinctKeys K.eq pairs.now }
    requires bound { IsBound pairs.now end }
    ensures { option_map (λ entry. (entry.0, entry.1.now)) result
        ≡ map_entry K.eq pairs.now key.now }
{
    find_from(pairs, 0, end, key)
}

/// Returns the slot of the key with these bytes, and the pair there. No slot from `end` on has a pair.
#[doc(hidden)]
#[inline]
pub fn find_bytes<'a, K: AsSlice<u8>, V, M: Storage<Pair<K, V>>>(
    pairs: &'a MetaSlotTable<Pair<K, V>, M>,
    end: usize,
    bytes: &[u8],
) -> Option<(SlotTableKey, &'a Pair<K, V>)>
    requires { IsBound pairs.now end }
    ensures { option_map (λ entry. (entry.0, entry.1.now)) result
        ≡ map_entry (has_bytes K.items) pairs.now bytes.now }
{
    for place in 0..end {
        let place = SlotTableKey::new(place);
        if let Some(pair) = pairs.get(place)
            && pair.key.as_slice() == bytes
        {
            return Some((place, pair));
        }
    }
    None
}

/// Returns the index in two adjacent rows of `len` slots: `first` if it is in the first row, and else `len + second`.
#[inline]
fn index_in_either(first: usize, second: usize, len: usize) -> usize
    requires { len + second ≤ 18446744073709551615 }
    ensures { result ≡ (if nat_lt first len then first else len + second) }
{
    if first < len { first } else { len + second }
}

//! The number of keys of a map, and how many more fit.
ghost use Rattle.std.specs.Prelude.{◌≡◌, ◌+◌, ◌≤◌, nat_eq, length, IsTrue, IsSome, IsOk, None};
ghost use Rattle.ix_slottable.specs.SlotTableState.{held_count};
ghost use Rattle.ix_flatmap.specs.MapState.{map_value};

use ix_flatmap::{FixedSizeFlatMap, FlatMap, KeyIndex, MapError, MetaMap, Pair};
use ix_hashmap::{FixedSizeHashMap, HashMap};
use ix_slottable::Storage;

type Flat = FixedSizeFlatMap<u64, u64, 8>;

type Hash = FixedSizeHashMap<u64, u64, 8>;

// Flat maps and hash maps.

pub fn map_insert(map: &mut Flat) -> Result<(), MapError>
    ensures count { IsOk result → held_count map.new ≡ held_count map.old + 1 }
    ensures room { IsOk result → length map.new.free + 1 ≡ length map.old.free }
{
    map.insert(1, 1)
}

pub fn flat_insert_new(map: &mut Flat, key: u64, value: u64) -> bool
    ensures { IsTrue result → map_value nat_eq map.old key ≡ None }
{
    map.insert(key, value).is_ok()
}

pub fn hash_try_insert_new(map: &mut Hash, key: u64, value: u64) -> bool
    ensures { IsTrue result → map_value nat_eq map.old key ≡ None }
{
    map.try_insert(key, value).is_ok()
}

pub fn flat_try_insert(map: &mut Flat) -> bool
    ensures count { IsTrue result → held_count map.new ≡ held_count map.old + 1 }
    ensures room { IsTrue result → length map.new.free + 1 ≡ length map.old.free }
{
    map.try_insert(1, 1).is_ok()
}

pub fn map_replace(map: &mut Flat) -> bool
    ensures count { IsSome (map_value nat_eq map.old 1) → held_count map.new ≡ held_count map.old }
    ensures room { IsTrue result → map_value nat_eq map.old 1 ≡ None
        → length map.new.free + 1 ≡ length map.old.free }
{
    map.replace(1, 1).is_ok()
}

pub fn map_get_or_insert_with(map: &mut Flat) -> bool
    ensures count { IsTrue result → map_value nat_eq map.old 1 ≡ None
        → held_count map.new ≡ held_count map.old + 1 }
    ensures room { IsSome (map_value nat_eq map.old 1) → map.new.free ≡ map.old.free }
{
    match map.get_or_insert_with(1, || 0) {
        Ok(value) => {
            *value = 2;
            true
        }
        Err(_) => false,
    }
}

pub fn map_remove(map: &mut Flat) -> Option<u64>
    ensures count { IsSome result → held_count map.new + 1 ≡ held_count map.old }
    ensures room { IsSome result → length map.new.free ≡ length map.old.free + 1 }
{
    map.remove(&1)
}

pub fn flat_remove_entry(map: &mut Flat) -> Option<(u64, u64)>
    ensures count { IsSome result → held_count map.new + 1 ≡ held_count map.old }
    ensures room { IsSome result → length map.new.free ≡ length map.old.free + 1 }
{
    map.remove_entry(&1)
}

pub fn flat_retain(map: &mut Flat)
    ensures count { held_count map.new ≤ held_count map.old }
    ensures room { length map.old.free ≤ length map.new.free }
{
    map.retain(|_, value| *value != 3);
}

pub fn flat_clear(map: &mut FlatMap<u64, u64>)
    ensures count { held_count map.new ≡ 0 }
    ensures room { length map.new.free ≡ length map.old.values }
{
    map.clear();
}

pub fn flat_drain(map: &mut Flat)
    ensures count { held_count map.new ≡ 0 }
    ensures room { length map.new.free ≡ length map.old.values }
{
    map.drain();
}

pub fn hash_insert(map: &mut HashMap<u64, u64>) -> Result<(), MapError>
    ensures count { IsOk result → held_count map.new ≡ held_count map.old + 1 }
    ensures room { IsOk result → length map.new.free + 1 ≡ length map.old.free }
{
    map.insert(1, 1)
}

pub fn hash_try_insert(map: &mut Hash) -> bool
    ensures count { IsTrue result → held_count map.new ≡ held_count map.old + 1 }
    ensures room { IsTrue result → length map.new.free + 1 ≡ length map.old.free }
{
    map.try_insert(1, 1).is_ok()
}

pub fn hash_replace(map: &mut Hash) -> bool
    ensures count { IsSome (map_value nat_eq map.old 1) → held_count map.new ≡ held_count map.old }
    ensures room { IsTrue result → map_value nat_eq map.old 1 ≡ None
        → length map.new.free + 1 ≡ length map.old.free }
{
    map.replace(1, 1).is_ok()
}

pub fn hash_remove(map: &mut Hash) -> Option<u64>
    ensures count { IsSome result → held_count map.new + 1 ≡ held_count map.old }
    ensures room { IsSome result → length map.new.free ≡ length map.old.free + 1 }
{
    map.remove(&1)
}

pub fn hash_remove_entry(map: &mut Hash) -> Option<(u64, u64)>
    ensures count { IsSome result → held_count map.new + 1 ≡ held_count map.old }
    ensures room { IsSome result → length map.new.free ≡ length map.old.free + 1 }
{
    map.remove_entry(&1)
}

pub fn hash_retain(map: &mut Hash)
    ensures count { held_count map.new ≤ held_count map.old }
    ensures room { length map.old.free ≤ length map.new.free }
{
    map.retain(|_, value| *value != 3);
}

pub fn hash_clear(map: &mut HashMap<u64, u64>)
    ensures count { held_count map.new ≡ 0 }
    ensures room { length map.new.free ≡ length map.old.values }
{
    map.clear();
}

pub fn hash_drain(map: &mut Hash)
    ensures count { held_count map.new ≡ 0 }
    ensures room { length map.new.free ≡ length map.old.values }
{
    map.drain();
}

// A map of any kind.

pub fn any_insert<M: Storage<Pair<u64, u64>>, I: KeyIndex<u64, u64>>(
    map: &mut MetaMap<Pair<u64, u64>, M, I>,
) -> Result<(), MapError>
    ensures count { IsOk result → held_count map.new ≡ held_count map.old + 1 }
    ensures room { IsOk result → length map.new.free + 1 ≡ length map.old.free }
{
    map.insert(1, 1)
}

pub fn any_try_insert<M: Storage<Pair<u64, u64>>, I: KeyIndex<u64, u64>>(
    map: &mut MetaMap<Pair<u64, u64>, M, I>,
) -> bool
    ensures count { IsTrue result → held_count map.new ≡ held_count map.old + 1 }
    ensures room { IsTrue result → length map.new.free + 1 ≡ length map.old.free }
{
    map.try_insert(1, 1).is_ok()
}

pub fn any_replace<M: Storage<Pair<u64, u64>>, I: KeyIndex<u64, u64>>(
    map: &mut MetaMap<Pair<u64, u64>, M, I>,
) -> bool
    ensures count { IsSome (map_value nat_eq map.old 1)
        → held_count map.new ≡ held_count map.old }
    ensures room { IsTrue result → map_value nat_eq map.old 1 ≡ None
        → length map.new.free + 1 ≡ length map.old.free }
{
    map.replace(1, 1).is_ok()
}

pub fn any_remove<M: Storage<Pair<u64, u64>>, I: KeyIndex<u64, u64>>(
    map: &mut MetaMap<Pair<u64, u64>, M, I>,
) -> Option<u64>
    ensures count { IsSome result → held_count map.new + 1 ≡ held_count map.old }
    ensures room { IsSome result → length map.new.free ≡ length map.old.free + 1 }
{
    map.remove(&1)
}

pub fn any_remove_entry<M: Storage<Pair<u64, u64>>, I: KeyIndex<u64, u64>>(
    map: &mut MetaMap<Pair<u64, u64>, M, I>,
) -> Option<(u64, u64)>
    ensures count { IsSome result → held_count map.new + 1 ≡ held_count map.old }
    ensures room { IsSome result → length map.new.free ≡ length map.old.free + 1 }
{
    map.remove_entry(&1)
}

pub fn any_retain<M: Storage<Pair<u64, u64>>, I: KeyIndex<u64, u64>>(
    map: &mut MetaMap<Pair<u64, u64>, M, I>,
)
    ensures count { held_count map.new ≤ held_count map.old }
    ensures room { length map.old.free ≤ length map.new.free }
{
    map.retain(|_, value| *value != 3);
}

pub fn any_clear<M: Storage<Pair<u64, u64>>, I: KeyIndex<u64, u64>>(
    map: &mut MetaMap<Pair<u64, u64>, M, I>,
)
    ensures count { held_count map.new ≡ 0 }
    ensures room { length map.new.free ≡ length map.old.values }
{
    map.clear();
}

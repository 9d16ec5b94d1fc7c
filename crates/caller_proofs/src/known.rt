//! Callers that know the capacity of a container that was passed to them, and that a new one has no key.
ghost use Rattle.std.specs.Prelude.{◌≡◌, ◌≢◌, ◌↔◌, ℕ, None, Some, IsTrue, IfOk, length, nat_eq};
ghost use Rattle.ix_hashmap.specs.MapState.{map_value, map_keys};
ghost use Rattle.ix_hashmap.specs.MapSteps.{ListsUntilStop};
ghost use Rattle.ix_hashmap.specs.SlotTableState.{held_count, slot_table_new, value_at};
ghost use Rattle.ix_slotmap.specs.Generations.{SlotKey, slot_map_value};

use ix_flatmap::FixedSizeFlatMap;
use ix_hashmap::{CallbackProgression, FixedSizeHashMap, HashMap, RelocatableContainer};
use ix_slotmap::{FixedSizeSlotMap, SlotMap};
use ix_slottable::{FixedSizeSlotTable, SlotTableKey};
use std::alloc::{AllocError, Global};

/// A slot table of three is full if it has three values.
pub fn has_three(table: &FixedSizeSlotTable<u64, 3>) -> bool
    ensures { IsTrue result ↔ (held_count table.now ≡ 3) }
{
    table.is_full()
}

/// A slot table has three keys, whether it finds a value or not.
pub fn finds(table: &FixedSizeSlotTable<u64, 3>, key: SlotTableKey) -> bool
    ensures { length table.now.values ≡ 3 }
{
    table.contains(key)
}

/// Inserting leaves every other key as it was, whether it has a value or not.
pub fn insert_leaves_others(
    table: &mut FixedSizeSlotTable<u64, 3>,
    value: u64,
) -> Option<SlotTableKey>
    ensures kept { (other : ℕ) → result ≢ Some other
        → value_at table.new other ≡ value_at table.old other }
    ensures capacity { length table.old.values ≡ 3 }
{
    table.insert(value)
}

/// A slot map of three has three slots.
pub fn is_free(map: &FixedSizeSlotMap<u64, 3>) -> bool
    ensures { length map.now.slots.values ≡ 3 }
{
    map.is_empty()
}

/// A flat map of eight is full if it has eight keys.
pub fn has_eight(map: &FixedSizeFlatMap<u64, u64, 8>) -> bool
    ensures { IsTrue result ↔ (held_count map.now ≡ 8) }
{
    map.is_full()
}

/// A hash map of eight has eight slots, whether it has the key or not.
pub fn has_key(map: &FixedSizeHashMap<u64, u64, 8>, key: u64) -> bool
    ensures { length map.now.values ≡ 8 }
{
    map.contains(&key)
}

/// A new slot map has no key.
pub fn slot_map_without_keys(alloc: Global, capacity: usize) -> Result<SlotMap<u64>, AllocError>
    ensures { IfOk result (λ map. (key : SlotKey) → slot_map_value map key ≡ None) }
{
    SlotMap::new(alloc, capacity)
}

/// A new hash map has no key.
pub fn map_without_keys(alloc: Global, capacity: usize) -> Result<HashMap<u64, u64>, AllocError>
    ensures { IfOk result (λ map. (key : ℕ) → map_value nat_eq map key ≡ None) }
{
    HashMap::new(alloc, capacity)
}

/// A hash map that is initialised in two phases: the error of the second is an `AllocError` by `?`.
pub fn made_in_two_steps(alloc: Global, capacity: usize) -> Result<HashMap<u64, u64>, AllocError>
    ensures { IfOk result (λ map. map ≡ slot_table_new capacity) }
{
    let map = HashMap::<u64, u64>::new_uninit(capacity).init(alloc)?;
    Ok(map)
}

/// A closure that is lent is left as its last call left it.
pub fn list_by<F: FnMut(&u64) -> CallbackProgression>(
    map: &FixedSizeFlatMap<u64, u64, 8>,
    callback: &mut F,
)
    requires { F.IsAlwaysCallable callback.old }
    ensures { ListsUntilStop F.FnMut callback.old (map_keys map.now) callback.new }
{
    map.list_with(callback);
}

//! The number of elements of a container, how many more fit, and the capacity of inline kinds. Each function is proved from the
//! contracts of its calls.
ghost use Rattle.std.specs.Prelude.{◌≡◌, ◌+◌, ◌-◌, ◌<◌, ◌≤◌, length, IsTrue, IsSome, IsOk};
ghost use Rattle.ix_tables.specs.Bounded.{IsWithin};
ghost use Rattle.ix_slottable.specs.SlotTableState.{held_count, IsHeld, IsFree};
ghost use Rattle.ix_slotmap.specs.Generations.{greatest_generation, place_value, slot_map_value, slot_map_len, retired_count, IsDead};
ghost use Rattle.ix_slotmap.specs.SlotMapSteps.{slot_map_clear};

use ix_flatmap::FixedSizeFlatMap;
use ix_hashmap::FixedSizeHashMap;
use ix_queue::{FixedSizeQueue, Queue};
use ix_slotmap::slotmap::cleared_keys_law;
use ix_slotmap::{FixedSizeSlotMap, SlotMapKey};
use ix_slottable::{FixedSizeSlotTable, SlotTableKey};
use ix_vector::{StaticVec, Vector};

type Table = FixedSizeSlotTable<u64, 8>;

type Map = FixedSizeSlotMap<u64, 8>;

type Flat = FixedSizeFlatMap<u64, u64, 8>;

type Hash = FixedSizeHashMap<u64, u64, 8>;

// The capacity of inline kinds.

pub fn queue_capacity(queue: &FixedSizeQueue<u64, 8>) -> usize
    ensures { result ≡ 8 }
{
    queue.capacity()
}

pub fn queue_capacity_of<const N: usize>(queue: &FixedSizeQueue<u64, N>) -> usize
    ensures { result ≡ N }
{
    queue.capacity()
}

pub fn queue_len(queue: &FixedSizeQueue<u64, 8>) -> usize
    ensures { result ≤ 8 }
{
    queue.len()
}

pub fn queue_len_of<const N: usize>(queue: &FixedSizeQueue<u64, N>) -> usize
    ensures { result ≤ N }
{
    queue.len()
}

pub fn table_capacity(table: &Table) -> usize
    ensures { result ≡ 8 }
{
    table.capacity()
}

pub fn table_len(table: &Table) -> usize
    ensures { result ≤ 8 }
{
    table.len()
}

pub fn table_capacity_of<const N: usize>(table: &FixedSizeSlotTable<u64, N>) -> usize
    ensures { result ≡ N }
{
    table.capacity()
}

pub fn table_len_of<const N: usize>(table: &FixedSizeSlotTable<u64, N>) -> usize
    ensures { result ≤ N }
{
    table.len()
}

pub fn slot_map_capacity(map: &Map) -> usize
    ensures { result ≡ 8 }
{
    map.capacity()
}

pub fn slot_map_len(map: &Map) -> usize
    ensures { result ≤ 8 }
{
    map.len()
}

pub fn slot_map_capacity_of<const N: usize>(map: &FixedSizeSlotMap<u64, N>) -> usize
    ensures { result ≡ N }
{
    map.capacity()
}

pub fn slot_map_len_of<const N: usize>(map: &FixedSizeSlotMap<u64, N>) -> usize
    ensures { result ≤ N }
{
    map.len()
}

pub fn flat_capacity(map: &Flat) -> usize
    ensures { result ≡ 8 }
{
    map.capacity()
}

pub fn flat_capacity_of<const N: usize>(map: &FixedSizeFlatMap<u64, u64, N>) -> usize
    ensures { result ≡ N }
{
    map.capacity()
}

pub fn flat_len(map: &Flat) -> usize
    ensures { result ≤ 8 }
{
    map.len()
}

pub fn flat_len_of<const N: usize>(map: &FixedSizeFlatMap<u64, u64, N>) -> usize
    ensures { result ≤ N }
{
    map.len()
}

pub fn hash_capacity(map: &Hash) -> usize
    ensures { result ≡ 8 }
{
    map.capacity()
}

pub fn hash_len(map: &Hash) -> usize
    ensures { result ≤ 8 }
{
    map.len()
}

pub fn hash_capacity_of<const N: usize>(map: &FixedSizeHashMap<u64, u64, N>) -> usize
    ensures { result ≡ N }
{
    map.capacity()
}

pub fn hash_len_of<const N: usize>(map: &FixedSizeHashMap<u64, u64, N>) -> usize
    ensures { result ≤ N }
{
    map.len()
}

// Queues and vectors.

pub fn queue_push(queue: &mut FixedSizeQueue<u64, 8>) -> bool
    ensures { IsTrue result → length queue.new.items ≡ length queue.old.items + 1 }
{
    queue.push(1)
}

pub fn queue_room(queue: &mut Queue<u64>) -> bool
    ensures { IsTrue result → queue.new.capacity - length queue.new.items + 1
        ≡ queue.old.capacity - length queue.old.items }
{
    queue.push(1)
}

pub fn queue_try_push(queue: &mut FixedSizeQueue<u64, 8>) -> Result<(), u64>
    ensures { IsOk result → length queue.new.items ≡ length queue.old.items + 1 }
{
    queue.try_push(1)
}

pub fn queue_overflow(queue: &mut FixedSizeQueue<u64, 8>) -> Option<u64>
    ensures { IsSome result → length queue.new.items ≡ length queue.old.items }
{
    queue.push_with_overflow(1)
}

pub fn queue_pop(queue: &mut FixedSizeQueue<u64, 8>) -> Option<u64>
    ensures { IsSome result → length queue.new.items + 1 ≡ length queue.old.items }
{
    queue.pop()
}

pub fn queue_turn(queue: &mut Queue<u64>) -> bool
    ensures { length queue.new.items ≡ length queue.old.items }
{
    match queue.pop() {
        Some(item) => queue.push(item),
        None => false,
    }
}

pub fn queue_turn_back(queue: &mut Queue<u64>) -> Option<u64>
    ensures { length queue.new.items ≡ length queue.old.items }
{
    let item = queue.pop_back()?;
    let _ = queue.push(item);
    Some(item)
}

pub fn queue_push_within(queue: &mut Queue<u64>)
    ensures { IsWithin queue.new }
{
    let _ = queue.push(1);
}

pub fn queue_overflow_within(queue: &mut Queue<u64>) -> Option<u64>
    ensures { IsWithin queue.new }
{
    queue.push_with_overflow(1)
}

pub fn queue_pop_back(queue: &mut FixedSizeQueue<u64, 8>) -> Option<u64>
    ensures { IsSome result → length queue.new.items + 1 ≡ length queue.old.items }
{
    queue.pop_back()
}

pub fn queue_truncate(queue: &mut FixedSizeQueue<u64, 8>)
    ensures { length queue.new.items ≤ 3 }
{
    queue.truncate(3);
}

pub fn queue_retain(queue: &mut FixedSizeQueue<u64, 8>)
    ensures { length queue.new.items ≤ length queue.old.items }
{
    queue.retain(|item| *item != 3);
}

pub fn queue_clear(queue: &mut FixedSizeQueue<u64, 8>)
    ensures { length queue.new.items ≡ 0 }
{
    queue.clear();
}

pub fn queue_drain(queue: &mut FixedSizeQueue<u64, 8>)
    ensures { length queue.new.items ≡ 0 }
{
    queue.drain();
}

pub fn vector_push(vector: &mut StaticVec<u64, 8>) -> bool
    ensures { IsTrue result → length vector.new ≡ length vector.old + 1 }
{
    vector.push(1).is_ok()
}

pub fn vector_pop(vector: &mut StaticVec<u64, 8>) -> Option<u64>
    ensures { IsSome result → length vector.new + 1 ≡ length vector.old }
{
    vector.pop()
}

pub fn vector_retain(vector: &mut StaticVec<u64, 8>)
    ensures { length vector.new ≤ length vector.old }
{
    vector.retain(|item| *item != 3);
}

// Slot tables.

pub fn table_insert(table: &mut Table) -> Option<SlotTableKey>
    ensures count { IsSome result → held_count table.new ≡ held_count table.old + 1 }
    ensures room { IsSome result → length table.new.free + 1 ≡ length table.old.free }
{
    table.insert(1)
}

pub fn table_try_insert(table: &mut Table) -> Result<SlotTableKey, u64>
    ensures count { IsOk result → held_count table.new ≡ held_count table.old + 1 }
    ensures room { IsOk result → length table.new.free + 1 ≡ length table.old.free }
{
    table.try_insert(1)
}

pub fn table_insert_at(table: &mut Table, key: SlotTableKey)
    requires { IsFree table.old key }
    ensures count { held_count table.new ≡ held_count table.old + 1 }
    ensures room { length table.new.free + 1 ≡ length table.old.free }
{
    let _ = table.insert_at(key, 1);
}

pub fn table_replace(table: &mut Table, key: SlotTableKey)
    requires { IsHeld table.old key }
    ensures count { held_count table.new ≡ held_count table.old }
    ensures room { length table.new.free ≡ length table.old.free }
{
    let _ = table.insert_at(key, 1);
}

pub fn table_try_insert_at(table: &mut Table, key: SlotTableKey)
    requires { IsFree table.old key }
    ensures count { held_count table.new ≡ held_count table.old + 1 }
    ensures room { length table.new.free + 1 ≡ length table.old.free }
{
    let _replaced = table.try_insert_at(key, 1);
}

pub fn table_remove(table: &mut Table, key: SlotTableKey) -> Option<u64>
    ensures count { IsSome result → held_count table.new + 1 ≡ held_count table.old }
    ensures room { IsSome result → length table.new.free ≡ length table.old.free + 1 }
{
    table.remove(key)
}

pub fn table_exchange(table: &mut Table, key: SlotTableKey) -> Option<SlotTableKey>
    ensures { IsHeld table.old key → held_count table.new ≡ held_count table.old }
{
    table.remove(key);
    table.insert(1)
}

pub fn table_retain(table: &mut Table)
    ensures count { held_count table.new ≤ held_count table.old }
    ensures room { length table.old.free ≤ length table.new.free }
{
    table.retain(|_, value| *value != 3);
}

pub fn table_clear(table: &mut Table)
    ensures count { held_count table.new ≡ 0 }
    ensures room { length table.new.free ≡ 8 }
{
    table.clear();
}

pub fn table_drain(table: &mut Table)
    ensures count { held_count table.new ≡ 0 }
    ensures room { length table.new.free ≡ length table.old.values }
{
    table.drain();
}

// Slot maps.

pub fn slot_map_insert(map: &mut Map) -> Option<SlotMapKey>
    ensures count { IsSome result → slot_map_len map.new ≡ slot_map_len map.old + 1 }
    ensures room { IsSome result → length map.new.slots.free + 1 ≡ length map.old.slots.free }
{
    map.insert(1)
}

pub fn slot_map_try_insert(map: &mut Map) -> Result<SlotMapKey, u64>
    ensures count { IsOk result → slot_map_len map.new ≡ slot_map_len map.old + 1 }
    ensures room { IsOk result → length map.new.slots.free + 1 ≡ length map.old.slots.free }
{
    map.try_insert(1)
}

pub fn slot_map_insert_at(map: &mut Map, index: usize)
    requires { IsFree map.old.slots index }
    ensures count { slot_map_len map.new ≡ slot_map_len map.old + 1 }
    ensures room { length map.new.slots.free + 1 ≡ length map.old.slots.free }
{
    let _ = map.insert_at(index, 1);
}

pub fn slot_map_replace(map: &mut Map, index: usize)
    requires { IsSome (place_value map.old index) }
    ensures count { slot_map_len map.new ≡ slot_map_len map.old }
    ensures room { length map.new.slots.free ≡ length map.old.slots.free }
{
    let _replaced = map.try_insert_at(index, 1);
}

pub fn slot_map_remove(map: &mut Map, key: SlotMapKey) -> Option<u64>
    ensures count { IsSome result → slot_map_len map.new + 1 ≡ slot_map_len map.old }
    ensures room { IsSome result → key.generation < greatest_generation
        → length map.new.slots.free ≡ length map.old.slots.free + 1 }
    ensures grows { length map.old.slots.free ≤ length map.new.slots.free }
{
    map.remove(key)
}

pub fn slot_map_retain(map: &mut Map)
    ensures count { slot_map_len map.new ≤ slot_map_len map.old }
    ensures grows { length map.old.slots.free ≤ length map.new.slots.free }
{
    map.retain(|_, value| *value != 3);
}

pub fn slot_map_clear(map: &mut Map)
    ensures count { slot_map_len map.new ≡ 0 }
    ensures room { retired_count map.new + length map.new.slots.free ≡ length map.old.slots.values }
{
    map.clear();
}

pub fn slot_map_drain(map: &mut Map, key: SlotMapKey)
    ensures count { slot_map_len map.new ≡ 0 }
    ensures grows { length map.old.slots.free ≤ length map.new.slots.free }
    ensures killed { IsSome (slot_map_value map.old key) → IsDead map.new key }
    ensures dead { IsDead map.old key → IsDead map.new key }
{
    map.drain();
}

pub fn slot_map_drain_one(map: &mut Map, key: SlotMapKey)
    ensures { IsSome (slot_map_value map.old key) → IsDead map.new key }
{
    let mut drain = map.drain();
    drain.next();
}

pub fn slot_map_cleared(map: &Map, key: SlotMapKey)
    ensures { IsSome (slot_map_value map.now key) → IsDead (slot_map_clear map.now) key }
{
    prove!(map.len() <= map.capacity());
    cleared_keys_law::<u64>();
}

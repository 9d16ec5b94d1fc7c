//! Calls with a closure that computes a test or a value, and stays as it was.
ghost use Rattle.std.specs.Prelude.{◌≡◌, ◌↔◌, ◌/◌, ◌==◌, ◌||◌, ℕ, [], None, IsNone, not, nat_eq, nat_lt, true, Contains, filter, map, option_map, unwrap_or, IfOk, IfSome, OnOk};
ghost use Rattle.std.specs.List.{All, range_with_len};
ghost use Rattle.ix_tables.specs.Bounded.{with_items};
ghost use Rattle.ix_vector.specs.VectorSteps.{vec_resize};
ghost use Rattle.ix_slottable.specs.SlotTableState.{value_at};
ghost use Rattle.ix_slottable.specs.SlotTableCalls.{option_filter};
ghost use Rattle.ix_slotmap.specs.Generations.{SlotKey, slot_map_value};
ghost use Rattle.ix_flatmap.specs.MapState.{map_value, map_items};

use ix_flatmap::{FixedSizeFlatMap, KeyIndex, MetaMap, Pair};
use ix_hashmap::FixedSizeHashMap;
use ix_queue::FixedSizeQueue;
use ix_slotmap::FixedSizeSlotMap;
use ix_slottable::{FixedSizeSlotTable, Storage};
use ix_string::String;
use ix_vector::{PolymorphicVec, StaticVec, Vector, VectorModificationError};
use std::alloc::{AllocError, Allocator};

/// Drops the elements of a queue that equal `key`.
pub fn without(queue: &mut FixedSizeQueue<u64, 8>, key: u64)
    ensures { queue.new ≡ with_items queue.old (filter (λ x. not (x == key)) queue.old.items) }
{
    queue.retain(|x| *x != key);
}

/// Drops the elements of a queue that equal one of two.
pub fn without_two(queue: &mut FixedSizeQueue<u64, 8>, key: u64, other: u64)
    ensures { queue.new.items ≡ filter (λ x. not (x == key || x == other)) queue.old.items }
{
    queue.retain(|x| *x != key && *x != other);
}

/// Halves each element of a queue.
pub fn halve(queue: &mut FixedSizeQueue<u64, 8>)
    ensures { queue.new.items ≡ map (λ x. x / 2) queue.old.items }
{
    queue.for_each_mut(|x| *x /= 2);
}

/// Drops the elements of a fixed vector that equal `key`.
pub fn static_without(vector: &mut StaticVec<u64, 8>, key: u64)
    ensures { vector.new ≡ filter (λ x. not (x == key)) vector.old }
{
    vector.retain(|x| *x != key);
}

/// Drops the elements of a fixed vector that equal `key`, so that each that is left is another.
#[tactic(auto, using(std::proofs::lemmas::List::Elements::filter_passes))]
pub fn keep_others(vector: &mut StaticVec<u64, 8>, key: u64)
    ensures { All (λ x. not (x == key) ≡ true) vector.new }
{
    static_without(vector, key);
}

/// Drops the elements of a fixed vector that equal `key`, so that it has none.
pub fn forget(vector: &mut StaticVec<u64, 8>, key: u64)
    ensures { ¬ (Contains vector.new key) }
{
    static_without(vector, key);
}

/// Drops the elements of a vector of any kind that are less than `least`.
pub fn drop_below<V: Vector<u64>>(vector: &mut V, least: u64)
    ensures { (V.bounded vector.new).items
        ≡ filter (λ x. not (nat_lt x least)) (V.bounded vector.old).items }
{
    vector.retain(|x| *x >= least);
}

/// Resizes a vector with copies of an element.
pub fn resize_with_copies<V: Vector<u64>>(
    vector: &mut V,
    n: usize,
    item: u64,
) -> Result<(), VectorModificationError>
    ensures { OnOk result (V.bounded vector.new ≡ vec_resize (V.bounded vector.old) n item) }
{
    vector.resize_with(n, || item)
}

/// Returns the halves of the first numbers.
pub fn halves<A: Allocator>(alloc: A, n: usize) -> Result<PolymorphicVec<usize, A>, AllocError>
    ensures { IfOk result (λ vector. vector.items ≡ map (λ i. i / 2) (range_with_len 0 n)) }
{
    PolymorphicVec::from_fn(alloc, n, |i| i / 2)
}

/// Removes a byte from a string of any kind, wherever it is.
pub fn without_byte<S: String>(string: &mut S, unwanted: u8)
    ensures { (S.bounded string.new).items
        ≡ filter (λ byte. not (byte == unwanted)) (S.bounded string.old).items }
{
    string.retain(|byte| byte == unwanted);
}

/// Removes the values of a slot table that are less than `least`.
pub fn table_drop_below(table: &mut FixedSizeSlotTable<u64, 8>, least: u64)
    ensures { (key : ℕ) → value_at table.new key
        ≡ option_filter (λ value. not (nat_lt value least)) (value_at table.old key) }
{
    table.retain(|_, value| *value >= least);
}

/// Halves each value of a slot table.
pub fn table_halve(table: &mut FixedSizeSlotTable<u64, 8>)
    ensures { (key : ℕ) → value_at table.new key
        ≡ option_map (λ value. value / 2) (value_at table.old key) }
{
    table.for_each_mut(|_, value| *value /= 2);
}

/// Removes the values of a slot map that are less than `least`.
pub fn map_drop_below(map: &mut FixedSizeSlotMap<u64, 8>, least: u64)
    ensures { (key : SlotKey) → slot_map_value map.new key
        ≡ option_filter (λ value. not (nat_lt value least)) (slot_map_value map.old key) }
{
    map.retain(|_, value| *value >= least);
}

/// Halves each value of a slot map.
pub fn map_halve(map: &mut FixedSizeSlotMap<u64, 8>)
    ensures { (key : SlotKey) → slot_map_value map.new key
        ≡ option_map (λ value. value / 2) (slot_map_value map.old key) }
{
    map.for_each_mut(|_, value| *value /= 2);
}

/// Removes the keys of a flat map whose values are less than `least`.
pub fn flat_drop_below(map: &mut FixedSizeFlatMap<u64, u64, 8>, least: u64)
    ensures { (key : ℕ) → map_value nat_eq map.new key
        ≡ option_filter (λ value. not (nat_lt value least)) (map_value nat_eq map.old key) }
{
    map.retain(|_, value| *value >= least);
}

/// Removes a key of a map of any kind.
pub fn flat_without<M: Storage<Pair<u64, u64>>, I: KeyIndex<u64, u64>>(
    map: &mut MetaMap<Pair<u64, u64>, M, I>,
    unwanted: u64,
)
    ensures { map_items map.new ≡ filter (λ item. not (item.0 == unwanted)) (map_items map.old) }
{
    map.retain(|key, _| *key != unwanted);
}

/// Halves each value of a flat map.
pub fn flat_halve(pairs: &mut FixedSizeFlatMap<u64, u64, 8>)
    ensures values { (key : ℕ) → map_value nat_eq pairs.new key
        ≡ option_map (λ value. value / 2) (map_value nat_eq pairs.old key) }
    ensures items { map_items pairs.new
        ≡ map (λ item. (item.0, item.1 / 2)) (map_items pairs.old) }
{
    pairs.for_each_mut(|_, value| *value /= 2);
}

/// Removes the keys of a hash map whose values are less than `least`.
pub fn hash_drop_below(map: &mut FixedSizeHashMap<u64, u64, 8>, least: u64)
    ensures { (key : ℕ) → map_value nat_eq map.new key
        ≡ option_filter (λ value. not (nat_lt value least)) (map_value nat_eq map.old key) }
{
    map.retain(|_, value| *value >= least);
}

/// Removes a key of a hash map.
pub fn hash_without(map: &mut FixedSizeHashMap<u64, u64, 8>, unwanted: u64)
    ensures { map_items map.new ≡ filter (λ item. not (item.0 == unwanted)) (map_items map.old) }
{
    map.retain(|key, _| *key != unwanted);
}

/// Halves each value of a hash map.
pub fn hash_halve(map: &mut FixedSizeHashMap<u64, u64, 8>)
    ensures { (key : ℕ) → map_value nat_eq map.new key
        ≡ option_map (λ value. value / 2) (map_value nat_eq map.old key) }
{
    map.for_each_mut(|_, value| *value /= 2);
}

/// Returns the value of a key of a hash map, which is `new` if it was not there; or `None` if there is no room.
pub fn hash_value_or(map: &mut FixedSizeHashMap<u64, u64, 8>, key: u64, new: u64) -> Option<u64>
    ensures value { IfSome result (λ value. value ≡ unwrap_or (map_value nat_eq map.old key) new) }
    ensures full { IsNone result ↔ ((map_value nat_eq map.old key ≡ None) × (map.old.free ≡ [])) }
{
    match map.get_or_insert_with(key, || new) {
        Ok(value) => Some(*value),
        Err(_) => None,
    }
}

/// Returns the value of a key, which is 0 if it is new; or `None` if there is no room.
pub fn value_or_zero(map: &mut FixedSizeFlatMap<u64, u64, 8>, key: u64) -> Option<u64>
    ensures { IfSome result (λ value. value ≡ unwrap_or (map_value nat_eq map.old key) 0) }
{
    match map.get_or_insert_with(key, || 0) {
        Ok(value) => Some(*value),
        Err(_) => None,
    }
}

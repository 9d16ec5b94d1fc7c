//! Maps from strings in JSON.
ghost use Rattle.std.specs.Prelude.{◌≡◌, ◌≢◌, ◌≤◌, ℕ, [], length, Ok, Err, IfOk, IfErr, IsOk, OnOk};
ghost use Rattle.std.specs.List.{AllByRecursion};
ghost use Rattle.std.specs.Result.{IsOkAnd, result_map_both};
ghost use Rattle.serde_json.specs.View.{view, members_view};
ghost use Rattle.ix_string.specs.Text.{text_eq};
ghost use Rattle.ix_flatmap.specs.MapState.{HasDistinctKeys, map_items};
ghost use Rattle.ix_json.specs.JsonTree.{bytes_read, object_tree, members_read, new_key, map_with};
ghost use Rattle.ix_json.specs.inner.Objects.{IsItemReadBack};
ghost use Rattle.ix_json.specs.declared.json.json_fault.JsonFault.TheVariants.{OutOfMemory};

use crate::json::texts::{string_from_text, text_from_string};
use crate::json::{JsonFault, JsonFill, JsonForm, JsonItem};
use ix_flatmap::{HeapMap, InlineIndex, InlineMap, KeyIndex, MetaMap, Pair};
use ix_slottable::Storage;
use ix_string::StaticString;
use serde_json::{Map, Value};
use std::alloc::{Allocator, Global};

/// Returns the object of the forms of the values, each at its key.
fn map_to_value<
    V: JsonItem + Drop,
    M: Storage<Pair<StaticString<N>, V>>,
    I: KeyIndex<StaticString<N>, V>,
    const N: usize,
>(map: &MetaMap<Pair<StaticString<N>, V>, M, I>, alloc: Global) -> Result<Value, JsonFault>
    ensures value { IfOk result (λ value. view value ≡ object_tree V.tree (map_items map.now)) }
    ensures read_back { IsOk result
        → AllByRecursion (IsItemReadBack N V.tree V.read) (map_items map.now) }
    ensures distinct { HasDistinctKeys text_eq map.now }
    ensures fault { IfErr result (λ fault. fault ≡ OutOfMemory) }
    ensures memory { map_items map.now ≡ [] → IsOk result }
{
    let mut members = Map::new(alloc);
    for (key, value) in map.iter() {
        let name = text_from_string(key, alloc)?;
        let member = value.to_value(alloc)?;
        let Ok(previous) = members.insert(name, member) else {
            return Err(JsonFault::OutOfMemory);
        };
        drop(previous);
    }
    Ok(Value::Object(members))
}

/// Returns the error of the first member that has one. A key that the map already has is an error too.
fn check_members<
    V: JsonForm + Drop,
    M: Storage<Pair<StaticString<N>, V>>,
    I: KeyIndex<StaticString<N>, V>,
    const N: usize,
>(
    map: &MetaMap<Pair<StaticString<N>, V>, M, I>,
    members: &Map<std::string::String, Value>,
) -> Result<(), JsonFault>
    ensures value { result ≡ result_map_both (λ _. tt) (λ fault. fault)
        (members_read (λ key. new_key map.now (bytes_read N key)) V.read
        (members_view members.now.entries)) }
    ensures memory { result ≢ Err OutOfMemory }
{
    for (name, member) in members.iter() {
        let key = string_from_text(name.as_str())?;
        if map.contains(&key) {
            return Err(JsonFault::InvalidContent);
        }
        drop(V::from_value(member)?);
    }
    Ok(())
}

/// Inserts the keys and values that the members are read as, up to the first member that has an error.
fn insert_members<
    V: JsonForm + Drop,
    M: Storage<Pair<StaticString<N>, V>>,
    I: KeyIndex<StaticString<N>, V>,
    const N: usize,
>(
    map: &mut MetaMap<Pair<StaticString<N>, V>, M, I>,
    members: &Map<std::string::String, Value>,
) -> Result<(), JsonFault>
    ensures map { OnOk result (result_map_both (map_with map.old) (λ fault. fault)
        (members_read (bytes_read N) V.read (members_view members.now.entries)) ≡ Ok map.new) }
    ensures fault { IfErr result (λ fault. result_map_both (map_with map.old) (λ fault. fault)
        (members_read (bytes_read N) V.read (members_view members.now.entries)) ≡ Err fault) }
    ensures memory { result ≢ Err OutOfMemory }
{
    for (name, member) in members.iter() {
        let key = string_from_text(name.as_str())?;
        let value = V::from_value(member)?;
        drop(map.insert(key, value));
    }
    Ok(())
}

/// An object with a member for each key: the key as a string, and the form of the value. Members are in the order of their keys.
///
/// Reading inserts the members in that order. It returns [`JsonFault::WrongKind`] if the value is not an object, and otherwise
/// [`JsonFault::TooLong`] if it has more than `CAPACITY` members. Otherwise it returns the error of the first member that has one:
/// that of its key, as of a [`StaticString`], or else that of its value. Members after that one are not read.
///
/// The slot order of the map that is read is the order of its keys. So a map is read back as it was if inserting its keys in their
/// order into a new map makes the same map. Any other map is read back with the same keys and values, maybe in other slots.
///
/// O(`CAPACITY`), and as much again for each member, with as many calls of the values' conversion as there are keys.
impl<
    V: JsonItem + Drop,
    I: InlineIndex<StaticString<N>, V, CAPACITY> + Drop,
    const N: usize,
    const CAPACITY: usize,
> JsonForm for InlineMap<StaticString<N>, V, CAPACITY, I>
where
    I::Setup: Default,
{
    ghost use Rattle.ix_slottable.specs.SlotTableState.{slot_table_new};
    ghost use Rattle.ix_json.specs.JsonTree.{object_filled, by_key, HasSameEntries};

    ghost tree = { λ map. object_tree V.tree (map_items map) };

    ghost read = { object_filled N V.read (slot_table_new CAPACITY) };

    ghost is_read_back = { λ map. map_with (slot_table_new CAPACITY) (by_key (map_items map)) ≡ map };

    ghost keeps = { λ map again. length map.values ≡ CAPACITY → IsOkAnd again (HasSameEntries map) };

    ghost is_infallible = { λ map. map_items map ≡ [] };

    fn to_value(&self, alloc: Global) -> Result<Value, JsonFault> {
        map_to_value(self, alloc)
    }

    fn from_value(value: &Value) -> Result<Self, JsonFault> {
        let Some(members) = value.as_object() else {
            return Err(JsonFault::WrongKind);
        };
        if members.len() > CAPACITY {
            return Err(JsonFault::TooLong);
        }
        let mut map = InlineMap::default();
        insert_members(&mut map, members)?;
        Ok(map)
    }
}

/// An object with a member for each key: the key as a string, and the form of the value. Members are in the order of their keys.
///
/// Reading inserts the members in that order. It returns [`JsonFault::WrongKind`] if the value is not an object, and otherwise
/// [`JsonFault::TooLong`] if it has more members than there is room for. Otherwise it returns the error of the first member that
/// has one: that of its key, as of a [`StaticString`], or [`JsonFault::InvalidContent`] if the map has the key, or else that of its
/// value. Members after that one are not read.
///
/// A map that is written and emptied can be filled with the same keys and values again. Each is in the slot that it had if the keys
/// were removed in the reverse of their order.
///
/// O(capacity) for each member. Writing calls the values' conversion once for each key, and reading twice for each member, since
/// all are tried before the first is inserted.
impl<V: JsonItem + Drop, A: Allocator, I: KeyIndex<StaticString<N>, V>, const N: usize> JsonFill
    for HeapMap<StaticString<N>, V, A, I> {
    ghost use Rattle.ix_slottable.specs.SlotTableState.{slot_table_new};
    ghost use Rattle.ix_json.specs.JsonTree.{object_filled, by_key, map_without, HasSameEntries};

    ghost tree = { λ map. object_tree V.tree (map_items map) };

    ghost filled = { object_filled N V.read };

    ghost emptied = { λ map. map_without map (by_key (map_items map)) };

    ghost keeps = { λ map filled_with. (capacity : ℕ) → length (map_items map) ≤ capacity
        → IsOkAnd (filled_with (slot_table_new capacity)) (HasSameEntries map) };

    ghost is_infallible = { λ map. map_items map ≡ [] };

    fn to_value(&self, alloc: Global) -> Result<Value, JsonFault> {
        map_to_value(self, alloc)
    }

    fn fill_from_value(&mut self, value: &Value) -> Result<(), JsonFault> {
        let Some(members) = value.as_object() else {
            return Err(JsonFault::WrongKind);
        };
        if members.len() > self.capacity() - self.len() {
            return Err(JsonFault::TooLong);
        }
        check_members(self, members)?;
        insert_members(self, members)
    }
}

//! Names as keys: clauses about maps from strings.
ghost use Rattle.std.specs.Prelude.{◌≡◌, ◌↔◌, ℕ, ◌-◌, List, [], length, Some, IsSome, IsNone, IfSome, IsTrue, false, slice_get};
ghost use Rattle.ix_tables.specs.Bounded.{Bounded};
ghost use Rattle.ix_flatmap.specs.MapState.{map_items, map_value};
ghost use Rattle.ix_string.specs.Text.{text_eq};

use ix_flatmap::FixedSizeFlatMap;
use ix_hashmap::{FixedSizeHashMap, HashMap};
use ix_slotmap::SlotMapKey;
use ix_string::{PolymorphicString, StaticString};
use std::alloc::Allocator;

/// The handles of at most 8 services, by their names.
pub type Handles = FixedSizeFlatMap<StaticString<32>, SlotMapKey, 8>;

/// Notes the handle of a service. Returns `false` if there is a service with this name, or no room.
pub fn note(handles: &mut Handles, name: StaticString<32>, handle: SlotMapKey) -> bool
    ensures held { IsTrue result → map_value text_eq handles.new name ≡ Some handle }
    ensures kept { (other : List ℕ) → text_eq other name ≡ false
        → map_value text_eq handles.new other ≡ map_value text_eq handles.old other }
{
    handles.insert(name, handle).is_ok()
}

/// Returns the handle of a service, or `None` if there is no service with this name.
pub fn handle_of(handles: &Handles, name: &StaticString<32>) -> Option<SlotMapKey>
    ensures { result ≡ map_value text_eq handles.now name.now }
{
    handles.get_ref(name).copied()
}

/// Does the same as [`handle_of`], for a string of any length.
pub fn handle_named(handles: &Handles, name: &str) -> Option<SlotMapKey>
    ensures { result ≡ map_value text_eq handles.now name.now }
{
    handles.get_str(name).copied()
}

/// Does the same as [`handle_named`], for a hash map.
pub fn hashed_handle_named(
    handles: &FixedSizeHashMap<StaticString<32>, SlotMapKey, 8>,
    name: &str,
) -> Option<SlotMapKey>
    ensures { result ≡ map_value text_eq handles.now name.now }
{
    handles.get_str(name).copied()
}

/// Returns `true` if a map whose keys are strings in memory has a name with these bytes.
pub fn has_name<A: Allocator + Copy>(
    handles: &HashMap<PolymorphicString<A>, u64, A>,
    name: &[u8],
) -> bool
    ensures { (key : Bounded ℕ) → key.items ≡ name.now
        → (IsTrue result ↔ IsSome (map_value (λ (own other : Bounded ℕ). text_eq own.items other.items) handles.now key)) }
{
    handles.get_bytes(name).is_some()
}

/// Returns the last name in slot order with its handle, or `None` if there is no service.
pub fn last_of(handles: &Handles) -> Option<(&StaticString<32>, &SlotMapKey)>
    ensures none { IsNone result → map_items handles.now ≡ [] }
    ensures last { IfSome result (λ item.
        slice_get (map_items handles.now) (length (map_items handles.now) - 1) ≡ Some (item.0.now, item.1.now)) }
{
    handles.iter().rev().next()
}

/// Takes a map apart, and returns its first name with its handle.
pub fn first_of(handles: Handles) -> Option<(StaticString<32>, SlotMapKey)>
    ensures { result ≡ slice_get (map_items handles) 0 }
{
    let mut items = handles.into_iter();
    items.next()
}

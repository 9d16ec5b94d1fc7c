//! Slot maps: bounded maps that choose the key of each value. A value is found by its key in constant time until it is removed. A
//! key has a generation, so that a key which was removed or replaced never finds the value of another key.
//!
//! [`FixedSizeSlotMap`] is stored inline. [`SlotMap`] and [`RelocatableSlotMap`] allocate only when they are made.

mod clone;
mod content;
mod debug;
mod drain;
mod eq;
mod index;
mod iter;
mod keys;
mod kinds;
mod meta_slot_map;
mod places;
mod retain;
mod slot_map_key;
mod storage;
mod teardown;
mod try_insert;
mod values;
mod word_table;

pub use content::Content;
pub use drain::Drain;
pub use iter::Iter;
pub use keys::Keys;
pub use kinds::{FixedSizeSlotMap, RelocatableSlotMap, SlotMap, UninitSlotMap};
pub use meta_slot_map::{MetaSlotMap, cleared_keys_law, dead_keys_law};
pub use slot_map_key::{SlotMapKey, default_key_law, key_order_law};
pub use storage::SlotMapStorage;
pub(crate) use teardown::drop_values;
pub use values::Values;
pub(crate) use word_table::{RETIRED, WordTable};

//! Slot tables: bounded tables that choose the key of each value. A value is found by its key in constant time.
//!
//! [`FixedSizeSlotTable`] is stored inline. [`SlotTable`] and [`RelocatableSlotTable`] allocate only when they are made.

mod clone;
mod drain;
mod eq;
mod free_list;
mod index;
mod into_iter;
mod iter;
mod keys;
mod kinds;
mod link;
mod meta_slot_table;
mod part;
mod retain;
mod slot_table_key;
mod steps;
mod storage;
mod try_insert;
mod values;

pub use drain::Drain;
pub use into_iter::IntoIter;
pub use iter::Iter;
pub use keys::Keys;
pub use kinds::{
    FixedSizeSlotTable, RelocatableSlotTable, SlotTable, SlotTableFamily, UninitSlotTable,
};
pub use link::Link;
pub use meta_slot_table::MetaSlotTable;
pub use part::{Part, Whole};
pub use slot_table_key::{SlotTableKey, default_key_law};
pub use storage::{Heap, Inline, Storage};
pub use values::{Parts, Values};

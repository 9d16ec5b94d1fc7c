//! Slot tables: bounded tables that choose the key of each value. A value is found by its key in constant time.
//!
//! A slot table is generic over its [`Storage`], which is inline or allocated. The kinds of slot tables are aliases of one type.
//! Contracts see a list of optional values and the list of free keys.
#![tactic(auto)]

pub mod slottable;

pub use ix_tables::RelocatableContainer;
pub use slottable::{
    FixedSizeSlotTable, Heap, Inline, Link, MetaSlotTable, RelocatableSlotTable, SlotTable,
    SlotTableFamily, SlotTableKey, Storage, UninitSlotTable,
};

//! Slot maps: bounded maps that choose the key of each value. A value is found by its key in constant time until it is removed. No
//! key is assigned twice.
#![tactic(auto)]

pub mod slotmap;

pub use ix_tables::RelocatableContainer;
pub use slotmap::{
    Content, FixedSizeSlotMap, MetaSlotMap, RelocatableSlotMap, SlotMap, SlotMapKey,
    SlotMapStorage, UninitSlotMap,
};

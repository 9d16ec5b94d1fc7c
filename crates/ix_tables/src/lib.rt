//! Tables, under queues and maps: fixed rows of places, each empty or holding one item.
//!
//! A [`Table`] is inline ([`InlineTable`]) or allocates only when it is made ([`HeapTable`]), so one container serves every
//! kind of storage. Contracts see a table as a list of optional items, whatever memory they lie in.
#![tactic(auto)]

pub mod cells;

pub use cells::{
    Array, ContainerFamily, Counted, FilledHeapTable, FilledInlineTable, HeapArray, HeapTable,
    InitError, InlineArray, InlineTable, MAX_FIXED_CAPACITY, MaybeMoved, MemorySize, RawSlots,
    RelocatableContainer, Table, Touches, Uninit,
};

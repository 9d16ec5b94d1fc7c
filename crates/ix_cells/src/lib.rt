//! Storage with a capacity that is set when it is made: vectors, and the tables under queues and maps.
//!
//! Each is in its own crate, [`ix_vector`] and [`ix_tables`], which this crate re-exports.
#![tactic(auto)]

pub use ix_tables::{
    Array, ContainerFamily, Counted, FilledHeapTable, FilledInlineTable, HeapArray, HeapTable,
    InitError, InlineArray, InlineTable, MAX_FIXED_CAPACITY, MaybeMoved, MemorySize, RawSlots,
    RelocatableContainer, Table, Touches, Uninit, cells,
};
pub use ix_vector::{
    PolymorphicVec, RelocatableVec, StaticVec, StaticVecIntoIter, UninitVec, VecFamily, Vector,
    VectorModificationError, vector,
};

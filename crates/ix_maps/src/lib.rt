//! Containers over tables: queues, slot tables, slot maps, flat maps and hash maps.
//!
//! Each container has a crate of its own, which this crate re-exports: [`ix_queue`], [`ix_slottable`], [`ix_slotmap`],
//! [`ix_flatmap`] and [`ix_hashmap`].
#![tactic(auto)]

pub use ix_flatmap::{
    Bound, CallbackProgression, FixedSizeFlatMap, FlatMap, FlatMapError, FlatMapFamily, HeapIndex,
    HeapMap, InlineIndex, InlineMap, KeyIndex, Keyed, Keys, MapError, MetaFlatMap, MetaMap, Pair,
    PairIndex, RelocatableFlatMap, UninitFlatMap, flatmap, map,
};
pub use ix_hashmap::{
    Buckets, ChainLink, DefaultHashBuilder, FixedSizeHashMap, HashMap, HashMapFamily,
    HashMapStorage, Hashed, MetaHashMap, RelocatableHashMap, UninitHashMap, WithHasher, hashmap,
};
pub use ix_queue::{
    FixedSizeQueue, MetaQueue, Queue, QueueFamily, RelocatableQueue, UninitQueue, queue,
};
pub use ix_slotmap::{
    Content, FixedSizeSlotMap, MetaSlotMap, RelocatableSlotMap, SlotMap, SlotMapKey,
    SlotMapStorage, UninitSlotMap, slotmap,
};
pub use ix_slottable::{
    FixedSizeSlotTable, Heap, Inline, Link, MetaSlotTable, RelocatableSlotTable, SlotTable,
    SlotTableFamily, SlotTableKey, Storage, UninitSlotTable, slottable,
};
pub use ix_tables::RelocatableContainer;

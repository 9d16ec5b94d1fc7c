//! Bounded maps from keys of your own to values.
//!
//! [`map`] has the map over any index by which a key is found, and the traits that an index implements. [`flatmap`] has the kinds
//! of flat maps, whose keys need only be compared for equality. The kinds of hash maps are in `ix_hashmap`.
#![tactic(auto)]

pub mod flatmap;
pub mod map;

pub use flatmap::{
    Bound, FixedSizeFlatMap, FlatMap, FlatMapError, FlatMapFamily, MetaFlatMap, RelocatableFlatMap,
    UninitFlatMap,
};
pub use ix_tables::RelocatableContainer;
pub use map::{
    CallbackProgression, HeapIndex, HeapMap, InlineIndex, InlineMap, KeyIndex, Keyed, Keys,
    MapError, MetaMap, Pair, PairIndex,
};

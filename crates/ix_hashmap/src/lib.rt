//! Hash maps: bounded maps from keys of your own that implement `Hash`. They have the methods of
//! [`MetaMap`](ix_flatmap::map::MetaMap).
#![tactic(auto)]

pub mod hashmap;

pub use hashmap::{
    Buckets, CallbackProgression, ChainLink, DefaultHashBuilder, FixedSizeHashMap, HashMap,
    HashMapFamily, HashMapStorage, Hashed, MapError, MetaHashMap, Pair, RelocatableHashMap,
    UninitHashMap, WithHasher,
};
pub use ix_tables::RelocatableContainer;

//! Hash maps: bounded maps from keys of your own to values, for keys that implement `Hash`.
//!
//! [`FixedSizeHashMap`] is stored inline. [`HashMap`] and [`RelocatableHashMap`] allocate only when they are made. They have the
//! methods of [`MetaMap`](ix_flatmap::map::MetaMap), and the methods with a key take O(1) time on average. If your program writes
//! `for (key, value) in &map`, list `ix_flatmap` in `crates.txt` too.

mod buckets;
mod chain_link;
mod chain_table;
mod hashed;
mod kinds;
mod search;
mod storage;

pub use buckets::Buckets;
pub use chain_link::ChainLink;
pub use hashed::Hashed;
pub use ix_flatmap::map::{CallbackProgression, Drain, IntoIter, MapError, Pair};
pub use kinds::{
    DefaultHashBuilder, FixedSizeHashMap, HashMap, HashMapFamily, MetaHashMap, RelocatableHashMap,
    UninitHashMap, WithHasher, hash_map_memory_law,
};
pub use storage::HashMapStorage;

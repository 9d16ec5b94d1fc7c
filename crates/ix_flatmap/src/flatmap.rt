//! Flat maps: bounded maps from keys of your own to values, for keys that can only be compared for equality.
//!
//! [`FixedSizeFlatMap`] is stored inline. [`FlatMap`] and [`RelocatableFlatMap`] allocate only when they are made. They have the
//! methods of [`MetaMap`](crate::map::MetaMap).

mod bound;
mod kinds;
mod search;

pub use crate::map::{
    CallbackProgression, Drain, IntoIter, Iter, Keyed, Keys, MapError, MapError as FlatMapError,
    Pair, Values,
};
pub use bound::Bound;
pub use kinds::{
    FixedSizeFlatMap, FlatMap, FlatMapFamily, MetaFlatMap, RelocatableFlatMap, UninitFlatMap,
};
#[doc(hidden)]
pub use search::{find_bytes, find_in_order};

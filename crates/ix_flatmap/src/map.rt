//! The map under flat maps and hash maps, with their methods: a bounded map from keys of your own to values.
//!
//! It finds keys by an index ([`KeyIndex`]): the index of flat maps, the index of hash maps, or one of your own.

mod callback_progression;
mod clone;
mod drain;
mod eq;
mod index;
mod into_iter;
mod iter;
mod key_index;
mod keys;
mod kinds;
mod map_error;
mod meta_map;
mod pair;
mod retain;
mod try_insert;
mod values;

pub use callback_progression::CallbackProgression;
pub use drain::Drain;
pub use into_iter::IntoIter;
pub use iter::Iter;
pub use key_index::{HeapIndex, InlineIndex, KeyIndex, PairIndex};
pub use keys::{Keys, PairKey};
pub use kinds::{HeapMap, InlineMap};
pub use map_error::MapError;
pub use meta_map::MetaMap;
pub use pair::{IntoItem, Keyed, Pair};
pub use values::{PairValue, Values};

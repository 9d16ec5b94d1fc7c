//! Tables: fixed rows of places, each empty or holding one item.
//!
//! A [`Table`] is stored inline ([`InlineTable`], [`FilledInlineTable`]) or allocates only when it is made ([`HeapTable`],
//! [`FilledHeapTable`]). An [`Array`] has an item in each place ([`InlineArray`], [`HeapArray`]). [`Counted`] counts the calls on a
//! table or an array. This module also has the parts of containers with two-phase initialisation.

mod array;
mod counted;
mod filled;
mod filled_heap_table;
mod filled_inline_table;
#[doc(hidden)]
pub mod full_array;
mod heap_array;
mod heap_table;
mod held_item;
mod inline_array;
mod inline_table;
mod maybe_moved;
mod memory_size;
pub(crate) mod raw_row;
mod raw_slots;
mod relocatable_container;
mod table;
mod uninit;

pub use array::Array;
pub use counted::{Counted, Touches};
pub use filled_heap_table::FilledHeapTable;
pub use filled_inline_table::FilledInlineTable;
pub use heap_array::HeapArray;
pub use heap_table::HeapTable;
pub use inline_array::InlineArray;
pub use inline_table::InlineTable;
pub use maybe_moved::MaybeMoved;
pub use memory_size::MemorySize;
#[doc(hidden)]
pub use raw_row::{RowGrant, RowOwner, RowPtr};
pub use raw_slots::RawSlots;
pub use relocatable_container::{InitError, RelocatableContainer};
pub use table::{MAX_FIXED_CAPACITY, Table};
pub use uninit::{ContainerFamily, Uninit};

//! Values with an encoding of a fixed number of bytes, and cells that store it byte by byte.
//!
//! [`FixedSizeByteAtomic`] is stored inline. [`RelocatableByteAtomic`] is initialised in two phases and allocates once. A struct is
//! stored as its fields are, by [`AtomicFields`] and [`Fields`]. [`Ruled`] gives a rule to values of a type.
//!
//! [`pack_word`] makes one number of up to eight bytes, and [`unpack_word`] writes its bytes.

mod atomic_copy;
mod atomic_fields;
mod fixed_size_byte_atomic;
mod fixed_strings;
mod integers;
mod maybe_torn;
mod other_integers;
mod pairs;
mod relocatable_byte_atomic;
mod ruled;
pub mod steps;
mod unit_and_bool;
mod value_arrays;
mod words;

pub use atomic_copy::AtomicCopy;
pub use atomic_fields::{AtomicFields, Fields};
pub use fixed_size_byte_atomic::FixedSizeByteAtomic;
pub use maybe_torn::MaybeTorn;
pub use relocatable_byte_atomic::{RelocatableByteAtomic, UninitByteAtomic};
pub use ruled::{Ruled, ValueRule};
pub use words::{pack_word, unpack_word};

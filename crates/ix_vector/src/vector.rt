//! Vectors: contiguous lists with a capacity that is set when they are made.
//!
//! [`StaticVec`] is stored inline. [`PolymorphicVec`] and [`RelocatableVec`] allocate only when they are made. Most of their
//! methods belong to the trait [`Vector`], which a file imports.

mod append;
mod drain;
mod insert;
mod modification_error;
mod order;
mod polymorphic_vec;
mod relocatable_vec;
mod retain;
mod slices;
mod static_vec;
mod vector_trait;

pub use drain::Drain;
pub use modification_error::VectorModificationError;
pub use polymorphic_vec::PolymorphicVec;
pub use relocatable_vec::{RelocatableVec, UninitVec, VecFamily};
pub use static_vec::{StaticVec, StaticVecIntoIter};
pub use vector_trait::Vector;

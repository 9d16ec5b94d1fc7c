//! Vectors with a capacity that is set when they are made.
//!
//! A [`Vector`] is a list of at most [`capacity`](Vector::capacity) elements. [`StaticVec`] is stored inline. [`PolymorphicVec`]
//! and [`RelocatableVec`] allocate once, when they are made. Contracts see a bounded list.
#![tactic(auto)]

pub mod vector;

pub use ix_tables::RelocatableContainer;
pub use vector::{
    PolymorphicVec, RelocatableVec, StaticVec, StaticVecIntoIter, UninitVec, VecFamily, Vector,
    VectorModificationError,
};

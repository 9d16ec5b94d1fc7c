//! Conversions of values to JSON and back.
//!
//! A value is written and read as a whole. A container in memory of an allocator is made first, and then filled with the entries
//! that are read.

mod allocated_vectors;
mod fixed_vectors;
mod json_fault;
mod json_fill;
mod json_form;
mod lists;
mod maps;
mod options;
mod other_signed;
mod other_unsigned;
mod queues;
mod semantic_strings;
mod signed;
mod texts;
mod truth;
mod unsigned;

pub use json_fault::JsonFault;
pub use json_fill::JsonFill;
pub use json_form::{JsonForm, JsonItem};

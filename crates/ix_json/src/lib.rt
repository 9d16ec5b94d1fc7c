//! Conversions of containers and strings to and from JSON.
#![tactic(auto)]

pub mod json;

pub use json::{JsonFault, JsonFill, JsonForm, JsonItem};

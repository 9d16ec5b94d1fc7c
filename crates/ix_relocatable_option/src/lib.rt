//! An option for messages.
#![tactic(auto)]

pub mod relocatable_option;

pub use relocatable_option::RelocatableOption;

//! Strings with a capacity that is set when they are made: bounded lists of bytes from 1 to 127.
//!
//! Every kind of string has the methods of the trait [`String`]. [`StaticString`] is stored inline. [`PolymorphicString`] and
//! [`RelocatableString`] allocate only when they are made. A relocatable string is often initialised in two phases. Contracts see a
//! string as a bounded list of its bytes, whatever its kind.
//!
//! The string of std is `std::string::String` here.
#![tactic(auto)]

pub mod string;

pub use ix_tables::RelocatableContainer;
pub use string::{
    EscapedByte, HeapString, HeapStringKind, Polymorphic, PolymorphicString, Relocatable,
    RelocatableString, StaticString, String, StringCreationError, StringFamily,
    StringModificationError, UninitString, as_escaped_string, escape_byte, strnlen,
};

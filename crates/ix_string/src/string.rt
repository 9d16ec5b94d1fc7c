//! Strings: bytes from 1 to 127, with a capacity that is set when they are made.
//!
//! [`StaticString`] is stored inline. [`PolymorphicString`] and [`RelocatableString`] allocate only when they are made. Most of
//! their methods belong to the trait [`String`], which a file imports. The string of std is `std::string::String` then.

mod creation;
mod creation_error;
mod escape;
mod gaps;
mod heap_string;
mod heap_text;
mod kinds;
mod modification_error;
mod nul;
mod retain;
mod static_string;
mod static_text;
mod static_traits;
mod string_trait;
mod text;
mod vector_text;
mod writing;

pub use creation_error::StringCreationError;
pub use escape::{EscapedByte, as_escaped_string, escape_byte};
pub use heap_string::HeapString;
pub use kinds::{
    HeapStringKind, Polymorphic, PolymorphicString, Relocatable, RelocatableString, StringFamily,
    UninitString,
};
pub use modification_error::StringModificationError;
pub use nul::strnlen;
pub use static_string::StaticString;
pub use string_trait::String;

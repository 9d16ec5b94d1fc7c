//! Types for names and messages: strings whose rules are checked at every change, an option, and conversions to and from
//! JSON.
//!
//! Each is in its own crate, which this crate re-exports: [`ix_semantic_string`], [`ix_relocatable_option`] and [`ix_json`].
#![tactic(auto)]

pub use ix_json::{JsonFault, JsonFill, JsonForm, JsonItem, json};
pub use ix_relocatable_option::{RelocatableOption, relocatable_option};
pub use ix_semantic_string::{
    DefaultText, GroupName, GroupNameRules, Rules, Semantic, SemanticStringError,
    TrailingSlashRules, semantic_string,
};

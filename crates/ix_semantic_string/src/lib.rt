//! Semantic strings: strings that obey your own rules, which are checked at every change.
#![tactic(auto)]

pub mod semantic_string;

pub use semantic_string::{
    DefaultText, GroupName, GroupNameRules, Rules, Semantic, SemanticStringError,
    TrailingSlashRules,
};

//! Semantic strings: strings that obey rules, such as names of users, groups and paths.

mod default_text;
mod group_name;
mod rules;
mod semantic;
mod semantic_string_error;
mod trailing_slash;

pub use default_text::DefaultText;
pub use group_name::{GroupName, GroupNameRules};
pub use rules::Rules;
pub use semantic::Semantic;
pub use semantic_string_error::SemanticStringError;
pub use trailing_slash::TrailingSlashRules;

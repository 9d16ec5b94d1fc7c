//! Values by their traits alone.
use crate::Findings;
use std::cmp::Ordering;
use std::fmt::{Debug, Display, InlineText};
use std::hash::{DefaultHasher, Hash, Hasher};

/// Returns the hash of a value.
pub fn hash_of<T: Hash>(value: &T) -> u64 {
    let mut hasher = DefaultHasher::new();
    value.hash(&mut hasher);
    hasher.finish()
}

/// Returns the order of two values.
pub fn order_of<T: Ord>(value: &T, other: &T) -> Ordering {
    value.cmp(other)
}

/// Checks the `Debug` text of a value. The first 80 bytes are compared.
pub fn check_text<T: Debug>(findings: &Findings, value: &T, text: &str) {
    let found = InlineText::<80>::of(format_args!("{value:?}"));
    findings.expect_same(found.as_str(), text, "the text");
}

/// Checks the `Display` text of a value. The first 80 bytes are compared.
pub fn check_display<T: Display>(findings: &Findings, value: &T, text: &str) {
    let found = InlineText::<80>::of(format_args!("{value}"));
    findings.expect_same(found.as_str(), text, "the text");
}

/// Checks the text of a value by `Display`, and then by `Debug`, as [`check_display`] and [`check_text`] do.
pub fn check_printed<T: Display + Debug>(
    findings: &Findings,
    value: &T,
    displayed: &str,
    debugged: &str,
) {
    check_display(findings, value, displayed);
    check_text(findings, value, debugged);
}

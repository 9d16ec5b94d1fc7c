//! Checks of flat maps and hash maps, by the type that they share: equality.
use crate::Findings;
use ix_flatmap::{KeyIndex, MetaMap, Pair};
use ix_slottable::Storage;

/// Checks which of two maps are equal. The first is empty and of capacity 2, and the second empty and of a greater one.
pub fn check_equality<M: Storage<Pair<u64, u64>>, I: KeyIndex<u64, u64>>(
    findings: &Findings,
    small: &mut MetaMap<Pair<u64, u64>, M, I>,
    large: &mut MetaMap<Pair<u64, u64>, M, I>,
) {
    findings.expect(*small == *large, "empty maps");
    let _ = small.insert(1, 10);
    findings.expect(*small != *large && *large != *small, "one map is empty");
    let _ = (large.insert(2, 20), large.insert(1, 10));
    findings.expect(*small != *large && *large != *small, "a key more");
    let _ = small.insert(2, 20);
    findings.expect(*small == *large && *large == *small, "in other places");
    let _ = large.replace(2, 21);
    findings.expect(*small != *large && *large != *small, "another value");
    let _ = (large.remove(&2), large.insert(3, 20));
    findings.expect(*small != *large && *large != *small, "another key");
}

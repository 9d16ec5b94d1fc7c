//! The functions over any vector, with each kind.
use crate::rolling::{push_over, replace_at};
use ix_vector::{PolymorphicVec, StaticVec, Vector};
use std::test::Fail;
use test_support::{Findings, made};

/// The vector was made, with capacity 2.
fn check_made<V: Vector<u64> + Drop, E: Drop>(findings: &Findings, made: Result<V, E>, kind: &str) {
    let Ok(mut vector) = made else {
        return findings.miss(kind);
    };
    let removed = [1, 2, 3].map(|item| push_over(&mut vector, item));
    findings.expect_same(removed, [None, None, Some(1)], kind);
    findings.expect_same(vector.as_slice(), &[2, 3], kind);
    let replaced = (replace_at(&mut vector, 0, 9), replace_at(&mut vector, 2, 8));
    findings.expect_same(replaced, (Ok(2), Err(8)), kind);
    findings.expect_same((vector.as_slice(), vector.capacity()), (&[9, 3], 2), kind);
}

#[test]
fn each_kind(rt: HostRuntime) -> Result<(), Fail> {
    let findings = Findings::new();
    check_made(&findings, made(StaticVec::<u64, 2>::new()), "static");
    check_made(&findings, PolymorphicVec::new(rt.alloc(), 2), "polymorphic");
    let mut none = StaticVec::<u64, 0>::new();
    findings.expect_same((push_over(&mut none, 1), none.len()), (None, 0), "no room");
    findings.verdict()
}

//! Functions that no row has: closures that are called in turn, texts, and a vector that is made later.
use ix_tables::{InitError, RelocatableContainer};
use ix_vector::VectorModificationError::{InsertWouldExceedCapacity, OutOfBounds, OutOfMemory};
use ix_vector::{PolymorphicVec, RelocatableVec, StaticVec, Vector, VectorModificationError};
use std::alloc::Global;
use std::cell::Cell;
use std::test::Fail;
use test_support::{Findings, check_display, check_text, made};

/// A length, the result of resizing to it, how often the closure is called, and the elements after it.
type ResizeRow = (
    usize,
    Result<(), VectorModificationError>,
    u64,
    &'static [u64],
);

/// Of a vector of capacity 4 and a closure that returns 7, 8 and so on.
const RESIZES: &[ResizeRow] = &[
    (5, Err(InsertWouldExceedCapacity), 0, &[1, 2]),
    (4, Ok(()), 2, &[1, 2, 7, 8]),
    (1, Ok(()), 0, &[1]),
    (1, Ok(()), 0, &[1]),
    (4, Ok(()), 3, &[1, 7, 8, 9]),
    (0, Ok(()), 0, &[]),
];

/// Resizes the vector, which is empty and was made.
fn check_resizes<V: Vector<u64> + Drop, E: Drop>(findings: &Findings, made: Result<V, E>) {
    let Ok(mut vector) = made else {
        return findings.miss("there is memory");
    };
    findings.expect_same(vector.extend_from_slice(&[1, 2]), Ok(()), "there is room");
    for (row, (n, result, calls, left)) in RESIZES.iter().enumerate() {
        let next = Cell::new(7u64);
        let found = vector.resize_with(*n, || next.replace(next.get().wrapping_add(1)));
        let made = next.get().wrapping_sub(7);
        findings.expect_same_at((found, made), (*result, *calls), row, "calls");
        findings.expect_same_at(vector.as_slice(), *left, row, "the items");
    }
}

#[test]
fn closures_of_resize_with(rt: HostRuntime) -> Result<(), Fail> {
    let findings = Findings::new();
    check_resizes(&findings, made(StaticVec::<u64, 4>::new()));
    check_resizes(&findings, PolymorphicVec::<u64, Global>::new(rt.alloc(), 4));
    findings.verdict()
}

#[test]
fn two_steps(rt: HostRuntime) -> Result<(), Fail> {
    let findings = Findings::new();
    let error = InitError::new(RelocatableVec::<u64, Global>::new_uninit(5));
    check_text(&findings, &error, "InitError { .. }");
    check_display(&findings, &error, "memory allocation failed");
    let uninit = error.into_uninit();
    check_text(&findings, &uninit, "Uninit { capacity: 5 }");
    let ready = uninit.init(rt.alloc()).expect(&rt, "there is memory");
    findings.expect_same(ready.capacity(), 5, "in two steps");
    findings.verdict()
}

#[test]
fn texts(rt: HostRuntime) -> Result<(), Fail> {
    let findings = Findings::new();
    check_text(&findings, &StaticVec::<u8, 2>::new(), "[]");
    check_text(&findings, &StaticVec::<u8, 0>::new(), "[]");
    match StaticVec::<u8, 4>::try_from([1, 2].as_slice()) {
        Ok(fixed) => check_text(&findings, &fixed, "[1, 2]"),
        Err(_) => findings.miss("two fit"),
    }
    let squares = PolymorphicVec::from_fn(rt.alloc(), 3, |n| (n * n) as u32);
    check_text(&findings, &squares, "Ok([0, 1, 4])");
    check_display(
        &findings,
        &OutOfBounds,
        "VectorModificationError::OutOfBounds",
    );
    let text = "VectorModificationError::InsertWouldExceedCapacity";
    check_display(&findings, &InsertWouldExceedCapacity, text);
    check_display(
        &findings,
        &OutOfMemory,
        "VectorModificationError::OutOfMemory",
    );
    findings.verdict()
}

//! Worked examples: rows of commands of vectors of each capacity, kind and way, in each memory.
use crate::rows::{FULL, Row, check_kinds, check_made};
use bumpalo::Bump;
use ix_commands::Reply::{self, Bool, Done, Error, Number, Value};
use ix_commands::ReplyError::OutOfBounds;
use ix_commands::VectorCommand::{
    At, Capacity, Clear, Empty, Extend, Full, Insert, Len, Pop, Push, Remove, Resize, Set, Truncate,
};
use ix_vector::{PolymorphicVec, StaticVec};
use linked_list_allocator::LocalHeap;
use std::alloc::{AllocError, Allocator};
use std::cell::Cell;
use std::test::Fail;
use test_support::Findings;

const OF_CAPACITY_0: &[Row<u64>] = &[
    (Push(1), Error(FULL), &[]),
    (Insert(0, 1), Error(FULL), &[]),
    (Insert(9, 1), Error(FULL), &[]),
    (Pop, Reply::None, &[]),
    (Remove(0), Reply::None, &[]),
    (Remove(usize::MAX), Reply::None, &[]),
    (Truncate(0), Done, &[]),
    (Truncate(5), Done, &[]),
    (Clear, Done, &[]),
    (Extend(&[]), Done, &[]),
    (Extend(&[1]), Error(FULL), &[]),
    (Resize(0, 1), Done, &[]),
    (Resize(1, 1), Error(FULL), &[]),
    (Set(0, 1), Bool(false), &[]),
];

const OF_CAPACITY_1: &[Row<u64>] = &[
    (Pop, Reply::None, &[]),
    (Insert(1, 5), Error(OutOfBounds), &[]),
    (Insert(0, 5), Done, &[5]),
    (Push(6), Error(FULL), &[5]),
    (Insert(0, 6), Error(FULL), &[5]),
    (Insert(1, 6), Error(FULL), &[5]),
    (Extend(&[]), Done, &[5]),
    (Extend(&[6]), Error(FULL), &[5]),
    (Resize(2, 6), Error(FULL), &[5]),
    (Resize(1, 6), Done, &[5]),
    (Remove(1), Reply::None, &[5]),
    (Set(0, 7), Bool(true), &[7]),
    (Truncate(1), Done, &[7]),
    (Remove(0), Value(7), &[]),
    (Push(8), Done, &[8]),
    (Pop, Value(8), &[]),
    (Extend(&[9]), Done, &[9]),
    (Extend(&[]), Done, &[9]),
    (Extend(&[1]), Error(FULL), &[9]),
    (Truncate(0), Done, &[]),
    (Resize(2, 6), Error(FULL), &[]),
    (Resize(1, 4), Done, &[4]),
    (Resize(0, 6), Done, &[]),
    (Resize(1, 3), Done, &[3]),
    (Clear, Done, &[]),
];

/// Of a vector of capacity 2.
const BYTES: &[Row<u8>] = &[
    (Push(1), Done, &[1]),
    (Push(2), Done, &[1, 2]),
    (Insert(9, 7), Error(FULL), &[1, 2]),
    (Remove(0), Value(1), &[2]),
    (Insert(9, 7), Error(OutOfBounds), &[2]),
];

const OF_CAPACITY_3: &[Row<u64>] = &[
    (Pop, Reply::None, &[]),
    (Insert(1, 5), Error(OutOfBounds), &[]),
    (Push(2), Done, &[2]),
    (Push(3), Done, &[2, 3]),
    (Insert(0, 1), Done, &[1, 2, 3]),
    (Push(4), Error(FULL), &[1, 2, 3]),
    (Clear, Done, &[]),
    (Push(1), Done, &[1]),
    (Push(2), Done, &[1, 2]),
    (Remove(2), Reply::None, &[1, 2]),
    (Insert(2, 4), Done, &[1, 2, 4]),
    (Remove(1), Value(2), &[1, 4]),
    (Remove(1), Value(4), &[1]),
    (Set(0, 8), Bool(true), &[8]),
    (Pop, Value(8), &[]),
    (Extend(&[1, 2]), Done, &[1, 2]),
    (Truncate(9), Done, &[1, 2]),
    (Truncate(2), Done, &[1, 2]),
    (Truncate(1), Done, &[1]),
    (Extend(&[4, 5, 6]), Error(FULL), &[1]),
    (Extend(&[4, 5]), Done, &[1, 4, 5]),
    (Extend(&[]), Done, &[1, 4, 5]),
    (Extend(&[6]), Error(FULL), &[1, 4, 5]),
    (Clear, Done, &[]),
    (Extend(&[9]), Done, &[9]),
    (Clear, Done, &[]),
    (Extend(&[]), Done, &[]),
    (Extend(&[1, 2, 3, 4]), Error(FULL), &[]),
    (Extend(&[1]), Done, &[1]),
    (Push(2), Done, &[1, 2]),
    (Resize(4, 6), Error(FULL), &[1, 2]),
    (Resize(2, 6), Done, &[1, 2]),
    (Resize(1, 6), Done, &[1]),
    (Push(2), Done, &[1, 2]),
    (Insert(1, 9), Done, &[1, 9, 2]),
    (Insert(8, 5), Error(FULL), &[1, 9, 2]),
    (Resize(1, 6), Done, &[1]),
    (Resize(3, 6), Done, &[1, 6, 6]),
    (Resize(2, 7), Done, &[1, 6]),
    (Resize(2, 7), Done, &[1, 6]),
    (Resize(3, 7), Done, &[1, 6, 7]),
    (Len, Number(3), &[1, 6, 7]),
    (Capacity, Number(3), &[1, 6, 7]),
    (Empty, Bool(false), &[1, 6, 7]),
    (Full, Bool(true), &[1, 6, 7]),
    (At(2), Value(7), &[1, 6, 7]),
    (At(3), Reply::None, &[1, 6, 7]),
];

const OF_CAPACITY_4: &[Row<u64>] = &[
    (Push(1), Done, &[1]),
    (Push(2), Done, &[1, 2]),
    (Resize(5, 9), Error(FULL), &[1, 2]),
    (Extend(&[7, 8]), Done, &[1, 2, 7, 8]),
    (Truncate(2), Done, &[1, 2]),
    (Resize(1, 9), Done, &[1]),
    (Push(2), Done, &[1, 2]),
    (Extend(&[3]), Done, &[1, 2, 3]),
    (Resize(4, 9), Done, &[1, 2, 3, 9]),
    (Extend(&[5]), Error(FULL), &[1, 2, 3, 9]),
];

/// Of a vector of capacity 3.
const OF_SIZE_ZERO: &[Row<()>] = &[
    (Push(()), Done, &[()]),
    (Insert(0, ()), Done, &[(), ()]),
    (Extend(&[(), ()]), Error(FULL), &[(), ()]),
    (Extend(&[()]), Done, &[(), (), ()]),
    (Truncate(2), Done, &[(), ()]),
    (Extend(&[()]), Done, &[(), (), ()]),
    (Push(()), Error(FULL), &[(), (), ()]),
    (Remove(1), Value(()), &[(), ()]),
    (Resize(3, ()), Done, &[(), (), ()]),
    (Resize(4, ()), Error(FULL), &[(), (), ()]),
    (Pop, Value(()), &[(), ()]),
    (Pop, Value(()), &[()]),
    (Pop, Value(()), &[]),
    (Pop, Reply::None, &[]),
    (Resize(1, ()), Done, &[()]),
    (Clear, Done, &[]),
];

fn check_examples<A: Allocator + Copy>(findings: &Findings, alloc: A, memory: &str) {
    let none = StaticVec::<u64, 0>::new();
    check_kinds(findings, alloc, none, OF_CAPACITY_0, memory);
    let one = StaticVec::<u64, 1>::new();
    check_kinds(findings, alloc, one, OF_CAPACITY_1, memory);
    let bytes = StaticVec::<u8, 2>::new();
    check_kinds(findings, alloc, bytes, BYTES, memory);
    let three = StaticVec::<u64, 3>::new();
    check_kinds(findings, alloc, three, OF_CAPACITY_3, memory);
    let four = StaticVec::<u64, 4>::new();
    check_kinds(findings, alloc, four, OF_CAPACITY_4, memory);
    let units = StaticVec::<(), 3>::new();
    check_kinds(findings, alloc, units, OF_SIZE_ZERO, memory);
}

/// Checks the examples. All of the memory is deallocated.
fn check_heap(findings: &Findings, heap: &LocalHeap) {
    check_examples(findings, heap, "a heap");
    findings.expect_same(heap.used(), 0, "bytes of the heap in use");
}

#[test]
fn in_each_memory(rt: HostRuntime) -> Result<(), Fail> {
    let findings = Findings::new();
    check_examples(&findings, rt.alloc(), "the machine's memory");
    check_examples(&findings, &Bump::new(rt.alloc()), "an arena");
    match LocalHeap::new(rt.alloc(), 256) {
        Ok(heap) => check_heap(&findings, &heap),
        Err(_) => findings.miss("a heap"),
    }
    findings.verdict()
}

#[test]
fn copies_of_capacity_0(rt: HostRuntime) -> Result<(), Fail> {
    let findings = Findings::new();
    match StaticVec::<u64, 0>::try_from([].as_slice()) {
        Ok(made) => check_made(&findings, made.clone(), OF_CAPACITY_0, "a static clone"),
        Err(_) => findings.miss("a static copy"),
    }
    let calls = Cell::new(0u64);
    let counted = |_| calls.replace(calls.get().wrapping_add(1));
    match PolymorphicVec::from_fn(rt.alloc(), 0, counted) {
        Ok(made) => {
            findings.expect_same(calls.get(), 0, "calls of the closure");
            let copy = made.try_clone();
            findings.expect(copy.as_ref().is_ok_and(|copy| *copy == made), "equal");
            check_made(&findings, copy, OF_CAPACITY_0, "a polymorphic clone");
        }
        Err(AllocError) => findings.miss("by a closure"),
    }
    findings.verdict()
}

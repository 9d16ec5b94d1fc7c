//! Each function of queues once, and worked examples: queues of capacity 1 and 0.
use crate::rows::{Row, check_kinds};
use bumpalo::Bump;
use ix_commands::QueueCommand::{
    At, Capacity, Clear, Empty, Full, Len, Over, Peek, Pop, Push, Set,
};
use ix_commands::Reply::{self, Bool, Done, Number, Value};
use ix_queue::{FixedSizeQueue, MetaQueue, Queue, RelocatableQueue, UninitQueue};
use ix_tables::{InitError, RelocatableContainer, Table};
use linked_list_allocator::LocalHeap;
use std::alloc::{AllocError, Allocator, Global};
use std::test::Fail;
use test_support::{Findings, check_tables, check_text};

/// Commands of a queue of capacity 2.
const TWO: &[Row<u64>] = &[
    (Capacity, Number(2)),
    (Len, Number(0)),
    (Empty, Bool(true)),
    (Full, Bool(false)),
    (Peek, Reply::None),
    (Set(9), Bool(false)),
    (Push(1), Bool(true)),
    (Len, Number(1)),
    (Empty, Bool(false)),
    (Push(2), Bool(true)),
    (Len, Number(2)),
    (Full, Bool(true)),
    (Push(3), Bool(false)),
    (Over(3), Value(1)),
    (Pop, Value(2)),
    (Over(4), Reply::None),
    (Pop, Value(3)),
    (Pop, Value(4)),
    (Pop, Reply::None),
    (Push(5), Bool(true)),
    (Push(6), Bool(true)),
    (Peek, Value(5)),
    (At(0), Value(5)),
    (At(1), Value(6)),
    (Set(7), Bool(true)),
    (Pop, Value(7)),
    (Clear, Done),
    (Len, Number(0)),
    (Push(8), Bool(true)),
    (Pop, Value(8)),
];

const ONE: &[Row<u64>] = &[
    (Push(123), Bool(true)),
    (Over(456), Value(123)),
    (Pop, Value(456)),
    (Empty, Bool(true)),
    (Over(7), Reply::None),
    (Push(8), Bool(false)),
    (Len, Number(1)),
    (Full, Bool(true)),
    (Peek, Value(7)),
    (Set(9), Bool(true)),
    (Peek, Value(9)),
    (At(0), Value(9)),
    (Clear, Done),
    (Peek, Reply::None),
    (Capacity, Number(1)),
];

const NONE: &[Row<u64>] = &[
    (Empty, Bool(true)),
    (Full, Bool(true)),
    (Push(1), Bool(false)),
    (Over(2), Value(2)),
    (Pop, Reply::None),
    (Peek, Reply::None),
    (Set(3), Bool(false)),
    (At(0), Reply::None),
    (Clear, Done),
    (Len, Number(0)),
    (Capacity, Number(0)),
];

/// Checks the texts of a queue of capacity 2 that is empty, and whose elements then lie round the end of the ring.
fn check_texts<S: Table<u64>>(findings: &Findings, queue: &mut MetaQueue<u64, S>) {
    check_text(findings, &*queue, "[]");
    for n in 1..4 {
        let _ = queue.push_with_overflow(n);
    }
    check_text(findings, &*queue, "[2, 3]");
}

#[test]
fn texts(rt: HostRuntime) -> Result<(), Fail> {
    let findings = Findings::new();
    check_texts(&findings, &mut FixedSizeQueue::<u64, 2>::new());
    match Queue::<u64>::new(rt.alloc(), 2) {
        Ok(mut queue) => check_texts(&findings, &mut queue),
        Err(AllocError) => findings.miss("there is memory"),
    }
    findings.verdict()
}

/// Checks each example on a queue of each kind.
fn check_examples<A: Allocator + Copy>(findings: &Findings, alloc: A, memory: &str) {
    check_kinds::<A, 2>(findings, alloc, &[TWO], memory);
    check_kinds::<A, 1>(findings, alloc, &[ONE], memory);
    check_kinds::<A, 0>(findings, alloc, &[NONE], memory);
}

/// Does the same as `check_examples`. All of the memory is deallocated.
fn check_heap(findings: &Findings, heap: &LocalHeap) {
    check_examples(findings, heap, "a heap");
    findings.expect_same(heap.used(), 0, "bytes of the heap in use");
}

#[test]
fn in_each_memory(rt: HostRuntime) -> Result<(), Fail> {
    let findings = Findings::new();
    check_examples(&findings, rt.alloc(), "the machine's memory");
    check_examples(&findings, &Bump::new(rt.alloc()), "an arena");
    match LocalHeap::new(rt.alloc(), 256) {
        Ok(heap) => check_heap(&findings, &heap),
        Err(_) => findings.miss("a heap"),
    }
    findings.verdict()
}

#[test]
fn two_steps(rt: HostRuntime) -> Result<(), Fail> {
    let findings = Findings::new();
    let uninit = InitError::new(RelocatableQueue::<u64>::new_uninit(5)).into_uninit();
    let five: &[Row<u64>] = &[(Capacity, Number(5))];
    check_tables(
        &findings,
        uninit.init(rt.alloc()),
        &[five],
        "returned by an error",
    );
    let uninit = <UninitQueue<u8> as RelocatableContainer<Global>>::new_uninit(6);
    let six: &[Row<u8>] = &[(Capacity, Number(6))];
    check_tables(&findings, uninit.init(rt.alloc()), &[six], "by the trait");
    findings.verdict()
}

#[test]
fn the_greatest_capacity(rt: HostRuntime) -> Result<(), Fail> {
    let findings = Findings::new();
    let made = Queue::<u64>::new(rt.alloc(), usize::MAX);
    let len = made.map(|queue| queue.len());
    findings.expect_same(len, Err(AllocError), "no memory is enough");
    findings.verdict()
}

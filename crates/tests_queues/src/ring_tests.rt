//! Turns of the ring: the first slot follows the last, wherever the front element lies.
use crate::rows::{Row, check_kinds};
use crate::turning::TURNS;
use ix_commands::QueueCommand::{At, Clear, Len, Over, Peek, Pop, Push, Set};
use ix_commands::Reply::{self, Bool, Done, Number, Value};
use ix_queue::{FixedSizeQueue, Queue};
use std::test::Fail;
use test_support::{Findings, check_tables, made};

const OVERFLOWS: &[Row<u64>] = &[
    (Push(1), Bool(true)),
    (Push(2), Bool(true)),
    (Push(3), Bool(true)),
    (Over(4), Value(1)),
    (Len, Number(3)),
    (At(0), Value(2)),
    (At(1), Value(3)),
    (At(2), Value(4)),
];

const PUSHES_AND_POPS: &[Row<u64>] = &[
    (Push(1), Bool(true)),
    (Push(2), Bool(true)),
    (Push(3), Bool(true)),
    (Pop, Value(1)),
    (Push(4), Bool(true)),
    (Push(5), Bool(false)),
    (Pop, Value(2)),
    (Pop, Value(3)),
    (Pop, Value(4)),
    (Pop, Reply::None),
];

const WRITES_OF_THE_FRONT: &[Row<u64>] = &[
    (Push(1), Bool(true)),
    (Push(2), Bool(true)),
    (Push(3), Bool(true)),
    (Peek, Value(1)),
    (Set(10), Bool(true)),
    (Pop, Value(10)),
    (Push(20), Bool(true)),
    (Peek, Value(2)),
    (Pop, Value(2)),
    (Pop, Value(3)),
    (Set(30), Bool(true)),
    (Pop, Value(30)),
];

/// Commands of a queue of capacity 3.
const OF_THREE: &[&[Row<u64>]] = &[OVERFLOWS, PUSHES_AND_POPS, WRITES_OF_THE_FRONT];

#[test]
fn turns(rt: HostRuntime) -> Result<(), Fail> {
    let findings = Findings::new();
    for (turn, turned) in TURNS {
        for rows in OF_THREE {
            check_kinds::<_, 3>(&findings, rt.alloc(), &[*turn, *rows], turned);
        }
    }
    findings.verdict()
}

/// Commands of a queue of capacity 3.
const OF_SIZE_ZERO: &[Row<()>] = &[
    (Push(()), Bool(true)),
    (Push(()), Bool(true)),
    (Push(()), Bool(true)),
    (Push(()), Bool(false)),
    (Over(()), Value(())),
    (Len, Number(3)),
    (At(2), Value(())),
    (Pop, Value(())),
    (Peek, Value(())),
    (Set(()), Bool(true)),
    (Clear, Done),
    (Pop, Reply::None),
];

#[test]
fn items_of_size_zero(rt: HostRuntime) -> Result<(), Fail> {
    let findings = Findings::new();
    let fixed = made(FixedSizeQueue::<(), 3>::new());
    check_tables(&findings, fixed, &[OF_SIZE_ZERO], "fixed");
    check_tables(
        &findings,
        Queue::<()>::new(rt.alloc(), 3),
        &[OF_SIZE_ZERO],
        "allocated",
    );
    findings.verdict()
}

#[test]
fn a_long_run() -> Result<(), Fail> {
    let findings = Findings::new();
    let mut queue = FixedSizeQueue::<u64, 8>::new();
    for n in 0..1000u64 {
        let left = queue.push_with_overflow(n);
        findings.expect_same(left, n.checked_sub(8), "overflow");
    }
    findings.expect_same(queue.pop(), Some(992), "pop");
    findings.verdict()
}

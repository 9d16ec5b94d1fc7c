//! Lists of commands, run on slot maps of every kind.
use crate::run_tests::check_run;
use ix_run::run::{Reply, SlotMapCommand};
use ix_slotmap::{FixedSizeSlotMap, SlotMap, SlotMapKey};
use std::test::Fail;
use test_support::Findings;

/// Keys of a map of capacity 3 die, and their slot is used again.
#[test]
fn generations(rt: HostRuntime) -> Result<(), Fail> {
    let findings = Findings::new();
    let alloc = rt.alloc();
    let key = |generation: u32| SlotMapKey::new(0, generation);
    let last = SlotMapKey::new(2, 0);
    let rows = [
        (SlotMapCommand::Insert(10), Reply::Key(key(0))),
        (SlotMapCommand::Remove(key(0)), Reply::Value(10)),
        (SlotMapCommand::Insert(20), Reply::Key(key(1))),
        (SlotMapCommand::Get(key(0)), Reply::None),
        (SlotMapCommand::Set(key(0), 1), Reply::Bool(false)),
        (SlotMapCommand::Get(key(1)), Reply::Value(20)),
        (SlotMapCommand::Remove(key(1)), Reply::Value(20)),
        (SlotMapCommand::Contains(key(1)), Reply::Bool(false)),
        (SlotMapCommand::InsertAt(2, 40), Reply::Key(last)),
        (SlotMapCommand::Set(last, 41), Reply::Bool(true)),
        (SlotMapCommand::Contains(last), Reply::Bool(true)),
        (SlotMapCommand::From(1), Reply::Entry(last, 41)),
        (SlotMapCommand::From(3), Reply::None),
        (SlotMapCommand::Next, Reply::Key(key(2))),
        (SlotMapCommand::Len, Reply::Number(1)),
    ];
    let mut fixed = FixedSizeSlotMap::<u64, 3>::new();
    check_run(&findings, alloc, &mut fixed, &rows, "fixed slot map");
    let mut allocated = SlotMap::<u64>::new(alloc, 3).expect(&rt, "an allocated slot map");
    check_run(&findings, alloc, &mut allocated, &rows, "allocated");
    findings.verdict()
}

/// The slots of a map of capacity 2 have the greatest generation: each is used once.
#[test]
fn retirement(rt: HostRuntime) -> Result<(), Fail> {
    let findings = Findings::new();
    let alloc = rt.alloc();
    let first = SlotMapKey::new(0, u32::MAX);
    let second = SlotMapKey::new(1, u32::MAX);
    let rows = [
        (SlotMapCommand::Insert(7), Reply::Key(first)),
        (SlotMapCommand::Remove(first), Reply::Value(7)),
        (SlotMapCommand::Insert(8), Reply::Key(second)),
        (SlotMapCommand::Retired, Reply::Number(1)),
        (SlotMapCommand::Get(first), Reply::None),
        (SlotMapCommand::From(0), Reply::Entry(second, 8)),
    ];
    let mut map = FixedSizeSlotMap::<u64, 2>::starting_at(u32::MAX);
    check_run(&findings, alloc, &mut map, &rows, "fixed slot map");
    findings.verdict()
}

//! Lists of commands, run on containers of every kind: the replies, and their order.
use ix_flatmap::{FixedSizeFlatMap, FlatMap};
use ix_queue::{FixedSizeQueue, Queue};
use ix_run::run::ReplyError::{InsertWouldExceedCapacity, IsFull, KeyAlreadyExists, OutOfBounds};
use ix_run::run::{
    MapCommand, QueueCommand, Reply, Runs, SlotMapCommand, SlotTableCommand, StringCommand,
    VectorCommand, run_all, run_map, run_queue, run_slot_map, run_slot_table, run_string,
    run_vector,
};
use ix_slotmap::{FixedSizeSlotMap, SlotMapKey};
use ix_slottable::{FixedSizeSlotTable, SlotTable};
use ix_string::StaticString;
use ix_tables::RelocatableContainer;
use ix_vector::{PolymorphicVec, StaticVec, UninitVec};
use std::alloc::{AllocError, Global};
use std::fmt::Debug;
use std::test::Fail;
use test_support::Findings;

/// Runs the commands of the rows, all in one list, and notes the first reply that is not the one of its row.
pub fn check_run<C: Copy, Y: Copy + PartialEq + Debug, R: Runs<C, Reply = Y>>(
    findings: &Findings,
    alloc: Global,
    container: &mut R,
    rows: &[(C, Y)],
    kind: &str,
) {
    let mut commands = Vec::new(alloc);
    for (command, _) in rows {
        findings.expect(commands.push(*command).is_ok(), kind);
    }
    let Ok(replies) = run_all(alloc, container, commands.as_slice()) else {
        return findings.miss(kind);
    };
    findings.expect_same(replies.len(), rows.len(), kind);
    for (row, ((_, wanted), found)) in rows.iter().zip(replies.iter()).enumerate() {
        findings.expect_same_at(*found, *wanted, row, kind);
    }
}

/// On a queue of capacity 1.
const QUEUE_ROWS: &[(QueueCommand<u64>, Reply<usize, u64>)] = &[
    (QueueCommand::Push(123), Reply::Bool(true)),
    (QueueCommand::Push(5), Reply::Bool(false)),
    (QueueCommand::Over(456), Reply::Value(123)),
    (QueueCommand::Pop, Reply::Value(456)),
    (QueueCommand::Pop, Reply::None),
];

#[test]
fn queues(rt: HostRuntime) -> Result<(), Fail> {
    let findings = Findings::new();
    let alloc = rt.alloc();
    let mut fixed = FixedSizeQueue::<u64, 1>::new();
    check_run(&findings, alloc, &mut fixed, QUEUE_ROWS, "fixed");
    check_run(&findings, alloc, &mut fixed, &[], "no command");
    let many = [(QueueCommand::Len, Reply::Number(0)); 200];
    check_run(&findings, alloc, &mut fixed, &many, "200 commands");
    let mut allocated = Queue::<u64>::new(alloc, 1).expect(&rt, "an allocated queue");
    check_run(&findings, alloc, &mut allocated, QUEUE_ROWS, "allocated");
    findings.verdict()
}

const FULL: Reply<usize, u64> = Reply::Error(InsertWouldExceedCapacity);

/// On a vector of capacity 3.
const VEC_ROWS: &[(VectorCommand<'static, u64>, Reply<usize, u64>)] = &[
    (VectorCommand::Extend(&[1, 2]), Reply::Done),
    (VectorCommand::Insert(9, 7), Reply::Error(OutOfBounds)),
    (VectorCommand::Resize(4, 0), FULL),
    (VectorCommand::Resize(3, 5), Reply::Done),
    (VectorCommand::At(2), Reply::Value(5)),
    (VectorCommand::Push(8), FULL),
    (VectorCommand::Extend(&[8]), FULL),
    (VectorCommand::Full, Reply::Bool(true)),
    (VectorCommand::Truncate(9), Reply::Done),
    (VectorCommand::Remove(0), Reply::Value(1)),
    (VectorCommand::Remove(2), Reply::None),
    (VectorCommand::Set(1, 6), Reply::Bool(true)),
    (VectorCommand::Set(2, 6), Reply::Bool(false)),
    (VectorCommand::Insert(0, 4), Reply::Done),
    (VectorCommand::Len, Reply::Number(3)),
    (VectorCommand::Capacity, Reply::Number(3)),
    (VectorCommand::Pop, Reply::Value(6)),
    (VectorCommand::At(1), Reply::Value(2)),
    (VectorCommand::At(2), Reply::None),
    (VectorCommand::Clear, Reply::Done),
    (VectorCommand::Pop, Reply::None),
    (VectorCommand::Empty, Reply::Bool(true)),
];

#[test]
fn vectors(rt: HostRuntime) -> Result<(), Fail> {
    let findings = Findings::new();
    let alloc = rt.alloc();
    let mut fixed = StaticVec::<u64, 3>::new();
    check_run(&findings, alloc, &mut fixed, VEC_ROWS, "fixed");
    let mut allocated = PolymorphicVec::<u64>::new(alloc, 3).expect(&rt, "an allocated vector");
    check_run(&findings, alloc, &mut allocated, VEC_ROWS, "allocated");
    let uninit = UninitVec::<u64>::new_uninit(3);
    let mut relocatable = uninit.init(alloc).expect(&rt, "a relocatable vector");
    check_run(&findings, alloc, &mut relocatable, VEC_ROWS, "relocatable");
    findings.verdict()
}

/// On a slot table of capacity 3.
const TABLE_ROWS: &[(SlotTableCommand<u64>, Reply<usize, u64>)] = &[
    (SlotTableCommand::Insert(10), Reply::Key(0)),
    (SlotTableCommand::Insert(20), Reply::Key(1)),
    (SlotTableCommand::Remove(0), Reply::Value(10)),
    (SlotTableCommand::From(0), Reply::Entry(1, 20)),
    (SlotTableCommand::InsertAt(2, 40), Reply::Bool(true)),
    (SlotTableCommand::From(2), Reply::Entry(2, 40)),
    (SlotTableCommand::From(3), Reply::None),
    (SlotTableCommand::Set(1, 21), Reply::Bool(true)),
    (SlotTableCommand::Get(1), Reply::Value(21)),
    (SlotTableCommand::Set(0, 22), Reply::Bool(false)),
    (SlotTableCommand::Get(0), Reply::None),
    (SlotTableCommand::Len, Reply::Number(2)),
];

#[test]
fn slot_tables(rt: HostRuntime) -> Result<(), Fail> {
    let findings = Findings::new();
    let alloc = rt.alloc();
    let mut fixed = FixedSizeSlotTable::<u64, 3>::new();
    check_run(&findings, alloc, &mut fixed, TABLE_ROWS, "fixed");
    let mut allocated = SlotTable::<u64>::new(alloc, 3).expect(&rt, "an allocated slot table");
    check_run(&findings, alloc, &mut allocated, TABLE_ROWS, "allocated");
    findings.verdict()
}

/// On a flat map of capacity 1.
const FLAT_ROWS: &[(MapCommand<u64, u64>, Reply<u64, u64>)] = &[
    (MapCommand::Insert(1, 2), Reply::Done),
    (MapCommand::Insert(1, 3), Reply::Error(KeyAlreadyExists)),
    (MapCommand::Insert(2, 4), Reply::Error(IsFull)),
    (MapCommand::Get(1), Reply::Value(2)),
    (MapCommand::Key(0), Reply::Key(1)),
    (MapCommand::Key(1), Reply::None),
    (MapCommand::Full, Reply::Bool(true)),
    (MapCommand::Set(1, 5), Reply::Bool(true)),
    (MapCommand::Set(2, 5), Reply::Bool(false)),
    (MapCommand::Contains(1), Reply::Bool(true)),
    (MapCommand::Contains(2), Reply::Bool(false)),
    (MapCommand::Remove(2), Reply::None),
    (MapCommand::Remove(1), Reply::Value(5)),
    (MapCommand::Get(1), Reply::None),
    (MapCommand::Len, Reply::Number(0)),
    (MapCommand::Empty, Reply::Bool(true)),
];

#[test]
fn flat_maps(rt: HostRuntime) -> Result<(), Fail> {
    let findings = Findings::new();
    let alloc = rt.alloc();
    let mut fixed = FixedSizeFlatMap::<u64, u64, 1>::new();
    check_run(&findings, alloc, &mut fixed, FLAT_ROWS, "fixed");
    let mut allocated = FlatMap::<u64, u64>::new(alloc, 1).expect(&rt, "an allocated flat map");
    check_run(&findings, alloc, &mut allocated, FLAT_ROWS, "allocated");
    findings.verdict()
}

/// Notes `name` unless the replies are these two.
fn expect_two<Y: Copy + PartialEq + Debug>(
    findings: &Findings,
    found: Result<Vec<Y>, AllocError>,
    wanted: [Y; 2],
    name: &str,
) {
    match found {
        Ok(replies) => findings.expect_same(replies.as_slice(), wanted.as_slice(), name),
        Err(AllocError) => findings.miss(name),
    }
}

/// Each function that runs a list of commands of one container.
#[test]
fn named_runs(rt: HostRuntime) -> Result<(), Fail> {
    let findings = Findings::new();
    let alloc = rt.alloc();
    let commands = [QueueCommand::Push(7), QueueCommand::Pop];
    let found = run_queue(alloc, &mut FixedSizeQueue::<u64, 1>::new(), &commands);
    let wanted = [Reply::Bool(true), Reply::Value(7)];
    expect_two(&findings, found, wanted, "run_queue");
    let commands = [VectorCommand::Push(7), VectorCommand::Pop];
    let found = run_vector(alloc, &mut StaticVec::<u64, 1>::new(), &commands);
    expect_two(
        &findings,
        found,
        [Reply::Done, Reply::Value(7)],
        "run_vector",
    );
    let commands = [StringCommand::Push(97), StringCommand::Pop];
    let found = run_string(alloc, &mut StaticString::<1>::new(), &commands);
    let wanted = [Reply::Done, Reply::Value(97)];
    expect_two(&findings, found, wanted, "run_string");
    let commands = [SlotTableCommand::Insert(7), SlotTableCommand::Remove(0)];
    let found = run_slot_table(alloc, &mut FixedSizeSlotTable::<u64, 1>::new(), &commands);
    let wanted = [Reply::Key(0), Reply::Value(7)];
    expect_two(&findings, found, wanted, "run_slot_table");
    let key = SlotMapKey::new(0, 0);
    let commands = [SlotMapCommand::Insert(7), SlotMapCommand::Remove(key)];
    let found = run_slot_map(alloc, &mut FixedSizeSlotMap::<u64, 1>::new(), &commands);
    let wanted = [Reply::Key(key), Reply::Value(7)];
    expect_two(&findings, found, wanted, "run_slot_map");
    let commands = [MapCommand::Insert(1, 7), MapCommand::Remove(1)];
    let mut map = FixedSizeFlatMap::<u64, u64, 1>::new();
    let found = run_map(alloc, &mut map, &commands);
    expect_two(&findings, found, [Reply::Done, Reply::Value(7)], "run_map");
    findings.verdict()
}

//! The worked examples on each kind of slot table and of slot map, in each memory.
ghost use Rattle.std.specs.Prelude.{◌≤◌};

use crate::containers::LAST;
use crate::map_rows::{
    self, dead_keys, each_place, no_place, no_such_keys, one_place, place_retired, size_zero,
};
use crate::table_rows::{
    self, EVERY_CALL, FIRST_KEY_INSERTED, KEYS_AFTER_THE_FIRST, KEYS_OUT_OF_RANGE,
    MIDDLE_KEY_INSERTED, NO_KEY, ONE_KEY, REMOVED_KEY_IS_FIRST, REMOVED_KEY_IS_NEXT, SIZE_ZERO,
    VALUE_REPLACED,
};
use bumpalo::Bump;
use ix_slotmap::{FixedSizeSlotMap, RelocatableSlotMap, SlotMap, UninitSlotMap};
use ix_slottable::{FixedSizeSlotTable, SlotTable, UninitSlotTable};
use ix_tables::RelocatableContainer;
use linked_list_allocator::LocalHeap;
use std::alloc::Allocator;
use std::fmt::Debug;
use std::test::Fail;
use test_support::{Findings, check_rows, check_tables};

/// Capacities, and the examples on a table with so many keys.
const OF_TABLES: &[(usize, &[table_rows::Row<char>])] = &[
    (0, NO_KEY),
    (1, ONE_KEY),
    (2, KEYS_OUT_OF_RANGE),
    (2, EVERY_CALL),
    (3, REMOVED_KEY_IS_FIRST),
    (3, FIRST_KEY_INSERTED),
    (3, VALUE_REPLACED),
    (3, KEYS_AFTER_THE_FIRST),
    (3, REMOVED_KEY_IS_NEXT),
    (4, MIDDLE_KEY_INSERTED),
];

/// Checks the examples on inline tables with so many keys.
fn check_fixed_tables<const CAPACITY: usize>(findings: &Findings)
    requires { CAPACITY ≤ 4 }
{
    for (capacity, rows) in OF_TABLES {
        if *capacity == CAPACITY {
            let mut map = FixedSizeSlotTable::<char, CAPACITY>::new();
            check_rows(findings, &mut map, *rows, "an inline table");
        }
    }
}

/// Checks the example on inline maps whose slots start at `generation`.
fn check_fixed_map<const CAPACITY: usize>(
    findings: &Findings,
    generation: u32,
    rows: &[map_rows::Row<u64>],
)
    requires { CAPACITY ≤ 3 }
{
    let mut map = FixedSizeSlotMap::<u64, CAPACITY>::starting_at(generation);
    check_rows(findings, &mut map, rows, "started inline");
    if generation == 0 {
        let mut map = FixedSizeSlotMap::<u64, CAPACITY>::new();
        check_rows(findings, &mut map, rows, "new inline");
    }
}

#[test]
fn in_the_value_itself() -> Result<(), Fail> {
    let findings = Findings::new();
    check_fixed_tables::<0>(&findings);
    check_fixed_tables::<1>(&findings);
    check_fixed_tables::<2>(&findings);
    check_fixed_tables::<3>(&findings);
    check_fixed_tables::<4>(&findings);
    let mut units = FixedSizeSlotTable::<(), 3>::new();
    check_rows(&findings, &mut units, SIZE_ZERO, "units inline");
    check_fixed_map::<2>(&findings, LAST, &place_retired());
    check_fixed_map::<3>(&findings, 0, &dead_keys());
    check_fixed_map::<0>(&findings, 0, &no_place());
    check_fixed_map::<2>(&findings, 0, &no_such_keys());
    check_fixed_map::<3>(&findings, 0, &each_place());
    check_fixed_map::<1>(&findings, 0, &one_place());
    let mut units = FixedSizeSlotMap::<(), 3>::starting_at(LAST - 1);
    check_rows(&findings, &mut units, &size_zero(), "units inline");
    findings.verdict()
}

/// Checks the example on a table of each kind with `capacity` keys, allocated from `alloc`.
fn check_table<T: Copy + PartialEq + Debug, A: Allocator + Copy>(
    findings: &Findings,
    alloc: A,
    capacity: usize,
    rows: &[table_rows::Row<T>],
    memory: &str,
) {
    let allocated = SlotTable::new(alloc, capacity);
    check_tables(findings, allocated, &[rows], memory);
    let relocatable = UninitSlotTable::new_uninit(capacity).init(alloc);
    check_tables(findings, relocatable, &[rows], memory);
}

/// Checks the example on maps with `capacity` slots, allocated from `alloc`, whose slots start at `generation`.
fn check_started<T: Copy + PartialEq + Debug, A: Allocator + Copy>(
    findings: &Findings,
    alloc: A,
    (capacity, generation): (usize, u32),
    rows: &[map_rows::Row<T>],
    memory: &str,
) {
    let allocated = SlotMap::starting_at(alloc, capacity, generation);
    check_tables(findings, allocated, &[rows], memory);
    let relocatable = UninitSlotMap::starting_at(capacity, generation).init(alloc);
    check_tables(findings, relocatable, &[rows], memory);
}

/// Does the same as `check_started`, with generation 0 and with the functions that start at it too.
fn check_new<T: Copy + PartialEq + Debug, A: Allocator + Copy>(
    findings: &Findings,
    alloc: A,
    capacity: usize,
    rows: &[map_rows::Row<T>],
    memory: &str,
) {
    check_started(findings, alloc, (capacity, 0), rows, memory);
    check_tables(findings, SlotMap::new(alloc, capacity), &[rows], memory);
    let relocatable = UninitSlotMap::new_uninit(capacity).init(alloc);
    check_tables(findings, relocatable, &[rows], memory);
    let relocatable = RelocatableSlotMap::<T, A>::new_uninit(capacity).init(alloc);
    check_tables(findings, relocatable, &[rows], memory);
}

/// Checks each example on a table or a map of each kind, allocated from `alloc`.
fn check_examples<A: Allocator + Copy>(findings: &Findings, alloc: A, memory: &str) {
    for (capacity, rows) in OF_TABLES {
        check_table(findings, alloc, *capacity, *rows, memory);
    }
    check_table(findings, alloc, 3, SIZE_ZERO, memory);
    check_started(findings, alloc, (2, LAST), &place_retired(), memory);
    check_new(findings, alloc, 3, &dead_keys(), memory);
    check_new(findings, alloc, 0, &no_place(), memory);
    check_new(findings, alloc, 2, &no_such_keys(), memory);
    check_new(findings, alloc, 3, &each_place(), memory);
    check_new(findings, alloc, 1, &one_place(), memory);
    check_started(findings, alloc, (3, LAST - 1), &size_zero(), memory);
}

/// Does the same as `check_examples`. All of the memory is deallocated.
fn check_heap(findings: &Findings, heap: &LocalHeap) {
    check_examples(findings, heap, "a heap");
    findings.expect_same(heap.used(), 0, "bytes of the heap in use");
}

#[test]
fn in_each_memory(rt: HostRuntime) -> Result<(), Fail> {
    let findings = Findings::new();
    check_examples(&findings, rt.alloc(), "the machine's memory");
    check_examples(&findings, &Bump::new(rt.alloc()), "an arena");
    match LocalHeap::new(rt.alloc(), 512) {
        Ok(heap) => check_heap(&findings, &heap),
        Err(_) => findings.miss("a heap"),
    }
    findings.verdict()
}

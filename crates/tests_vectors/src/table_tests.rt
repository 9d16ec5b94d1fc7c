//! Tables of each kind, and rows of places in raw memory: each function once, and rows that no memory has room for.
ghost use Rattle.std.specs.Prelude.{◌≡◌, None, replicate};

use bumpalo::Bump;
use ix_tables::{HeapTable, InlineTable, RawSlots, Table};
use linked_list_allocator::LocalHeap;
use std::alloc::{AllocError, Allocator, Global};
use std::test::Fail;
use test_support::{Findings, Noted, Notes};

/// Fills places of a table of three, and reads, overwrites and empties them.
fn check_table<S: Table<u64>>(findings: &Findings, mut table: S, kind: &str)
    requires { S.places table ≡ replicate 3 None }
{
    findings.expect_same(table.len(), 3, kind);
    table.put(0, 7);
    table.put(2, 9);
    findings.expect_same((*table.get(2), *table.get(0)), (9, 7), kind);
    findings.expect_same((table.take(0), table.take(2)), (7, 9), kind);
    table.put(0, 4);
    table.put(1, 5);
    *table.get_mut(1) = 6;
    findings.expect_same((table.take(1), table.take(0)), (6, 4), kind);
    table.end();
}

/// Does the same as `check_table`, for raw places.
fn check_slots<A: Allocator>(findings: &Findings, mut slots: RawSlots<u64, A>, memory: &str)
    requires { slots ≡ replicate 3 None }
{
    findings.expect_same(slots.len(), 3, memory);
    slots.put(0, 7);
    slots.put(2, 9);
    findings.expect_same((*slots.get(2), *slots.get(0)), (9, 7), memory);
    findings.expect_same((slots.take(0), slots.take(2)), (7, 9), memory);
    slots.put(0, 4);
    slots.put(1, 5);
    *slots.get_mut(1) = 6;
    findings.expect_same((slots.take(1), slots.take(0)), (6, 4), memory);
    slots.end();
}

fn check_in<A: Allocator + Copy>(findings: &Findings, alloc: A, memory: &str) {
    match HeapTable::<u64, A>::new(alloc, 3) {
        Ok(table) => check_table(findings, table, memory),
        Err(AllocError) => findings.miss(memory),
    }
    match RawSlots::<u64, A>::new(alloc, 3) {
        Ok(slots) => check_slots(findings, slots, memory),
        Err(AllocError) => findings.miss(memory),
    }
}

/// All of the memory is deallocated.
fn check_heap(findings: &Findings, heap: &LocalHeap) {
    check_in(findings, heap, "a heap");
    findings.expect_same(heap.used(), 0, "bytes of the heap in use");
}

#[test]
fn three_places(rt: HostRuntime) -> Result<(), Fail> {
    let findings = Findings::new();
    check_table(&findings, InlineTable::<u64, 3>::new(), "inline");
    check_in(&findings, rt.alloc(), "the machine's memory");
    check_in(&findings, &Bump::new(rt.alloc()), "an arena");
    match LocalHeap::new(rt.alloc(), 64) {
        Ok(heap) => check_heap(&findings, &heap),
        Err(_) => findings.miss("a heap"),
    }
    findings.verdict()
}

#[test]
fn one_place_and_none() -> Result<(), Fail> {
    let findings = Findings::new();
    let none = InlineTable::<u64, 0>::new();
    findings.expect_same(none.len(), 0, "no place");
    none.end();
    let mut single = InlineTable::<u64, 1>::new();
    single.put(0, 9);
    findings.expect_same((single.len(), single.take(0)), (1, 9), "a single place");
    single.end();
    findings.verdict()
}

#[test]
fn small_and_large_items(rt: HostRuntime) -> Result<(), Fail> {
    let findings = Findings::new();
    if let Ok(mut slots) = RawSlots::<[u64; 32], Global>::new(rt.alloc(), 2) {
        slots.put(1, [8; 32]);
        slots.put(0, [7; 32]);
        let (last, first) = (slots.take(1), slots.take(0));
        findings.expect_same((last[0], last[31]), (8, 8), "items of 256 bytes");
        findings.expect_same((first[0], first[31]), (7, 7), "items of 256 bytes");
        slots.end();
    } else {
        findings.miss("there is memory");
    }
    if let Ok(mut units) = HeapTable::<(), Global>::new(rt.alloc(), 3) {
        units.put(2, ());
        findings.expect_same((units.len(), *units.get(2)), (3, ()), "of size zero");
        units.take(2);
        units.end();
    } else {
        findings.miss("only marks are allocated");
    }
    findings.verdict()
}

fn is_refused<T: Drop>(alloc: Global, len: usize) -> bool {
    match HeapTable::<T, Global>::new(alloc, len) {
        Ok(table) => {
            table.end();
            false
        }
        Err(AllocError) => true,
    }
}

#[test]
fn more_bytes_than_isize_max(rt: HostRuntime) -> Result<(), Fail> {
    let findings = Findings::new();
    let (alloc, most) = (rt.alloc(), isize::MAX as usize);
    for len in [usize::MAX / 16 + 1, usize::MAX / 8, usize::MAX] {
        findings.expect(is_refused::<u64>(alloc, len), "numbers");
    }
    findings.expect(
        is_refused::<[u64; 32]>(alloc, most / 256 + 1),
        "large items",
    );
    findings.expect(is_refused::<()>(alloc, most + 1), "items of size zero");
    findings.verdict()
}

#[test]
fn drops_are_the_owners(rt: HostRuntime) -> Result<(), Fail> {
    let findings = Findings::new();
    let notes = Notes::new(0);
    let Ok(mut slots) = RawSlots::<Noted, Global>::new(rt.alloc(), 2) else {
        findings.miss("there is memory");
        return findings.verdict();
    };
    slots.put(1, Noted::new(1, &notes));
    *slots.get_mut(1) = Noted::new(2, &notes);
    findings.expect_same(notes.drops(), 1, "overwritten");
    let item = slots.take(1);
    slots.end();
    findings.expect_same(notes.drops(), 1, "the row ends");
    drop(item);
    findings.expect_same(notes.drops(), 12, "the item");
    findings.verdict()
}

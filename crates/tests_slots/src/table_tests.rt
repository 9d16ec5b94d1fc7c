//! Each function of slot tables once, and functions over any slot table, as a user would write them, proved from the contracts
//! of slot tables alone.
ghost use Rattle.std.specs.Prelude.{◌≡◌, ◌↔◌, [], IsNone, IfSome};
ghost use Rattle.std.specs.Bool.{OnFalse};

use crate::table_rows::EVERY_CALL;
use ix_slottable::{
    FixedSizeSlotTable, Link, MetaSlotTable, RelocatableSlotTable, SlotTable, SlotTableKey,
    Storage, UninitSlotTable,
};
use ix_tables::{HeapTable, InitError, InlineTable, RelocatableContainer, Touches};
use std::alloc::{AllocError, Global};
use std::test::Fail;
use test_support::{Findings, check_rows, check_tables, check_text};

/// Inserts values at the keys 0 and 2 of an empty map with three keys.
pub fn insert_two<M: Storage<u64>>(map: &mut MetaSlotTable<u64, M>) {
    let _ = map.insert_at(SlotTableKey::new(2), 7);
    let _ = map.insert(5);
}

#[test]
fn from_tables(rt: HostRuntime) -> Result<(), Fail> {
    let findings = Findings::new();
    match HeapTable::<Link, Global>::new(rt.alloc(), 2) {
        Ok(links) => {
            let mut map = MetaSlotTable::from_tables(InlineTable::<char, 2>::new(), links);
            check_rows(&findings, &mut map, EVERY_CALL, "two kinds of tables");
        }
        Err(AllocError) => findings.miss("there is memory"),
    }
    findings.verdict()
}

#[test]
fn two_steps(rt: HostRuntime) -> Result<(), Fail> {
    let findings = Findings::new();
    let uninit = InitError::new(RelocatableSlotTable::<char, Global>::new_uninit(2)).into_uninit();
    let made = uninit.init(rt.alloc());
    check_tables(
        &findings,
        made,
        &[EVERY_CALL],
        "by the type of the ready map",
    );
    let uninit = <UninitSlotTable<char> as RelocatableContainer<Global>>::new_uninit(2);
    let made = uninit.init(rt.alloc());
    check_tables(&findings, made, &[EVERY_CALL], "by the trait");
    findings.verdict()
}

#[test]
fn counted_calls() -> Result<(), Fail> {
    let findings = Findings::new();
    let mut map = FixedSizeSlotTable::<u64, 2>::new();
    let mut touches = Touches::new();
    let one = SlotTableKey::new(1);
    let puts = [
        map.insert_at_counted(one, 5, &mut touches),
        map.insert_at_counted(one, 6, &mut touches),
    ];
    findings.expect_same(puts, [true, true], "counted calls");
    let keys = [
        map.insert_counted(7, &mut touches),
        map.insert_counted(8, &mut touches),
    ];
    findings.expect_same(keys, [Some(SlotTableKey::new(0)), None], "counted calls");
    let removed = [
        map.remove_counted(one, &mut touches),
        map.remove_counted(one, &mut touches),
    ];
    findings.expect_same(removed, [Some(6), None], "counted calls");
    let is_key = map.insert_at_counted(SlotTableKey::new(2), 9, &mut touches);
    findings.expect_same(is_key, false, "counted calls");
    findings.verdict()
}

/// Makes each call that has a condition, at the first free key.
fn make_unchecked_calls<M: Storage<u64>>(findings: &Findings, map: &mut MetaSlotTable<u64, M>) {
    let Some(key) = map.next_free_key() else {
        return findings.miss("a free key");
    };
    map.insert_at_unchecked(key, 5);
    *map.get_unchecked_mut(key) = 6;
    findings.expect_same(*map.get_unchecked(key), 6, "the value");
    findings.expect_same(map.remove_unchecked(key), 6, "the value that is removed");
    findings.expect_same(map.next_free_key(), Some(key), "the first free key");
    let mut touches = Touches::new();
    map.insert_at_unchecked_counted(key, 7, &mut touches);
    *map.get_unchecked_mut_counted(key, &mut touches) = 8;
    findings.expect_same(map.get(key), Some(&8), "the value");
    let removed = map.remove_unchecked_counted(key, &mut touches);
    findings.expect_same(removed, 8, "the value that is removed");
    findings.expect_same(map.next_free_key(), Some(key), "the first free key");
}

#[test]
fn unchecked_calls(rt: HostRuntime) -> Result<(), Fail> {
    let findings = Findings::new();
    let mut fixed = FixedSizeSlotTable::<u64, 3>::new();
    make_unchecked_calls(&findings, &mut fixed);
    insert_two(&mut fixed);
    make_unchecked_calls(&findings, &mut fixed);
    check_text(&findings, &fixed, "{0: 5, 2: 7}");
    match SlotTable::<u64>::new(rt.alloc(), 1) {
        Ok(mut map) => make_unchecked_calls(&findings, &mut map),
        Err(AllocError) => findings.miss("there is memory"),
    }
    findings.verdict()
}

/// Inserts `value` and returns the value that the map then has at its key, or `None` if the map is full.
fn insert_and_get<T: Copy, M: Storage<T>>(map: &mut MetaSlotTable<T, M>, value: T) -> Option<T>
    ensures value { IfSome result (λ found. found ≡ value) }
    ensures full { IsNone result ↔ (map.old.free ≡ []) }
{
    match map.insert(value) {
        Some(key) => map.get(key).copied(),
        None => None,
    }
}

/// Inserts `value` at the key that the map names as the next free one. Returns false if the map is full.
fn insert_at_next<T: Drop, M: Storage<T>>(map: &mut MetaSlotTable<T, M>, value: T) -> bool
    ensures { OnFalse result (map.old.free ≡ []) }
{
    match map.next_free_key() {
        Some(key) => map.insert_at(key, value),
        None => false,
    }
}

#[test]
fn functions_of_a_user() -> Result<(), Fail> {
    let findings = Findings::new();
    let mut map = FixedSizeSlotTable::<u64, 2>::new();
    findings.expect_same(insert_and_get(&mut map, 5), Some(5), "insert and get");
    findings.expect(insert_at_next(&mut map, 6), "insert at the next free key");
    findings.expect_same(map.get(SlotTableKey::new(1)).copied(), Some(6), "the value");
    findings.expect_same(insert_and_get(&mut map, 7), None, "a full map");
    findings.expect(!insert_at_next(&mut map, 7), "a full map");
    findings.verdict()
}

//! The worked examples on each kind of map, in each memory and by several hashers.
ghost use Rattle.ix_tables.specs.Cloning.{AreEqualClones};

use crate::caseless::Caseless;
use crate::checks::check_example;
use crate::hashers::{HASHES, OneHash};
use crate::keys::{Letter, Port};
use crate::rows::{
    CHAIN, EVERY_CALL, HELD_BEFORE_FULL, LAST_REMOVED_FIRST, LISTINGS, NO_PLACE, Row, SIZE_ZERO,
    SLOT_ORDER, UNIT_VALUES, VALUE_WRITTEN, case_ignored, letters, ports, texts,
};
use bumpalo::Bump;
use ix_flatmap::{FixedSizeFlatMap, FlatMap, KeyIndex, MetaFlatMap, MetaMap, Pair, UninitFlatMap};
use ix_hashmap::{FixedSizeHashMap, HashMap, UninitHashMap};
use ix_slottable::Storage;
use ix_string::StaticString;
use ix_tables::RelocatableContainer;
use linked_list_allocator::LocalHeap;
use std::alloc::{AllocError, Allocator};
use std::fmt::Debug;
use std::hash::Hash;
use std::test::Fail;
use test_support::Findings;

/// Checks the example on `fixed`, and on a flat map of each other kind, which is allocated from `alloc`.
fn check_map<
    K: Eq + Copy + Debug,
    V: Copy + PartialEq + Debug,
    M: Storage<Pair<K, V>>,
    A: Allocator + Copy,
>(
    findings: &Findings,
    alloc: A,
    fixed: &mut MetaFlatMap<Pair<K, V>, M>,
    capacity: usize,
    rows: &[Row<K, V>],
    memory: &str,
)
    requires { AreEqualClones V.is_clone }
{
    check_example(findings, fixed, rows, memory);
    match FlatMap::<K, V, A>::new(alloc, capacity) {
        Ok(mut map) => check_example(findings, &mut map, rows, memory),
        Err(AllocError) => findings.miss(memory),
    }
    match UninitFlatMap::<K, V>::new_uninit(capacity).init(alloc) {
        Ok(mut map) => check_example(findings, &mut map, rows, memory),
        Err(_) => findings.miss(memory),
    }
}

/// Checks the example on `fixed`, and on a hash map of each other kind, which is allocated from `alloc`.
fn check_hash<
    K: Eq + Hash + Copy + Debug,
    V: Copy + PartialEq + Debug,
    M: Storage<Pair<K, V>>,
    I: KeyIndex<K, V>,
    A: Allocator + Copy,
>(
    findings: &Findings,
    alloc: A,
    fixed: &mut MetaMap<Pair<K, V>, M, I>,
    capacity: usize,
    rows: &[Row<K, V>],
    memory: &str,
)
    requires { AreEqualClones V.is_clone }
{
    check_example(findings, fixed, rows, memory);
    match HashMap::<K, V, A>::new(alloc, capacity) {
        Ok(mut map) => check_example(findings, &mut map, rows, memory),
        Err(AllocError) => findings.miss(memory),
    }
    match UninitHashMap::<K, V>::new_uninit(capacity).init(alloc) {
        Ok(mut map) => check_example(findings, &mut map, rows, memory),
        Err(_) => findings.miss(memory),
    }
    for hash in HASHES {
        match HashMap::<K, V, A, OneHash>::with_hasher(alloc, capacity, OneHash { hash }) {
            Ok(mut map) => check_example(findings, &mut map, rows, "one bucket"),
            Err(AllocError) => findings.miss(memory),
        }
    }
}

/// Does the same as `check_map` and `check_hash`.
fn check_kinds<
    K: Eq + Hash + Copy + Debug,
    V: Copy + PartialEq + Debug,
    M: Storage<Pair<K, V>>,
    I: KeyIndex<K, V>,
    A: Allocator + Copy,
>(
    findings: &Findings,
    alloc: A,
    flat: &mut MetaFlatMap<Pair<K, V>, M>,
    hashed: &mut MetaMap<Pair<K, V>, M, I>,
    capacity: usize,
    rows: &[Row<K, V>],
    memory: &str,
)
    requires { AreEqualClones V.is_clone }
{
    check_map(findings, alloc, flat, capacity, rows, memory);
    check_hash(findings, alloc, hashed, capacity, rows, memory);
}

/// Checks each example of numbers on a map of each kind.
fn check_numbers<A: Allocator + Copy>(findings: &Findings, alloc: A, memory: &str) {
    let mut flat = FixedSizeFlatMap::<u64, u64, 0>::new();
    let mut hashed = FixedSizeHashMap::<u64, u64, 0>::new();
    check_kinds(findings, alloc, &mut flat, &mut hashed, 0, NO_PLACE, memory);
    let mut flat = FixedSizeFlatMap::<u64, u64, 1>::new();
    let mut hashed = FixedSizeHashMap::<u64, u64, 1>::new();
    check_kinds(
        findings,
        alloc,
        &mut flat,
        &mut hashed,
        1,
        HELD_BEFORE_FULL,
        memory,
    );
    for rows in [VALUE_WRITTEN, EVERY_CALL] {
        let mut flat = FixedSizeFlatMap::<u64, u64, 2>::new();
        let mut hashed = FixedSizeHashMap::<u64, u64, 2>::new();
        check_kinds(findings, alloc, &mut flat, &mut hashed, 2, rows, memory);
    }
    for rows in [SLOT_ORDER, LISTINGS, LAST_REMOVED_FIRST] {
        let mut flat = FixedSizeFlatMap::<u64, u64, 3>::new();
        let mut hashed = FixedSizeHashMap::<u64, u64, 3>::new();
        check_kinds(findings, alloc, &mut flat, &mut hashed, 3, rows, memory);
    }
    let mut flat = FixedSizeFlatMap::<u64, u64, 4>::new();
    let mut hashed = FixedSizeHashMap::<u64, u64, 4>::new();
    check_kinds(findings, alloc, &mut flat, &mut hashed, 4, CHAIN, memory);
}

/// Checks each example on a map of each kind.
fn check_examples<A: Allocator + Copy>(findings: &Findings, alloc: A, memory: &str) {
    check_numbers(findings, alloc, memory);
    let mut caseless = FixedSizeFlatMap::<Caseless, u64, 2>::new();
    check_map(findings, alloc, &mut caseless, 2, &case_ignored(), memory);
    let mut flat = FixedSizeFlatMap::<Letter, u64, 2>::new();
    let mut hashed = FixedSizeHashMap::<Letter, u64, 2>::new();
    check_kinds(
        findings,
        alloc,
        &mut flat,
        &mut hashed,
        2,
        &letters(),
        memory,
    );
    let mut flat = FixedSizeFlatMap::<StaticString<16>, char, 2>::new();
    let mut hashed = FixedSizeHashMap::<StaticString<16>, char, 2>::new();
    check_kinds(findings, alloc, &mut flat, &mut hashed, 2, &texts(), memory);
    let mut flat = FixedSizeFlatMap::<Port, u64, 3>::new();
    let mut hashed = FixedSizeHashMap::<Port, u64, 3>::new();
    check_kinds(findings, alloc, &mut flat, &mut hashed, 3, &ports(), memory);
    let mut flat = FixedSizeFlatMap::<u64, (), 3>::new();
    let mut hashed = FixedSizeHashMap::<u64, (), 3>::new();
    check_kinds(
        findings,
        alloc,
        &mut flat,
        &mut hashed,
        3,
        UNIT_VALUES,
        memory,
    );
    let mut flat = FixedSizeFlatMap::<(), (), 2>::new();
    let mut hashed = FixedSizeHashMap::<(), (), 2>::new();
    check_kinds(
        findings,
        alloc,
        &mut flat,
        &mut hashed,
        2,
        SIZE_ZERO,
        memory,
    );
}

/// Checks the example of one bucket on a fixed map of each of the hashes.
fn check_fixed(findings: &Findings) {
    for hash in HASHES {
        let mut map = FixedSizeHashMap::<u64, u64, 4, OneHash>::with_hasher(OneHash { hash });
        check_example(findings, &mut map, CHAIN, "one bucket of a fixed map");
    }
}

/// Does the same as `check_examples`. All of the memory is deallocated.
fn check_heap(findings: &Findings, heap: &LocalHeap) {
    check_examples(findings, heap, "a heap");
    findings.expect_same(heap.used(), 0, "bytes of the heap in use");
}

#[test]
fn in_each_memory(rt: HostRuntime) -> Result<(), Fail> {
    let findings = Findings::new();
    check_fixed(&findings);
    check_examples(&findings, rt.alloc(), "the machine's memory");
    check_examples(&findings, &Bump::new(rt.alloc()), "an arena");
    match LocalHeap::new(rt.alloc(), 512) {
        Ok(heap) => check_heap(&findings, &heap),
        Err(_) => findings.miss("a heap"),
    }
    findings.verdict()
}

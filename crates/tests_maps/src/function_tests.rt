//! Each function once, by its bound where it has one.
ghost use Rattle.std.specs.Prelude.{◌≡◌};

use crate::checks::check_example;
use crate::rows::EVERY_CALL;
use ix_flatmap::MapError::{IsFull, KeyAlreadyExists};
use ix_flatmap::{
    CallbackProgression, FixedSizeFlatMap, FlatMap, KeyIndex, MapError, MetaMap, Pair,
    RelocatableFlatMap, UninitFlatMap,
};
use ix_hashmap::{
    DefaultHashBuilder, FixedSizeHashMap, HashMap, RelocatableHashMap, UninitHashMap, WithHasher,
};
use ix_slottable::Storage;
use ix_tables::{InitError, RelocatableContainer};
use std::alloc::{AllocError, Global};
use std::fmt::Debug;
use std::hash::RandomState;
use std::io;
use std::random::RandomSource;
use std::test::Fail;
use test_support::{Findings, check_display, check_text, hash_of};

/// Changes an empty map of 3, so that slot order is not the order of the insertions.
fn insert_two<M: Storage<Pair<u64, u64>>, I: KeyIndex<u64, u64>>(
    map: &mut MetaMap<Pair<u64, u64>, M, I>,
) {
    let _ = map.insert(80, 1);
    let _ = map.insert(443, 2);
    let _ = map.remove(&80);
    let _ = map.insert(8080, 3);
}

/// Returns the values in slot order, up to the first that is `last`, as digits.
fn values_up_to<M: Storage<Pair<u64, u64>>, I: KeyIndex<u64, u64>>(
    map: &MetaMap<Pair<u64, u64>, M, I>,
    last: u64,
) -> u64 {
    let mut digits = 0u64;
    for (_, value) in map {
        digits = digits.wrapping_mul(10).wrapping_add(*value);
        if *value == last {
            break;
        }
    }
    digits
}

/// Checks the calls of an empty map of 3, and its texts and those of its iterators.
fn check_calls<M: Storage<Pair<u64, u64>>, I: KeyIndex<u64, u64>>(
    findings: &Findings,
    map: &mut MetaMap<Pair<u64, u64>, M, I>,
) {
    check_text(findings, map, "{}");
    insert_two(map);
    check_text(findings, map, "{8080: 3, 443: 2}");
    check_text(findings, &map.keys(), "[8080, 443]");
    check_text(findings, &map.values(), "[3, 2]");
    check_text(findings, &map.iter(), "[(8080, 3), (443, 2)]");
    let mut keys = map.keys();
    findings.expect_same(keys.next().copied(), Some(8080), "the first key");
    check_text(findings, &keys, "[443]");
    let mut items = map.iter();
    findings.expect(items.next() == Some((&8080, &3)), "the first item");
    check_text(findings, &items, "[(443, 2)]");
    findings.expect_same(map.get(&443), Ok(Some(2)), "a clone");
    findings.expect_same(map.get(&80), Ok(None), "no clone");
    findings.expect(
        map.get_key_value(&443) == Some((&443, &2)),
        "a key with its value",
    );
    findings.expect(map.get_key_value(&80).is_none(), "no key");
    findings.expect_same(map.nth_key(1).copied(), Some(443), "the second key");
    let mut listed = 0u64;
    map.list_keys(|key| {
        listed = listed.wrapping_mul(10_000).wrapping_add(*key);
        CallbackProgression::Stop
    });
    findings.expect_same(listed, 8080, "listed up to the first key");
    findings.expect_same(values_up_to(&*map, 0), 32, "each value");
    findings.expect_same(values_up_to(&*map, 3), 3, "a loop that stops");
    findings.expect_same(map.len(), 2, "the map is as it was");
    map.clear();
    findings.expect_same(values_up_to(&*map, 0), 0, "no key");
    check_text(findings, map, "{}");
}

#[test]
fn each_kind(rt: HostRuntime) -> Result<(), Fail> {
    let findings = Findings::new();
    check_calls(&findings, &mut FixedSizeFlatMap::<u64, u64, 3>::new());
    match FlatMap::<u64, u64>::new(rt.alloc(), 3) {
        Ok(mut map) => check_calls(&findings, &mut map),
        Err(AllocError) => findings.miss("there is memory"),
    }
    check_calls(&findings, &mut FixedSizeHashMap::<u64, u64, 3>::new());
    match HashMap::<u64, u64>::new(rt.alloc(), 3) {
        Ok(mut map) => check_calls(&findings, &mut map),
        Err(AllocError) => findings.miss("there is memory"),
    }
    let uninit = RelocatableHashMap::<u64, u64, Global>::new_uninit(3);
    match InitError::new(uninit).into_uninit().init(rt.alloc()) {
        Ok(mut map) => check_calls(&findings, &mut map),
        Err(_) => findings.miss("there is memory"),
    }
    let uninit = <UninitHashMap<u64, u64> as RelocatableContainer<Global>>::new_uninit(3);
    match uninit.init(rt.alloc()) {
        Ok(mut map) => check_calls(&findings, &mut map),
        Err(_) => findings.miss("there is memory"),
    }
    findings.verdict()
}

/// A source whose bytes are all 7.
struct Sevens;

impl RandomSource for Sevens {
    fn fill_bytes(&self, buf: &mut [u8]) -> io::Result<()> {
        buf.fill(7);
        Ok(())
    }
}

/// Initialises a container of 3 in two phases.
fn init_of_three<M, U: RelocatableContainer<M>>(memory: M) -> Result<U::Ready, InitError<U>> {
    U::new_uninit(3).init(memory)
}

/// Checks maps whose hashers are made by `state`.
fn check_state(findings: &Findings, alloc: Global, state: RandomState) {
    let mut fixed = FixedSizeHashMap::<u64, u64, 3, RandomState>::with_hasher(state);
    check_calls(findings, &mut fixed);
    match HashMap::<u64, u64, Global, RandomState>::with_hasher(alloc, 3, state) {
        Ok(mut map) => check_calls(findings, &mut map),
        Err(AllocError) => findings.miss("there is memory"),
    }
    let memory = WithHasher {
        alloc,
        hasher: state,
    };
    match UninitHashMap::<u64, u64, RandomState>::new_uninit(3).init(memory) {
        Ok(mut map) => check_calls(findings, &mut map),
        Err(_) => findings.miss("there is memory"),
    }
    match init_of_three::<_, UninitHashMap<u64, u64, RandomState>>(memory) {
        Ok(mut map) => check_calls(findings, &mut map),
        Err(_) => findings.miss("there is memory"),
    }
}

#[test]
fn hashers_of_choice(rt: HostRuntime) -> Result<(), Fail> {
    let findings = Findings::new();
    match RandomState::new(&Sevens) {
        Ok(state) => check_state(&findings, rt.alloc(), state),
        Err(_) => findings.miss("bytes"),
    }
    let folding = DefaultHashBuilder::new();
    let mut fixed = FixedSizeHashMap::<u64, u64, 3>::with_hasher(folding);
    check_calls(&findings, &mut fixed);
    findings.verdict()
}

/// Counts a letter in a map of any kind.
fn count_letter<M: Storage<Pair<u8, u64>>, I: KeyIndex<u8, u64>>(
    counts: &mut MetaMap<Pair<u8, u64>, M, I>,
    letter: u8,
) -> bool {
    match counts.get_mut_ref(&letter) {
        Some(count) => {
            *count = count.wrapping_add(1);
            true
        }
        None => counts.insert(letter, 1).is_ok(),
    }
}

/// Counts the letters of a string.
fn check_counts<M: Storage<Pair<u8, u64>>, I: KeyIndex<u8, u64>>(
    findings: &Findings,
    counts: &mut MetaMap<Pair<u8, u64>, M, I>,
) {
    for letter in [b'a', b'b', b'a', b'c', b'a'] {
        let is_counted = count_letter(counts, letter);
        findings.expect_same(is_counted, letter != b'c', "there is room for two");
    }
    findings.expect(
        counts.get_key_value(&b'a') == Some((&b'a', &3)),
        "three times",
    );
    findings.expect_same(counts.get_ref(&b'b').copied(), Some(1), "once");
    findings.expect_same(counts.get_ref(&b'c').copied(), None, "never");
    findings.expect_same(counts.insert(b'a', 0), Err(KeyAlreadyExists), "held");
    findings.expect_same(counts.insert(b'c', 0), Err(IsFull), "full");
}

#[test]
fn maps_of_any_kind() -> Result<(), Fail> {
    let findings = Findings::new();
    check_counts(&findings, &mut FixedSizeFlatMap::<u8, u64, 2>::new());
    check_counts(&findings, &mut FixedSizeHashMap::<u8, u64, 2>::new());
    findings.verdict()
}

/// A struct with a map.
#[derive(Drop)]
struct Ports {
    names: FixedSizeHashMap<u16, char, 2>,
    open: HashMap<u16, bool>,
}

/// Returns its argument.
fn pass<T>(value: T) -> T {
    value
}

/// Returns the number of keys of both maps, which are dropped.
fn count(ports: Ports) -> usize {
    ports.names.len().wrapping_add(ports.open.len())
}

/// Returns the number of keys of a map, which is dropped.
fn count_names(names: FixedSizeHashMap<u16, char, 2>) -> usize {
    names.len()
}

/// Passes maps by value.
fn check_passing(findings: &Findings, alloc: Global) -> Result<(), AllocError> {
    let mut names = FixedSizeHashMap::<u16, char, 2>::new();
    let _ = names.insert(80, 'a');
    let mut open = HashMap::<u16, bool>::new(alloc, 2)?;
    let _ = open.insert(80, true);
    let _ = open.insert(443, false);
    let ports = pass(Ports { names, open });
    findings.expect_same(count(ports), 3, "in a struct");
    let mut names = FixedSizeHashMap::<u16, char, 2>::new();
    let _ = names.insert(80, 'a');
    findings.expect_same(count_names(pass(names)), 1, "a map");
    Ok(())
}

#[test]
fn by_value(rt: HostRuntime) -> Result<(), Fail> {
    let findings = Findings::new();
    let is_passed = check_passing(&findings, rt.alloc()).is_ok();
    findings.expect(is_passed, "there is memory");
    findings.verdict()
}

#[test]
fn no_place_and_no_bytes() -> Result<(), Fail> {
    let findings = Findings::new();
    let none = FixedSizeFlatMap::<u64, u64, 0>::new();
    findings.expect_same(none.iter().count(), 0, "capacity 0");
    findings.expect_same(none.iter().len(), 0, "capacity 0");
    let mut unit = FixedSizeFlatMap::<(), (), 2>::new();
    let _ = unit.insert((), ());
    findings.expect(unit.iter().next() == Some((&(), &())), "of size zero");
    findings.expect_same(unit.iter().count(), 1, "of size zero");
    findings.verdict()
}

#[test]
fn texts() -> Result<(), Fail> {
    let findings = Findings::new();
    check_text(&findings, &KeyAlreadyExists, "KeyAlreadyExists");
    check_text(&findings, &IsFull, "IsFull");
    let text = "MapError::KeyAlreadyExists";
    check_display(&findings, &KeyAlreadyExists, text);
    check_display(&findings, &IsFull, "MapError::IsFull");
    check_text(&findings, &CallbackProgression::Continue, "Continue");
    check_text(&findings, &CallbackProgression::Stop, "Stop");
    let pair = Pair {
        key: 1u64,
        value: 'a',
    };
    findings.expect_same((pair.key, pair.value), (1, 'a'), "a pair");
    findings.verdict()
}

/// Checks that two values are equal to their copies and not to one another.
fn check_equality<T: Copy + Eq + Debug>(findings: &Findings, one: &T, other: &T) {
    let (first, second) = (*one, *other);
    findings.expect(first == *one && second == *other, "a copy is equal");
    findings.expect(*one != *other && *other != *one, "others are not");
}

#[test]
fn errors_and_progressions() -> Result<(), Fail> {
    let findings = Findings::new();
    check_equality(&findings, &KeyAlreadyExists, &IsFull);
    let (go, stop) = (CallbackProgression::Continue, CallbackProgression::Stop);
    check_equality(&findings, &go, &stop);
    let error: MapError = KeyAlreadyExists;
    findings.expect_same(hash_of(&error), hash_of(&KeyAlreadyExists), "one hash");
    findings.expect(hash_of(&error) != hash_of(&IsFull), "two hashes");
    findings.verdict()
}

#[test]
fn two_steps(rt: HostRuntime) -> Result<(), Fail> {
    let findings = Findings::new();
    let uninit = RelocatableFlatMap::<u64, u64, Global>::new_uninit(2);
    match InitError::new(uninit).into_uninit().init(rt.alloc()) {
        Ok(mut map) => check_example(&findings, &mut map, EVERY_CALL, "by the ready type"),
        Err(_) => findings.miss("there is memory"),
    }
    let uninit = <UninitFlatMap<u64, u64> as RelocatableContainer<Global>>::new_uninit(2);
    match uninit.init(rt.alloc()) {
        Ok(mut map) => check_example(&findings, &mut map, EVERY_CALL, "by the trait"),
        Err(_) => findings.miss("there is memory"),
    }
    findings.verdict()
}

#[test]
fn more_than_a_few_are_printed() -> Result<(), Fail> {
    let findings = Findings::new();
    let mut map = FixedSizeFlatMap::<u8, u8, 9>::new();
    for number in 1..10 {
        let _ = map.insert(number, number);
    }
    check_text(
        &findings,
        &map,
        "{1: 1, 2: 2, 3: 3, 4: 4, 5: 5, 6: 6, 7: 7, 8: 8, 9: 9}",
    );
    check_text(&findings, &map.keys(), "[1, 2, 3, 4, 5, 6, 7, 8, 9]");
    findings.verdict()
}

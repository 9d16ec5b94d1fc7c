//! Each function of options once, with a value and without one.
use ix_relocatable_option::RelocatableOption;
use std::alloc::{AllocError, Global};
use std::cmp::Ordering::{self, Equal, Greater, Less};
use std::mem::size_of;
use std::test::Fail;
use test_support::{Findings, hash_of, order_of};

const NOTHING: RelocatableOption<u64> = RelocatableOption::None;

const FOUR: RelocatableOption<u64> = RelocatableOption::Some(4);

/// Options, and those of std that they are converted to and from.
const OPTIONS: &[(RelocatableOption<u64>, Option<u64>)] = &[(FOUR, Some(4)), (NOTHING, None)];

#[test]
fn conversions() -> Result<(), Fail> {
    let findings = Findings::new();
    for (row, (option, other)) in OPTIONS.iter().enumerate() {
        findings.expect_same_at(option.to_option(), *other, row, "to_option");
        findings.expect_same_at(RelocatableOption::from(*other), *option, row, "from");
        let converted: Option<u64> = (*option).into();
        findings.expect_same_at(converted, *other, row, "into");
        findings.expect_same_at(option.as_option_ref(), other.as_ref(), row, "as_option_ref");
        let is_same = option.as_ref() == RelocatableOption::from(other.as_ref());
        findings.expect_at(is_same, row, "as_ref");
        findings.expect_same_at(option.is_some(), other.is_some(), row, "is_some");
        findings.expect_same_at(option.is_none(), other.is_none(), row, "is_none");
    }
    findings.expect_same(RelocatableOption::default(), NOTHING, "the default");
    findings.expect_same(size_of::<RelocatableOption<u64>>(), 16, "the size");
    findings.verdict()
}

#[test]
fn writes() -> Result<(), Fail> {
    let findings = Findings::new();
    let mut option = FOUR;
    if let Some(value) = option.as_option_mut() {
        *value = 7;
    }
    findings.expect_same(option, RelocatableOption::Some(7), "as_option_mut");
    if let RelocatableOption::Some(value) = option.as_mut() {
        *value = 9;
    }
    findings.expect_same(option, RelocatableOption::Some(9), "as_mut");
    let mut nothing = NOTHING;
    findings.expect(nothing.as_option_mut().is_none(), "as_option_mut of none");
    findings.expect(nothing.as_mut().is_none(), "as_mut of none");
    findings.expect_same(nothing, NOTHING, "nothing is written");
    findings.verdict()
}

/// Writes through `as_deref_mut` of a box of 4.
fn check_box(findings: &Findings, alloc: Global) {
    let Ok(boxed) = Box::new(alloc, 4u64) else {
        return findings.miss("there is memory for a box");
    };
    let mut option = RelocatableOption::Some(boxed);
    findings.expect(option.as_deref() == RelocatableOption::Some(&4), "as_deref");
    if let RelocatableOption::Some(value) = option.as_deref_mut() {
        *value = 9;
    }
    findings.expect(
        option.as_deref() == RelocatableOption::Some(&9),
        "as_deref_mut",
    );
}

#[test]
fn dereferenced(rt: HostRuntime) -> Result<(), Fail> {
    let findings = Findings::new();
    check_box(&findings, rt.alloc());
    match String::from_str(rt.alloc(), "ab") {
        Ok(text) => {
            let text = RelocatableOption::Some(text);
            findings.expect(text.as_deref() == RelocatableOption::Some("ab"), "a text");
        }
        Err(AllocError) => findings.miss("there is memory for a text"),
    }
    let mut nothing: RelocatableOption<Box<u64>> = RelocatableOption::None;
    findings.expect(
        nothing.as_deref() == RelocatableOption::None,
        "as_deref of none",
    );
    findings.expect(nothing.as_deref_mut().is_none(), "as_deref_mut of none");
    findings.verdict()
}

#[test]
fn values() -> Result<(), Fail> {
    let findings = Findings::new();
    findings.expect_same(FOUR.unwrap(), 4, "unwrap");
    findings.expect_same(FOUR.expect("it is four"), 4, "expect");
    findings.expect_same(FOUR.unwrap_unchecked(), 4, "unwrap_unchecked");
    findings.expect_same(FOUR.unwrap_or(5), 4, "unwrap_or");
    findings.expect_same(NOTHING.unwrap_or(5), 5, "unwrap_or of none");
    findings.expect_same(FOUR.unwrap_or_default(), 4, "unwrap_or_default");
    findings.expect_same(NOTHING.unwrap_or_default(), 0, "unwrap_or_default of none");
    let copy: Result<RelocatableOption<u64>, AllocError> = FOUR.clone();
    findings.expect_same(copy, Ok(FOUR), "clone");
    findings.verdict()
}

#[test]
fn replaced_and_taken() -> Result<(), Fail> {
    let findings = Findings::new();
    let mut option = NOTHING;
    findings.expect_same(option.replace(4), NOTHING, "replace of none");
    findings.expect_same(option.replace(5), FOUR, "replace");
    findings.expect_same(option.take(), RelocatableOption::Some(5), "take");
    findings.expect_same(option.take(), NOTHING, "take of none");
    findings.expect_same(option, NOTHING, "after take");
    findings.verdict()
}

#[test]
fn taken_if() -> Result<(), Fail> {
    let findings = Findings::new();
    let mut option = FOUR;
    let taken = option.take_if(|value| {
        *value = value.saturating_add(1);
        false
    });
    findings.expect_same(taken, NOTHING, "not taken");
    findings.expect_same(option, RelocatableOption::Some(5), "the change stays");
    let taken = option.take_if(|value| {
        *value = value.saturating_add(1);
        true
    });
    findings.expect_same(taken, RelocatableOption::Some(6), "taken");
    findings.expect_same(option, NOTHING, "nothing stays");
    findings.expect_same(option.take_if(|_| true), NOTHING, "take_if of none");
    findings.verdict()
}

#[test]
fn comparisons() -> Result<(), Fail> {
    let findings = Findings::new();
    let (four, same, nothing) = (FOUR, FOUR, NOTHING);
    findings.expect(four == same && nothing == NOTHING, "equal");
    findings.expect(four != nothing && nothing != four, "a value and none");
    findings.expect(four != RelocatableOption::Some(5), "other values");
    findings.expect_same(hash_of(&four), hash_of(&same), "one hash");
    findings.expect(hash_of(&four) != hash_of(&nothing), "two hashes");
    let five = RelocatableOption::Some(5u64);
    findings.expect(hash_of(&four) != hash_of(&five), "the value is hashed too");
    findings.verdict()
}

#[test]
fn items_of_size_zero() -> Result<(), Fail> {
    let findings = Findings::new();
    let mut option = RelocatableOption::Some(());
    findings.expect(option.is_some(), "a value");
    findings.expect_same(option.replace(()), RelocatableOption::Some(()), "replace");
    findings.expect_same(option.take(), RelocatableOption::Some(()), "take");
    findings.expect_same(option.to_option(), None, "none");
    findings.expect_same(option.unwrap_or(()), (), "unwrap_or");
    findings.verdict()
}

/// Two options, and how the first one compares with the second one.
const PAIRS: &[(RelocatableOption<u64>, RelocatableOption<u64>, Ordering)] = &[
    (FOUR, RelocatableOption::Some(5), Less),
    (FOUR, FOUR, Equal),
    (RelocatableOption::Some(5), FOUR, Greater),
    (FOUR, NOTHING, Greater),
    (NOTHING, FOUR, Less),
    (NOTHING, RelocatableOption::Some(0), Less),
    (NOTHING, NOTHING, Equal),
];

#[test]
fn order() -> Result<(), Fail> {
    let findings = Findings::new();
    for (row, (option, other, order)) in PAIRS.iter().enumerate() {
        findings.expect_same_at(order_of(option, other), *order, row, "cmp");
        findings.expect_same_at(option.partial_cmp(other), Some(*order), row, "partial_cmp");
        findings.expect_same_at(*option < *other, *order == Less, row, "less");
        let of_std = option.to_option().cmp(&other.to_option());
        findings.expect_same_at(of_std, *order, row, "as the options of std");
    }
    let floats = RelocatableOption::Some(f64::NAN);
    findings.expect_same(floats.partial_cmp(&floats), None, "values without an order");
    findings.verdict()
}

#[test]
fn results() -> Result<(), Fail> {
    let findings = Findings::new();
    findings.expect_same(FOUR.ok_or("none"), Ok(4), "ok_or");
    findings.expect_same(NOTHING.ok_or("none"), Err("none"), "ok_or of none");
    findings.verdict()
}

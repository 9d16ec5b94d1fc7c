//! Values as JSON and back.
use crate::forms::Empty;
use ix_json::JsonForm;
use ix_relocatable_option::RelocatableOption;
use ix_semantic_string::{GroupName, Semantic, TrailingSlashRules};
use ix_string::StaticString;
use ix_vector::{StaticVec, Vector, VectorModificationError};
use serde_json::Value;
use std::alloc::{AllocError, Global};
use std::fmt::Debug;
use std::test::Fail;
use test_support::Findings;

/// Checks the JSON text of a value.
fn check_value(findings: &Findings, alloc: Global, value: &Value, text: &str) {
    match value.to_string(alloc) {
        Ok(found) => findings.expect_same(found.as_str(), text, "the text"),
        Err(AllocError) => findings.miss("there is memory for a text"),
    }
}

/// Checks the JSON text of a value, and the result of reading it back.
fn check_back<T: JsonForm + PartialEq + Debug + Drop>(
    findings: &Findings,
    alloc: Global,
    value: &T,
    text: &str,
    back: T,
) {
    match value.to_value(alloc) {
        Ok(written) => {
            check_value(findings, alloc, &written, text);
            findings.expect_same(T::from_value(&written), Ok(back), text);
        }
        Err(_) => findings.miss("there is memory for a value"),
    }
}

/// Checks the JSON text of a value, which is read back.
pub fn check<T: JsonForm + PartialEq + Debug + Copy>(
    findings: &Findings,
    alloc: Global,
    value: T,
    text: &str,
) {
    check_back(findings, alloc, &value, text, value);
}

#[test]
fn numbers(rt: HostRuntime) -> Result<(), Fail> {
    let findings = Findings::new();
    check(&findings, rt.alloc(), 0u64, "0");
    check(&findings, rt.alloc(), u64::MAX, "18446744073709551615");
    check(&findings, rt.alloc(), -5i64, "-5");
    check(&findings, rt.alloc(), 5i64, "5");
    check(&findings, rt.alloc(), i64::MIN, "-9223372036854775808");
    check(&findings, rt.alloc(), i64::MAX, "9223372036854775807");
    check(&findings, rt.alloc(), true, "true");
    check(&findings, rt.alloc(), false, "false");
    findings.verdict()
}

/// Strings, and how JSON spells them.
const TEXTS: &[(&str, &str)] = &[
    ("abc", "\"abc\""),
    ("", "\"\""),
    ("a\"\\", "\"a\\\"\\\\\""),
    ("\n\u{1}", "\"\\n\\u0001\""),
];

#[test]
fn texts(rt: HostRuntime) -> Result<(), Fail> {
    let findings = Findings::new();
    for (text, spelled) in TEXTS {
        match StaticString::<3>::try_from(*text) {
            Ok(string) => check(&findings, rt.alloc(), string, spelled),
            Err(_) => findings.miss(text),
        }
    }
    check(&findings, rt.alloc(), StaticString::<0>::new(), "\"\"");
    findings.verdict()
}

/// A path whose normal form is shorter is written as it is.
#[test]
fn semantic_strings(rt: HostRuntime) -> Result<(), Fail> {
    let findings = Findings::new();
    match GroupName::new(b"ab") {
        Ok(name) => check(&findings, rt.alloc(), name, "\"ab\""),
        Err(_) => findings.miss("a group name"),
    }
    match Semantic::<TrailingSlashRules, 255>::new(b"/tmp/") {
        Ok(path) => check(&findings, rt.alloc(), path, "\"/tmp/\""),
        Err(_) => findings.miss("a path"),
    }
    findings.verdict()
}

/// Checks the JSON text of a vector, which is read back.
fn check_vector<V: JsonForm + Vector<u64> + Drop, E: Drop>(
    findings: &Findings,
    alloc: Global,
    made: Result<V, E>,
    text: &str,
) {
    let Ok(vector) = made else {
        return findings.miss("a vector");
    };
    let Ok(value) = vector.to_value(alloc) else {
        return findings.miss("there is memory for a value");
    };
    check_value(findings, alloc, &value, text);
    match V::from_value(&value) {
        Ok(back) => findings.expect(back.as_slice() == vector.as_slice(), text),
        Err(_) => findings.miss(text),
    }
}

/// Returns a vector of the elements.
fn vector_of(items: &[u64]) -> Result<StaticVec<u64, 3>, VectorModificationError> {
    StaticVec::try_from(items)
}

#[test]
fn lists(rt: HostRuntime) -> Result<(), Fail> {
    let findings = Findings::new();
    check_vector(&findings, rt.alloc(), vector_of(&[1, 2]), "[1,2]");
    check_vector(&findings, rt.alloc(), vector_of(&[3, 1, 2]), "[3,1,2]");
    check_vector(&findings, rt.alloc(), vector_of(&[]), "[]");
    let empty = Ok::<_, VectorModificationError>(StaticVec::<u64, 0>::new());
    check_vector(&findings, rt.alloc(), empty, "[]");
    let empties = [Empty, Empty].as_slice();
    let (vector, same) = (
        StaticVec::<Empty, 2>::try_from(empties),
        StaticVec::try_from(empties),
    );
    match (vector, same) {
        (Ok(vector), Ok(same)) => check_back(&findings, rt.alloc(), &vector, "[true,true]", same),
        _ => findings.miss("two items of size zero"),
    }
    findings.verdict()
}

#[test]
fn options(rt: HostRuntime) -> Result<(), Fail> {
    let findings = Findings::new();
    check(&findings, rt.alloc(), RelocatableOption::Some(true), "true");
    check(&findings, rt.alloc(), RelocatableOption::Some(5u64), "5");
    let none: RelocatableOption<u64> = RelocatableOption::None;
    check(&findings, rt.alloc(), none, "null");
    let nested = RelocatableOption::Some(RelocatableOption::Some(5u64));
    check(&findings, rt.alloc(), nested, "5");
    let hidden = RelocatableOption::Some(none);
    let back = RelocatableOption::None;
    check_back(&findings, rt.alloc(), &hidden, "null", back);
    findings.verdict()
}

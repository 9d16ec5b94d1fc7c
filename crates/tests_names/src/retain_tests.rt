//! How often `retain` (also named `remove_if`) calls its closure, and at which bytes, whether the rules accept what is kept or not.
ghost use Rattle.std.specs.Prelude.{◌<◌};

use crate::own_rules::{EvenLengthRules, NonEmptyRules};
use ix_semantic_string::{
    GroupNameRules, Rules, Semantic, SemanticStringError, TrailingSlashRules,
};
use std::cell::Cell;
use std::test::Fail;
use test_support::Findings;

/// A string, the results of the closure in the order of its calls, the result of `retain`, the bytes that are left, and the bytes
/// at which the closure is called: three digits for each.
type Row<'a> = (
    &'a str,
    &'a [bool],
    Result<(), SemanticStringError>,
    &'a str,
    u64,
);

const INVALID: Result<(), SemanticStringError> = Err(SemanticStringError::InvalidContent);

/// Of strings that may not be empty.
const TEXTS: &[Row] = &[
    ("abc", &[false, false, false], Ok(()), "abc", 99_098_097),
    ("abc", &[true, true, true], INVALID, "abc", 99_098_097),
    ("a", &[false], Ok(()), "a", 97),
    ("a", &[true], INVALID, "a", 97),
];

/// Of group names, whose first byte is a letter.
const NAMES: &[Row] = &[
    ("a1", &[false, true], INVALID, "a1", 49_097),
    ("a-c", &[true, false, false], Ok(()), "a-", 99_045_097),
    ("a-c", &[false, true, false], Ok(()), "ac", 99_045_097),
    ("a-c", &[false, false, true], INVALID, "a-c", 99_045_097),
];

/// The bytes of "abcd", from the last to the first.
const ABCD: u64 = 100_099_098_097;

/// Of strings of an even length.
const PAIRS: &[Row] = &[
    ("", &[], Ok(()), "", 0),
    ("abcd", &[true, false, true, false], Ok(()), "ac", ABCD),
    ("abcd", &[false, true, false, false], INVALID, "abcd", ABCD),
];

fn check_rows<R: Rules<CAPACITY>, const CAPACITY: usize>(findings: &Findings, rows: &[Row])
    requires { CAPACITY < 256 }
{
    for (row, (text, results, returned, left, digits)) in rows.iter().enumerate() {
        let Ok(mut string) = Semantic::<R, CAPACITY>::new(text.as_bytes()) else {
            return findings.miss(text);
        };
        let (calls, asked) = (Cell::new(0usize), Cell::new(0u64));
        let found = string.retain(|byte: u8| {
            asked.set(asked.get().wrapping_mul(1000).wrapping_add(byte as u64));
            let call = calls.replace(calls.get().wrapping_add(1));
            results.get(call).copied().unwrap_or(false)
        });
        findings.expect_same_at(found, *returned, row, "the result");
        findings.expect_same_at(string.as_bytes(), left.as_bytes(), row, "the text");
        let found = (calls.get(), asked.get());
        findings.expect_same_at(found, (results.len(), *digits), row, "the calls");
    }
}

#[test]
fn once_a_byte_from_the_last_to_the_first() -> Result<(), Fail> {
    let findings = Findings::new();
    check_rows::<NonEmptyRules, 200>(&findings, TEXTS);
    check_rows::<GroupNameRules, 31>(&findings, NAMES);
    check_rows::<EvenLengthRules, 4>(&findings, PAIRS);
    check_rows::<TrailingSlashRules, 255>(&findings, &PAIRS[..2]);
    findings.verdict()
}

#[test]
fn by_its_other_name() -> Result<(), Fail> {
    let findings = Findings::new();
    match Semantic::<GroupNameRules, 31>::new(b"a-c") {
        Ok(mut name) => {
            let removed = name.remove_if(|byte: u8| byte == b'-');
            findings.expect_same(removed, Ok(()), "the result");
            findings.expect_same(name.as_bytes(), b"ac".as_slice(), "the text");
        }
        Err(_) => findings.miss("a name"),
    }
    findings.verdict()
}

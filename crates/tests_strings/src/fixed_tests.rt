//! Conversions into fixed strings, and the length of a string that ends with a zero.
ghost use Rattle.std.specs.Prelude.{◌≤◌};

use crate::kinds::holding;
use ix_string::StringModificationError::{InsertWouldExceedCapacity, InvalidCharacter};
use ix_string::{StaticString, String, StringModificationError, strnlen};
use std::str::{FromStr, from_utf8};
use std::test::Fail;
use test_support::Findings;

/// Bytes, and the string that is made of them or the error.
type Made = (&'static [u8], Result<&'static str, StringModificationError>);

/// Compares the result of a conversion: the string, or the error.
fn check_made<const CAPACITY: usize>(
    findings: &Findings,
    made: Result<StaticString<CAPACITY>, StringModificationError>,
    (bytes, wanted): &Made,
    call: &str,
) {
    match made {
        Ok(string) => {
            findings.expect_same_at(Ok(string.as_str()), *wanted, bytes.len(), call);
            findings.expect(string.as_bytes_const() == string.as_bytes(), call);
        }
        Err(error) => findings.expect_same_at(Err(error), *wanted, bytes.len(), call),
    }
}

const WHOLE: &[Made] = &[
    (&[], Ok("")),
    (&[97], Ok("a")),
    (&[97, 98], Ok("ab")),
    (&[1, 127], Ok("\u{1}\u{7f}")),
    (&[97, 0], Err(InvalidCharacter)),
    (&[128], Err(InvalidCharacter)),
    (&[255, 97], Err(InvalidCharacter)),
    (&[97, 98, 99], Err(InsertWouldExceedCapacity)),
    (&[97, 0, 98], Err(InsertWouldExceedCapacity)),
    (&[200, 97, 98], Err(InsertWouldExceedCapacity)),
    (&[0xc3, 0xa9], Err(InvalidCharacter)),
    (&[97, 0xc3, 0xa9], Err(InsertWouldExceedCapacity)),
];

/// Of a string with room for no byte.
const WHOLE_OF_NONE: &[Made] = &[
    (&[], Ok("")),
    (&[0], Err(InsertWouldExceedCapacity)),
    (&[97], Err(InsertWouldExceedCapacity)),
];

/// Converts the bytes, and the `&str`s that they are.
fn check_whole<const CAPACITY: usize>(findings: &Findings, rows: &[Made])
    requires { CAPACITY ≤ 2 }
{
    for row in rows {
        let made = StaticString::<CAPACITY>::from_bytes(row.0);
        check_made(findings, made, row, "from_bytes");
        let made = StaticString::<CAPACITY>::try_from(row.0);
        check_made(findings, made, row, "try_from");
        if let Ok(text) = from_utf8(row.0) {
            let made = StaticString::<CAPACITY>::from_str(text);
            check_made(findings, made, row, "from_str");
            let made = StaticString::<CAPACITY>::try_from(text);
            check_made(findings, made, row, "try_from a text");
        }
    }
}

#[test]
fn whole_conversions() -> Result<(), Fail> {
    let findings = Findings::new();
    check_whole::<2>(&findings, WHOLE);
    check_whole::<0>(&findings, WHOLE_OF_NONE);
    let made = StaticString::<2>::try_from(b"ab");
    check_made(&findings, made, &WHOLE[2], "try_from an array");
    let made = StaticString::<2>::try_from(&[97u8, 0]);
    check_made(&findings, made, &WHOLE[4], "try_from an array");
    let made = StaticString::<2>::try_from(&[97u8, 0, 98]);
    check_made(&findings, made, &WHOLE[8], "try_from an array");
    let made = StaticString::<0>::try_from(&[0u8; 0]);
    check_made(&findings, made, &WHOLE[0], "try_from an array");
    findings.verdict()
}

const CUT: &[Made] = &[
    (&[], Ok("")),
    (&[97], Ok("a")),
    (&[97, 98, 99], Ok("ab")),
    (&[97, 98, 200], Ok("ab")),
    (&[97, 98, 0], Ok("ab")),
    (&[97, 98, 0, 99], Ok("ab")),
    (&[97, 98, 0xc3, 0xa9], Ok("ab")),
    (&[97, 0xc3, 0xa9], Err(InvalidCharacter)),
    (&[97, 0, 98], Err(InvalidCharacter)),
    (&[200], Err(InvalidCharacter)),
];

#[test]
fn cut_conversions() -> Result<(), Fail> {
    let findings = Findings::new();
    for row in CUT {
        let made = StaticString::<2>::from_bytes_truncated(row.0);
        check_made(&findings, made, row, "from_bytes_truncated");
        if let Ok(text) = from_utf8(row.0) {
            let made = StaticString::<2>::from_str_truncated(text);
            check_made(&findings, made, row, "from_str_truncated");
        }
    }
    let made = StaticString::<0>::from_bytes_truncated(&[200]);
    check_made(&findings, made, &CUT[0], "no room");
    findings.verdict()
}

const ENDED_BY_ZERO: &[Made] = &[
    (&[104, 105, 0, 200], Ok("hi")),
    (&[97, 98], Ok("ab")),
    (&[0, 97], Ok("")),
    (&[], Ok("")),
    (&[97, 200, 0], Err(InvalidCharacter)),
    (&[97, 98, 99], Err(InsertWouldExceedCapacity)),
    (&[97, 98, 200, 0], Err(InsertWouldExceedCapacity)),
];

/// Of a string with room for no byte.
const ENDED_OF_NONE: &[Made] = &[
    (&[0, 97], Ok("")),
    (&[97, 0], Err(InsertWouldExceedCapacity)),
];

/// Bytes, how many are searched, and how many of these are before the first zero.
const LENGTHS: &[(&[u8], usize, usize)] = &[
    (&[97, 0, 98], 5, 1),
    (&[97, 0, 98], 1, 1),
    (&[97, 0, 98], 0, 0),
    (&[97, 98], 1, 1),
    (&[97, 98], 9, 2),
    (&[97, 98], usize::MAX, 2),
    (&[0, 0], 2, 0),
    (&[], 3, 0),
];

fn check_ended<const CAPACITY: usize>(findings: &Findings, rows: &[Made])
    requires { CAPACITY ≤ 2 }
{
    for row in rows {
        check_made(
            findings,
            StaticString::<CAPACITY>::from_c_str(row.0),
            row,
            "from_c_str",
        );
    }
}

#[test]
fn ended_by_zero() -> Result<(), Fail> {
    let findings = Findings::new();
    check_ended::<2>(&findings, ENDED_BY_ZERO);
    check_ended::<0>(&findings, ENDED_OF_NONE);
    for (row, (bytes, n, length)) in LENGTHS.iter().enumerate() {
        findings.expect_same_at(strnlen(bytes, *n), *length, row, "strnlen");
    }
    findings.verdict()
}

#[test]
fn other_makings() -> Result<(), Fail> {
    let findings = Findings::new();
    let mut string = holding(StaticString::<5>::new(), "hello");
    findings.expect_same(StaticString::<5>::capacity(), 5, "the capacity");
    let copy = string;
    string.clear();
    findings.expect_same(copy.as_str(), "hello", "after the other's change");
    findings.expect_same(string.as_str(), "", "cleared after it was copied");
    findings.expect(string == StaticString::<5>::default(), "the default");
    findings.expect(string == StaticString::<5>::new(), "a new one");
    let whole = StaticString::<5>::from_bytes_unchecked(b"hello");
    findings.expect_same(whole.as_str(), "hello", "whole");
    let cut = StaticString::<5>::from_bytes_unchecked_restricted(&[97, 98, 0, 200], 2);
    findings.expect_same(cut.as_str(), "ab", "cut");
    let none = StaticString::<5>::from_bytes_unchecked_restricted(&[0, 200], 0);
    findings.expect_same(none.as_str(), "", "cut to nothing");
    let none = StaticString::<0>::from_bytes_unchecked(b"");
    findings.expect(none == StaticString::default(), "no room");
    findings.verdict()
}

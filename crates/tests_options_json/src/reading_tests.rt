//! Reading JSON: rows of a text, and the value or the error.
use crate::forms::Empty;
use ix_json::JsonFault::{BadByte, InvalidContent, TooLong, WrongKind};
use ix_json::{JsonFault, JsonForm};
use ix_relocatable_option::RelocatableOption;
use ix_semantic_string::GroupName;
use ix_string::{StaticString, String};
use ix_vector::{StaticVec, Vector};
use serde_json::Value;
use std::alloc::Global;
use std::fmt::Debug;
use std::test::Fail;
use test_support::Findings;

/// A text, and the result of reading it.
pub type Row<W> = (&'static str, Result<W, JsonFault>);

/// Returns the result of reading a text. One that is no JSON is read as `OutOfMemory`, which no row has.
fn read<T: JsonForm>(alloc: Global, text: &str) -> Result<T, JsonFault> {
    match Value::from_str(alloc, text) {
        Ok(value) => T::from_value(&value),
        Err(_) => Err(JsonFault::OutOfMemory),
    }
}

/// Checks the result of reading each text.
pub fn check_rows<T: JsonForm + PartialEq + Debug + Copy>(
    findings: &Findings,
    alloc: Global,
    rows: &[Row<T>],
) {
    for (text, wanted) in rows {
        findings.expect_same(read::<T>(alloc, text), *wanted, text);
    }
}

/// Checks the error of each text.
fn check_faults<T: JsonForm + Drop>(
    findings: &Findings,
    alloc: Global,
    rows: &[(&str, JsonFault)],
) {
    for (text, fault) in rows {
        findings.expect_same(read::<T>(alloc, text).err(), Some(*fault), text);
    }
}

const U64: &[Row<u64>] = &[
    ("0", Ok(0)),
    ("18446744073709551615", Ok(u64::MAX)),
    ("18446744073709551616", Err(WrongKind)),
    ("-1", Err(WrongKind)),
    ("-0", Err(WrongKind)),
    ("1.0", Err(WrongKind)),
    ("1e2", Err(WrongKind)),
    ("\"1\"", Err(WrongKind)),
    ("true", Err(WrongKind)),
    ("null", Err(WrongKind)),
    ("[1]", Err(WrongKind)),
    ("{}", Err(WrongKind)),
];

const I64: &[Row<i64>] = &[
    ("-5", Ok(-5)),
    ("0", Ok(0)),
    ("9223372036854775807", Ok(i64::MAX)),
    ("-9223372036854775808", Ok(i64::MIN)),
    ("9223372036854775808", Err(WrongKind)),
    ("18446744073709551615", Err(WrongKind)),
    ("-9223372036854775809", Err(WrongKind)),
    ("-1.0", Err(WrongKind)),
    ("\"-5\"", Err(WrongKind)),
    ("null", Err(WrongKind)),
];

const BOOL: &[Row<bool>] = &[
    ("true", Ok(true)),
    ("false", Ok(false)),
    ("1", Err(WrongKind)),
    ("\"true\"", Err(WrongKind)),
    ("null", Err(WrongKind)),
];

#[test]
fn numbers(rt: HostRuntime) -> Result<(), Fail> {
    let findings = Findings::new();
    check_rows(&findings, rt.alloc(), U64);
    check_rows(&findings, rt.alloc(), I64);
    check_rows(&findings, rt.alloc(), BOOL);
    findings.verdict()
}

/// Of strings of capacity 3. A string is measured in bytes, and its length is tested before its bytes.
const TEXTS: &[Row<&str>] = &[
    ("\"abc\"", Ok("abc")),
    ("\"\"", Ok("")),
    ("\"\\u0001\\u007f\"", Ok("\u{1}\u{7f}")),
    ("\"abcd\"", Err(TooLong)),
    ("\"abc\\u0000\"", Err(TooLong)),
    ("\"éé\"", Err(TooLong)),
    ("\"\\u0000\"", Err(BadByte)),
    ("\"ab\\u0000\"", Err(BadByte)),
    ("\"é\"", Err(BadByte)),
    ("\"\\u0080\"", Err(BadByte)),
    ("5", Err(WrongKind)),
    ("null", Err(WrongKind)),
    ("true", Err(WrongKind)),
    ("[\"a\"]", Err(WrongKind)),
];

/// Checks which string each text is read as.
fn check_strings<S: JsonForm + String + Drop>(
    findings: &Findings,
    alloc: Global,
    rows: &[Row<&str>],
) {
    for (text, wanted) in rows {
        match read::<S>(alloc, text) {
            Ok(string) => findings.expect_same(Ok(string.as_str()), *wanted, text),
            Err(fault) => findings.expect_same(Err(fault), *wanted, text),
        }
    }
}

/// Of strings of capacity 0.
const TEXTS_WITHOUT_ROOM: &[Row<&str>] = &[
    ("\"\"", Ok("")),
    ("\"a\"", Err(TooLong)),
    ("\"\\u0000\"", Err(TooLong)),
    ("0", Err(WrongKind)),
];

/// Of strings of capacity 1.
const SINGLE_BYTES: &[Row<&str>] = &[
    ("\"\"", Ok("")),
    ("\"a\"", Ok("a")),
    ("\"ab\"", Err(TooLong)),
    ("\"é\"", Err(TooLong)),
    ("\"\\u0000\"", Err(BadByte)),
];

#[test]
fn texts(rt: HostRuntime) -> Result<(), Fail> {
    let findings = Findings::new();
    check_strings::<StaticString<3>>(&findings, rt.alloc(), TEXTS);
    check_strings::<StaticString<0>>(&findings, rt.alloc(), TEXTS_WITHOUT_ROOM);
    check_strings::<StaticString<1>>(&findings, rt.alloc(), SINGLE_BYTES);
    findings.verdict()
}

/// Of vectors of capacity 3. The number of entries is tested before any entry.
const LISTS: &[Row<&[u64]>] = &[
    ("[]", Ok(&[])),
    ("[1, 2]", Ok(&[1, 2])),
    ("[1, 2, 3]", Ok(&[1, 2, 3])),
    ("[1, 2, 3, 4]", Err(TooLong)),
    ("[\"a\", 1, 2, 3]", Err(TooLong)),
    ("[1, \"a\"]", Err(WrongKind)),
    ("[-1]", Err(WrongKind)),
    ("[null]", Err(WrongKind)),
    ("[[1]]", Err(WrongKind)),
    ("5", Err(WrongKind)),
    ("\"abc\"", Err(WrongKind)),
    ("null", Err(WrongKind)),
    ("{}", Err(WrongKind)),
];

/// Of vectors of capacity 3, of strings of capacity 2. The first error of an entry is returned.
const LISTS_OF_TEXTS: &[(&str, JsonFault)] = &[
    ("[\"abc\", 5]", TooLong),
    ("[5, \"abc\"]", WrongKind),
    ("[\"a\", \"\\u0000\", \"abc\"]", BadByte),
    ("[\"ab\", \"abc\", \"\\u0000\"]", TooLong),
    ("[\"a\", \"b\", 5]", WrongKind),
    ("[5, \"\\u0000\", \"a\", \"b\"]", TooLong),
];

/// Of vectors of capacity 0.
const LISTS_WITHOUT_ROOM: &[Row<&[u64]>] = &[
    ("[]", Ok(&[])),
    ("[1]", Err(TooLong)),
    ("[null]", Err(TooLong)),
    ("0", Err(WrongKind)),
];

/// Of vectors of capacity 1.
const SINGLE_ITEMS: &[Row<&[u64]>] = &[
    ("[]", Ok(&[])),
    ("[1]", Ok(&[1])),
    ("[null]", Err(WrongKind)),
    ("[1, 2]", Err(TooLong)),
];

/// Checks which vector each text is read as.
fn check_vectors<V: JsonForm + Vector<u64> + Drop>(
    findings: &Findings,
    alloc: Global,
    rows: &[Row<&[u64]>],
) {
    for (text, wanted) in rows {
        match read::<V>(alloc, text) {
            Ok(vector) => findings.expect_same(Ok(vector.as_slice()), *wanted, text),
            Err(fault) => findings.expect_same(Err(fault), *wanted, text),
        }
    }
}

#[test]
fn lists(rt: HostRuntime) -> Result<(), Fail> {
    let findings = Findings::new();
    check_vectors::<StaticVec<u64, 3>>(&findings, rt.alloc(), LISTS);
    check_vectors::<StaticVec<u64, 0>>(&findings, rt.alloc(), LISTS_WITHOUT_ROOM);
    check_vectors::<StaticVec<u64, 1>>(&findings, rt.alloc(), SINGLE_ITEMS);
    check_faults::<StaticVec<StaticString<2>, 3>>(&findings, rt.alloc(), LISTS_OF_TEXTS);
    let bytes = [("[255, 256]", WrongKind), ("[1, 2, 3]", TooLong)];
    check_faults::<StaticVec<u8, 2>>(&findings, rt.alloc(), &bytes);
    findings.verdict()
}

const OPTIONS: &[Row<RelocatableOption<u64>>] = &[
    ("null", Ok(RelocatableOption::None)),
    ("5", Ok(RelocatableOption::Some(5))),
    ("\"5\"", Err(WrongKind)),
    ("[]", Err(WrongKind)),
    ("5.0", Err(WrongKind)),
];

const OPTIONS_OF_OPTIONS: &[Row<RelocatableOption<RelocatableOption<u64>>>] = &[
    ("null", Ok(RelocatableOption::None)),
    ("5", Ok(RelocatableOption::Some(RelocatableOption::Some(5)))),
    ("true", Err(WrongKind)),
];

#[test]
fn options(rt: HostRuntime) -> Result<(), Fail> {
    let findings = Findings::new();
    check_rows(&findings, rt.alloc(), OPTIONS);
    check_rows(&findings, rt.alloc(), OPTIONS_OF_OPTIONS);
    let texts = [
        ("\"abcd\"", TooLong),
        ("\"\\u0000\"", BadByte),
        ("5", WrongKind),
    ];
    check_faults::<RelocatableOption<StaticString<3>>>(&findings, rt.alloc(), &texts);
    let lists = [("[1, 2, 3, 4]", TooLong), ("[true]", WrongKind)];
    check_faults::<RelocatableOption<StaticVec<u64, 3>>>(&findings, rt.alloc(), &lists);
    findings.verdict()
}

/// Rows of group names. A group name has 1 to 31 bytes, each a lowercase letter, a digit or `-`, and does not begin with a digit.
const GROUP_NAMES: &[Row<&str>] = &[
    ("\"ab\"", Ok("ab")),
    ("\"ab-1\"", Ok("ab-1")),
    (
        "\"abcdefghijklmnopqrstuvwxyzabcde\"",
        Ok("abcdefghijklmnopqrstuvwxyzabcde"),
    ),
    ("\"1a\"", Err(InvalidContent)),
    ("\"\"", Err(InvalidContent)),
    ("\"aB\"", Err(InvalidContent)),
    ("\"1\\u0000\"", Err(BadByte)),
    ("\"1é\"", Err(BadByte)),
    ("\"1bcdefghijklmnopqrstuvwxyz\\u0000bcdef\"", Err(TooLong)),
    ("5", Err(WrongKind)),
    ("null", Err(WrongKind)),
];

#[test]
fn group_names(rt: HostRuntime) -> Result<(), Fail> {
    let findings = Findings::new();
    for (text, wanted) in GROUP_NAMES {
        match read::<GroupName>(rt.alloc(), text) {
            Ok(name) => findings.expect_same(Ok(name.as_string().as_str()), *wanted, text),
            Err(fault) => findings.expect_same(Err(fault), *wanted, text),
        }
    }
    findings.verdict()
}

#[test]
fn items_of_size_zero(rt: HostRuntime) -> Result<(), Fail> {
    let findings = Findings::new();
    let rows = [("false", Ok(Empty)), ("0", Err(WrongKind))];
    check_rows(&findings, rt.alloc(), &rows);
    findings.verdict()
}

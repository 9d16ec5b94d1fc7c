//! The making of semantic strings: errors, bytes that are not judged, and the results of the sample rules for bytes.
ghost use Rattle.std.specs.Prelude.{◌<◌};

use crate::own_rules::{EvenLengthRules, NonEmptyRules};
use ix_semantic_string::SemanticStringError::{ExceedsMaximumLength, InvalidContent};
use ix_semantic_string::{
    GroupName, GroupNameRules, Rules, Semantic, SemanticStringError, TrailingSlashRules,
};
use ix_string::String;
use std::mem::size_of;
use std::str::{FromStr, from_utf8};
use std::test::Fail;
use test_support::Findings;

/// Bytes, and the string that is made of them or the error.
type Made = (&'static [u8], Result<&'static str, SemanticStringError>);

/// Compares the result of a conversion: the string, or the error. Checks other results of the string, and the string that is made
/// unchecked.
fn check_made<R: Rules<CAPACITY>, const CAPACITY: usize>(
    findings: &Findings,
    made: Result<Semantic<R, CAPACITY>, SemanticStringError>,
    wanted: &Result<&str, SemanticStringError>,
    row: usize,
    call: &str,
) {
    match made {
        Ok(string) => {
            let text = string.as_string().as_str();
            findings.expect_same_at(Ok(text), *wanted, row, call);
            let sizes = (
                string.capacity(),
                Semantic::<R, CAPACITY>::max_len(),
                string.len(),
            );
            findings.expect_same_at(sizes, (CAPACITY, CAPACITY, text.len()), row, "sizes");
            let bytes = (string.as_bytes(), string.as_bytes_const());
            findings.expect_same_at(bytes, (text.as_bytes(), text.as_bytes()), row, "bytes");
            findings.expect_same_at(string.as_str(), text, row, "as_str");
            let made = Semantic::<R, CAPACITY>::new_unchecked(bytes.0);
            findings.expect_same_at(made.as_bytes(), bytes.0, row, "new_unchecked");
            let made = Semantic::<R, CAPACITY>::new_unchecked_const(bytes.0);
            findings.expect_same_at(made.as_bytes(), bytes.0, row, "new_unchecked_const");
        }
        Err(error) => findings.expect_same_at(Err(error), *wanted, row, call),
    }
}

/// Makes strings of the bytes, and of the `&str`s that they are.
fn check_new<R: Rules<CAPACITY>, const CAPACITY: usize>(findings: &Findings, rows: &[Made])
    requires { CAPACITY < 256 }
{
    for (row, (bytes, wanted)) in rows.iter().enumerate() {
        let made = Semantic::<R, CAPACITY>::new(bytes);
        check_made(findings, made, wanted, row, "new");
        let made = Semantic::<R, CAPACITY>::try_from(*bytes);
        check_made(findings, made, wanted, row, "try_from bytes");
        if let Ok(text) = from_utf8(bytes) {
            let made = Semantic::<R, CAPACITY>::try_from(text);
            check_made(findings, made, wanted, row, "try_from");
            let made = Semantic::<R, CAPACITY>::from_str(text);
            check_made(findings, made, wanted, row, "from_str");
        }
    }
}

/// Does the same as `check_new`, for bytes before a zero.
fn check_ended<R: Rules<CAPACITY>, const CAPACITY: usize>(findings: &Findings, rows: &[Made])
    requires { CAPACITY < 256 }
{
    for (row, (bytes, wanted)) in rows.iter().enumerate() {
        let made = Semantic::<R, CAPACITY>::from_c_str(bytes);
        check_made(findings, made, wanted, row, "from_c_str");
    }
}

/// Bytes without a zero, and the results of making group names of them.
const NAMES: &[Made] = &[
    (b"", Err(InvalidContent)),
    (b"1a", Err(InvalidContent)),
    (b"aB", Err(InvalidContent)),
    (b"ab-1", Ok("ab-1")),
    (b"-a", Err(InvalidContent)),
    (b"a", Ok("a")),
    (b"z09-", Ok("z09-")),
    (b"a b", Err(InvalidContent)),
    (b"a{", Err(InvalidContent)),
    (b"a`", Err(InvalidContent)),
    (b"a/", Err(InvalidContent)),
    (b"a:", Err(InvalidContent)),
    (b"a\xc3\xa9", Err(InvalidContent)),
    (&[b'a'; 31], Ok("aaaaaaaaaaaaaaaaaaaaaaaaaaaaaaa")),
    (&[b'a'; 32], Err(ExceedsMaximumLength)),
    (
        b"1AAAAAAAAAAAAAAAAAAAAAAAAAAAAAA\xc3\xa9",
        Err(ExceedsMaximumLength),
    ),
];

/// Bytes, and the results of making group names of those before the first zero. No group name is made of all of them.
const C_STRINGS: &[Made] = &[
    (b"ab\0", Ok("ab")),
    (b"ab\0C\xff", Ok("ab")),
    (b"\0ab", Err(InvalidContent)),
    (b"a\xff\0", Err(InvalidContent)),
    (
        b"aaaaaaaaaaaaaaaaaaaaaaaaaaaaaaaa\0",
        Err(ExceedsMaximumLength),
    ),
];

/// Each string with slashes is accepted, except if its length or a byte is that of no string.
const TEXTS: &[Made] = &[
    (b"", Ok("")),
    (b"/", Ok("/")),
    (b"/a//", Ok("/a//")),
    (b"\x01\x7f", Ok("\u{1}\u{7f}")),
    (b"\0", Err(InvalidContent)),
    (b"/\x80", Err(InvalidContent)),
    (&[b'/'; 256], Err(ExceedsMaximumLength)),
    (&[0; 256], Err(ExceedsMaximumLength)),
];

#[test]
fn makings() -> Result<(), Fail> {
    let findings = Findings::new();
    check_new::<GroupNameRules, 31>(&findings, NAMES);
    check_ended::<GroupNameRules, 31>(&findings, NAMES);
    check_ended::<GroupNameRules, 31>(&findings, C_STRINGS);
    for (row, (bytes, _)) in C_STRINGS.iter().enumerate() {
        findings.expect_at(
            GroupName::new(bytes).is_err(),
            row,
            "no byte of a text is 0",
        );
    }
    check_new::<TrailingSlashRules, 255>(&findings, TEXTS);
    check_new::<EvenLengthRules, 0>(&findings, &[(b"", Ok(""))]);
    check_new::<NonEmptyRules, 1>(&findings, &[(b"a", Ok("a"))]);
    let full = Semantic::<TrailingSlashRules, 255>::new(&[b'/'; 255]);
    findings.expect_same(full.map(|text| text.is_full()), Ok(true), "255 bytes");
    findings.verdict()
}

#[test]
fn makings_of_arrays() -> Result<(), Fail> {
    let findings = Findings::new();
    check_made(
        &findings,
        GroupName::try_from(b"ab-1"),
        &Ok("ab-1"),
        0,
        "an array",
    );
    let made = GroupName::try_from(&[b'a', 0]);
    check_made(&findings, made, &Err(InvalidContent), 1, "a zero");
    let made = GroupName::try_from(&[0u8; 0]);
    check_made(&findings, made, &Err(InvalidContent), 2, "no byte");
    let made = GroupName::try_from(&[b'1'; 32]);
    check_made(
        &findings,
        made,
        &Err(ExceedsMaximumLength),
        3,
        "too many bytes",
    );
    findings.verdict()
}

#[test]
fn copies_and_clones() -> Result<(), Fail> {
    let findings = Findings::new();
    let Ok(mut name) = GroupName::new(b"ab") else {
        findings.miss("a name");
        return findings.verdict();
    };
    let copy = name;
    findings.expect_same(name.push(b'c'), Ok(()), "push");
    findings.expect_same(copy.as_bytes(), b"ab".as_slice(), "a copy");
    findings.expect(copy.clone().is_ok_and(|clone| clone == copy), "a clone");
    findings.expect(!copy.eq_bytes(b"ab\xff"), "a byte above 127");
    findings.expect(!copy.eq_bytes(b"ab\0"), "a zero");
    findings.expect(!copy.eq_bytes(&[b'a'; 32]), "too many bytes");
    findings.verdict()
}

#[test]
fn bytes_that_are_not_judged() -> Result<(), Fail> {
    let findings = Findings::new();
    let mut path = Semantic::<TrailingSlashRules, 255>::new_unchecked(b"ho");
    path.insert_bytes_unchecked(1, b"ell");
    findings.expect_same(path.as_bytes(), b"hello".as_slice(), "in the middle");
    let mut name = GroupName::new_unchecked(b"a");
    name.insert_bytes_unchecked(1, b"-1");
    findings.expect_same(name.as_bytes(), b"a-1".as_slice(), "at the end");
    findings.verdict()
}

/// Bytes, and the results of `invalid_content` and `invalid_characters` of group names.
const JUDGED: &[(&[u8], bool, bool)] = &[
    (b"", true, false),
    (b"-", true, false),
    (b"0a", true, false),
    (b"9", true, false),
    (b"a", false, false),
    (b"z-09", false, false),
    (b"/a", false, true),
    (b"a:", false, true),
    (b"A", false, true),
    (b"a{", false, true),
    (b"`", false, true),
    (b"1\xff", true, true),
    (b"a\0", false, true),
];

/// Returns the results of both predicates.
fn judged<R: Rules<CAPACITY>, const CAPACITY: usize>(bytes: &[u8]) -> (bool, bool) {
    (R::invalid_content(bytes), R::invalid_characters(bytes))
}

#[test]
fn predicates_of_the_sample_rules() -> Result<(), Fail> {
    let findings = Findings::new();
    for (row, (bytes, content, characters)) in JUDGED.iter().enumerate() {
        let found = judged::<GroupNameRules, 31>(bytes);
        findings.expect_same_at(found, (*content, *characters), row, "group names");
        let found = judged::<TrailingSlashRules, 255>(bytes);
        findings.expect_same_at(found, (false, false), row, "trailing slashes");
    }
    findings.verdict()
}

#[test]
fn defaults() -> Result<(), Fail> {
    let findings = Findings::new();
    let path = Semantic::<TrailingSlashRules, 255>::default();
    findings.expect_same(path.as_bytes(), b"".as_slice(), "of the sample rules");
    findings.verdict()
}

#[test]
fn sizes() -> Result<(), Fail> {
    let findings = Findings::new();
    for (found, wanted, name) in [
        (size_of::<Semantic<NonEmptyRules, 8>>(), 16, "8 bytes"),
        (size_of::<Semantic<NonEmptyRules, 32>>(), 40, "32 bytes"),
    ] {
        findings.expect_same(found, wanted, name);
    }
    findings.verdict()
}

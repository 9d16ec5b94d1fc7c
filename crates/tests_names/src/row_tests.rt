//! The rows of commands, a long string that may not be empty, copies, and normal forms.
ghost use Rattle.std.specs.Prelude.{◌<◌};

use crate::own_rules::{EvenLengthRules, NonEmptyRules};
use crate::rows::{EVEN_LENGTHS, NAMES, NO_ROOM, NO_SINGLE_BYTE, SINGLE_BYTES, check_rows};
use ix_semantic_string::SemanticStringError::{ExceedsMaximumLength, InvalidContent};
use ix_semantic_string::{GroupNameRules, Rules, Semantic, TrailingSlashRules};
use ix_string::{StaticString, String};
use std::cell::Cell;
use std::test::Fail;
use test_support::Findings;

#[test]
fn commands() -> Result<(), Fail> {
    let findings = Findings::new();
    check_rows::<GroupNameRules, 31>(&findings, NAMES, "names");
    check_rows::<EvenLengthRules, 6>(&findings, EVEN_LENGTHS, "even lengths");
    check_rows::<EvenLengthRules, 0>(&findings, NO_ROOM, "no room");
    check_rows::<EvenLengthRules, 1>(&findings, NO_SINGLE_BYTE, "no single byte");
    check_rows::<NonEmptyRules, 1>(&findings, SINGLE_BYTES, "single bytes");
    let made = Semantic::<NonEmptyRules, 0>::new(b"");
    findings.expect_same(made.err(), Some(InvalidContent), "no text");
    let made = Semantic::<NonEmptyRules, 0>::new(b"a");
    findings.expect_same(made.err(), Some(ExceedsMaximumLength), "a text");
    findings.verdict()
}

#[test]
fn a_long_text_stays() -> Result<(), Fail> {
    let findings = Findings::new();
    let letters = [b'a'; 130];
    let Ok(mut text) = Semantic::<NonEmptyRules, 200>::new(&letters) else {
        findings.miss("a text of 130 letters");
        return findings.verdict();
    };
    let refused = (text.strip_prefix(&letters), text.strip_suffix(&letters));
    findings.expect_same(
        refused,
        (Err(InvalidContent), Err(InvalidContent)),
        "all letters",
    );
    findings.expect_same(text.as_bytes(), letters.as_slice(), "unchanged");
    let calls = Cell::new(0u64);
    let kept = text.retain(|_: u8| calls.replace(calls.get().wrapping_add(1)) == 130);
    findings.expect_same((kept, calls.get()), (Ok(()), 130), "calls of a closure");
    findings.expect_same(text.strip_prefix(&letters[1..]), Ok(true), "all but one");
    findings.expect_same(text.as_bytes(), b"a".as_slice(), "one letter");
    findings.verdict()
}

/// A string, its normal form, another string, and whether both mean the same.
type FormRow = (&'static str, &'static str, &'static str, bool);

/// Under rules by which each string is its own normal form.
const OWN_FORMS: &[FormRow] = &[
    ("abab", "abab", "abab", true),
    ("abab", "abab", "aba", false),
    ("abab", "abab", "1a", false),
    ("ab-", "ab-", "ab-\0", false),
    ("a", "a", "a", true),
    ("a", "a", "ab", false),
];

/// Under rules by which trailing slashes mean nothing.
const SLASHES: &[FormRow] = &[
    ("/tmp/", "/tmp", "/tmp", true),
    ("/tmp/", "/tmp", "/tmp//", true),
    ("/tmp/", "/tmp", "/tm", false),
    ("/tmp/", "/tmp", "tmp", false),
    ("////", "/", "", false),
    ("/", "/", "//", true),
    ("", "", "", true),
    ("", "", "/", false),
    ("/a//", "/a", "/a", true),
    ("//a//", "//a", "/a", false),
    ("a/b", "a/b", "a/b/", true),
];

/// Returns the normal form, as the rules make it.
fn normal_form<R: Rules<CAPACITY>, const CAPACITY: usize>(
    string: &Semantic<R, CAPACITY>,
) -> StaticString<CAPACITY> {
    R::normalize(string.as_string())
}

fn check_forms<R: Rules<CAPACITY>, const CAPACITY: usize>(findings: &Findings, rows: &[FormRow])
    requires { CAPACITY < 256 }
{
    for (row, (text, normal, other, is_same)) in rows.iter().enumerate() {
        match Semantic::<R, CAPACITY>::new(text.as_bytes()) {
            Ok(string) => {
                let form = string.normalize();
                findings.expect_same_at(form.as_bytes(), normal.as_bytes(), row, "its form");
                findings.expect_at(form == string, row, "a text equals its normal form");
                findings.expect_same_at(normal_form(&string).as_str(), *normal, row, "the rules'");
                let equal = (string.eq_bytes(other.as_bytes()), string.eq_str(other));
                findings.expect_same_at(equal, (*is_same, *is_same), row, "equal");
            }
            Err(_) => findings.miss(text),
        }
    }
}

#[test]
fn normal_forms() -> Result<(), Fail> {
    let findings = Findings::new();
    check_forms::<GroupNameRules, 31>(&findings, OWN_FORMS);
    check_forms::<NonEmptyRules, 4>(&findings, OWN_FORMS);
    check_forms::<TrailingSlashRules, 255>(&findings, SLASHES);
    check_forms::<EvenLengthRules, 0>(&findings, &[("", "", "", true), ("", "", "a", false)]);
    findings.verdict()
}

/// Strings, and whether they are known to be their own normal forms: by the rules of trailing slashes, and by rules that do not say
/// which are.
const KNOWN: &[(&[u8], bool, bool)] = &[
    (b"/", true, false),
    (b"//", false, false),
    (b"a", true, false),
    (b"a/", false, false),
    (b"/a", true, false),
    (b"/a//", false, false),
    (b"//a", true, false),
    (b"a/b", true, false),
];

/// Returns the result of `is_normal_form` of the rules, or `None` if they do not accept the string.
fn is_known<R: Rules<CAPACITY>, const CAPACITY: usize>(bytes: &[u8]) -> Option<bool>
    requires { CAPACITY < 256 }
{
    let string = Semantic::<R, CAPACITY>::new(bytes).ok()?;
    Some(R::is_normal_form(string.as_string()))
}

#[test]
fn texts_known_to_be_normal_forms() -> Result<(), Fail> {
    let findings = Findings::new();
    for (row, (bytes, paths, others)) in KNOWN.iter().enumerate() {
        let found = (
            is_known::<TrailingSlashRules, 255>(bytes),
            is_known::<NonEmptyRules, 255>(bytes),
        );
        findings.expect_same_at(found, (Some(*paths), Some(*others)), row, "known");
    }
    findings.expect_same(is_known::<GroupNameRules, 31>(b"ab-1"), Some(true), "names");
    findings.verdict()
}

/// Copies `text` into `n` of four bytes that are 9. Returns the result of `copy_with_nul`, and the bytes.
fn copied<R: Rules<CAPACITY>, const CAPACITY: usize>(
    text: &str,
    n: usize,
) -> Option<(Option<usize>, [u8; 4])>
    requires { CAPACITY < 256 }
{
    let string = Semantic::<R, CAPACITY>::new(text.as_bytes()).ok()?;
    let mut out = [9u8; 4];
    if n > out.len() {
        return None;
    }
    let copied = string.copy_with_nul(&mut out[..n]);
    Some((copied, out))
}

#[test]
fn copies_with_a_zero() -> Result<(), Fail> {
    let findings = Findings::new();
    let (ab, none) = (Some((Some(3), [97, 98, 0, 9])), Some((None, [9, 9, 9, 9])));
    findings.expect_same(copied::<GroupNameRules, 31>("ab", 4), ab, "room for four");
    findings.expect_same(copied::<GroupNameRules, 31>("ab", 3), ab, "room for three");
    findings.expect_same(
        copied::<GroupNameRules, 31>("ab", 2),
        none,
        "no room for the zero",
    );
    let one = Some((Some(1), [0, 9, 9, 9]));
    findings.expect_same(copied::<EvenLengthRules, 0>("", 1), one, "the zero alone");
    findings.expect_same(copied::<EvenLengthRules, 0>("", 0), none, "no room");
    let two = Some((Some(2), [97, 0, 9, 9]));
    findings.expect_same(copied::<NonEmptyRules, 1>("a", 2), two, "room for two");
    findings.expect_same(
        copied::<NonEmptyRules, 1>("a", 1),
        none,
        "no room for the zero",
    );
    findings.verdict()
}

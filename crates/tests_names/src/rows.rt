//! Rows of commands under each kind of rules.
ghost use Rattle.std.specs.Prelude.{◌<◌};

use ix_commands::Reply::{self, Bool, Done, Key, Value};
use ix_commands::StringCommand::{
    self, Append, Empty, Find, Full, Insert, InsertBytes, Pop, Push, Remove, RemoveRange, Rfind,
    StripPrefix, StripSuffix, Truncate,
};
use ix_semantic_string::SemanticStringError::{self, ExceedsMaximumLength, InvalidContent};
use ix_semantic_string::{Rules, Semantic};
use test_support::{Findings, reply_of_key, reply_of_option};

/// The result of the method that a command names.
type Outcome = Result<Reply<usize, u8>, SemanticStringError>;

/// A string, a command, the outcome, and the string that is left.
type Row<'a> = (&'a str, StringCommand<'a>, Outcome, &'a str);

const DONE: Outcome = Ok(Done);

const NONE: Outcome = Ok(Reply::None);

const INVALID: Outcome = Err(InvalidContent);

const TOO_LONG: Outcome = Err(ExceedsMaximumLength);

const THIRTY: &[u8] = b"aaaaaaaaaaaaaaaaaaaaaaaaaaaaaa";

const FULL_NAME: &str = "aaaaaaaaaaaaaaaaaaaaaaaaaaaaaaa";

/// Of group names, whose first byte is a letter.
pub const NAMES: &[Row] = &[
    ("ab", Insert(0, b'1'), INVALID, "ab"),
    ("ab", Push(200), INVALID, "ab"),
    ("ab", Append(THIRTY), TOO_LONG, "ab"),
    ("a1", Remove(0), INVALID, "a1"),
    ("a1", StripPrefix(b"a"), INVALID, "a1"),
    ("a1", Truncate(0), INVALID, "a1"),
    ("a1", Remove(9), NONE, "a1"),
    ("a1", RemoveRange(1, usize::MAX), DONE, "a1"),
    ("a1", StripPrefix(b"b"), Ok(Bool(false)), "a1"),
    ("a1", StripSuffix(b"1"), Ok(Bool(true)), "a"),
    ("a", Pop, INVALID, "a"),
    ("abab", Find(b"ab"), Ok(Key(0)), "abab"),
    ("abab", Rfind(b"ab"), Ok(Key(2)), "abab"),
    ("abab", Find(b""), Ok(Key(0)), "abab"),
    ("abab", Rfind(b""), Ok(Key(4)), "abab"),
    ("abab", Find(b"ba-"), NONE, "abab"),
    ("abab", Rfind(b"ba-"), NONE, "abab"),
    ("abab", Empty, Ok(Bool(false)), "abab"),
    ("abab", Full, Ok(Bool(false)), "abab"),
    ("ad", Insert(1, b'-'), DONE, "a-d"),
    ("ad", InsertBytes(1, b"bc"), DONE, "abcd"),
    ("ad", InsertBytes(0, b""), DONE, "ad"),
    ("ad", Push(b'9'), DONE, "ad9"),
    ("ad9", Append(b"-x"), DONE, "ad9-x"),
    ("ad9-x", Pop, Ok(Value(b'x')), "ad9-"),
    ("ad9-", Remove(1), Ok(Value(b'd')), "a9-"),
    ("a9-", Remove(3), NONE, "a9-"),
    ("a9-", RemoveRange(1, 2), DONE, "a"),
    ("a", RemoveRange(1, 0), DONE, "a"),
    ("a", RemoveRange(2, 0), DONE, "a"),
    ("abcab", Truncate(5), DONE, "abcab"),
    ("abcab", Truncate(4), DONE, "abca"),
    ("abca", StringCommand::Drop(b'b'), DONE, "aca"),
    ("aca", StringCommand::Drop(b'x'), DONE, "aca"),
    ("aca", StripPrefix(b"ac"), Ok(Bool(true)), "a"),
    ("a", StripPrefix(b""), Ok(Bool(true)), "a"),
    ("a", StripSuffix(b"b"), Ok(Bool(false)), "a"),
    ("a", StripSuffix(b"xa"), Ok(Bool(false)), "a"),
    ("a", Append(THIRTY), DONE, FULL_NAME),
    (FULL_NAME, Empty, Ok(Bool(false)), FULL_NAME),
    (FULL_NAME, Full, Ok(Bool(true)), FULL_NAME),
    (FULL_NAME, Push(200), TOO_LONG, FULL_NAME),
    ("ab", Push(0), INVALID, "ab"),
    ("ab", Insert(1, 0), INVALID, "ab"),
    ("ab", Insert(1, 128), INVALID, "ab"),
    ("ab", Insert(1, b'A'), INVALID, "ab"),
    ("ab", Insert(2, b'_'), INVALID, "ab"),
    ("ab", InsertBytes(1, b"c\xff"), INVALID, "ab"),
    ("ab", InsertBytes(0, b"-c"), INVALID, "ab"),
    ("ab", InsertBytes(1, b"c d"), INVALID, "ab"),
    ("ab", Append(b"cD"), INVALID, "ab"),
    ("a-b", StripPrefix(b"a"), INVALID, "a-b"),
    ("a-b", RemoveRange(0, 1), INVALID, "a-b"),
    ("a-b", RemoveRange(0, 3), INVALID, "a-b"),
    ("a-b", StringCommand::Drop(b'a'), INVALID, "a-b"),
    ("a-b", StripSuffix(b"a-b"), INVALID, "a-b"),
];

/// Of strings of an even length and at most six bytes: each change by an odd number of bytes is an error.
pub const EVEN_LENGTHS: &[Row] = &[
    ("abcd", Push(b'e'), INVALID, "abcd"),
    ("abcd", Append(b"e"), INVALID, "abcd"),
    ("abcd", Append(b"efg"), TOO_LONG, "abcd"),
    ("abcd", Insert(0, b'e'), INVALID, "abcd"),
    ("abcd", Insert(2, b'e'), INVALID, "abcd"),
    ("abcd", Insert(4, b'e'), INVALID, "abcd"),
    ("abcd", InsertBytes(0, b"e"), INVALID, "abcd"),
    ("abcd", InsertBytes(3, b"e"), INVALID, "abcd"),
    ("abcd", Pop, INVALID, "abcd"),
    ("abcd", Remove(0), INVALID, "abcd"),
    ("abcd", Remove(2), INVALID, "abcd"),
    ("abcd", Remove(3), INVALID, "abcd"),
    ("abcd", Remove(4), NONE, "abcd"),
    ("abcd", RemoveRange(0, 3), INVALID, "abcd"),
    ("abcd", RemoveRange(1, 1), INVALID, "abcd"),
    ("abcd", RemoveRange(3, 1), INVALID, "abcd"),
    ("abcd", RemoveRange(3, 3), DONE, "abcd"),
    ("abcd", Truncate(3), INVALID, "abcd"),
    ("abcd", Truncate(1), INVALID, "abcd"),
    ("abcd", Truncate(5), DONE, "abcd"),
    ("abcd", StripPrefix(b"a"), INVALID, "abcd"),
    ("abcd", StripPrefix(b"abc"), INVALID, "abcd"),
    ("abcd", StripPrefix(b"b"), Ok(Bool(false)), "abcd"),
    ("abcd", StripSuffix(b"d"), INVALID, "abcd"),
    ("abcd", StripSuffix(b"bcd"), INVALID, "abcd"),
    ("abcd", StripSuffix(b"c"), Ok(Bool(false)), "abcd"),
    ("abcd", StringCommand::Drop(b'b'), INVALID, "abcd"),
    ("abcd", InsertBytes(2, b"ef"), DONE, "abefcd"),
    ("abefcd", Push(b'g'), TOO_LONG, "abefcd"),
    ("abefcd", RemoveRange(2, 2), DONE, "abcd"),
    ("abcd", StripPrefix(b"ab"), Ok(Bool(true)), "cd"),
    ("cd", StripSuffix(b"cd"), Ok(Bool(true)), ""),
    ("", Pop, NONE, ""),
    ("", Remove(0), NONE, ""),
    ("", Empty, Ok(Bool(true)), ""),
    ("", Full, Ok(Bool(false)), ""),
];

/// Of a string that has no room, and that may be empty.
pub const NO_ROOM: &[Row] = &[
    ("", Empty, Ok(Bool(true)), ""),
    ("", Full, Ok(Bool(true)), ""),
    ("", Push(b'a'), TOO_LONG, ""),
    ("", Push(0), TOO_LONG, ""),
    ("", Append(b""), DONE, ""),
    ("", Append(b"ab"), TOO_LONG, ""),
    ("", Insert(0, 200), TOO_LONG, ""),
    ("", InsertBytes(0, b""), DONE, ""),
    ("", InsertBytes(0, b"ab"), TOO_LONG, ""),
    ("", Pop, NONE, ""),
    ("", Remove(0), NONE, ""),
    ("", Remove(usize::MAX), NONE, ""),
    ("", RemoveRange(0, 0), DONE, ""),
    ("", RemoveRange(0, 1), DONE, ""),
    ("", RemoveRange(1, usize::MAX), DONE, ""),
    ("", Truncate(0), DONE, ""),
    ("", Truncate(usize::MAX), DONE, ""),
    ("", StripPrefix(b""), Ok(Bool(true)), ""),
    ("", StripPrefix(b"a"), Ok(Bool(false)), ""),
    ("", StripSuffix(b"a"), Ok(Bool(false)), ""),
    ("", StringCommand::Drop(b'a'), DONE, ""),
    ("", Find(b""), Ok(Key(0)), ""),
    ("", Rfind(b""), Ok(Key(0)), ""),
    ("", Find(b"a"), NONE, ""),
    ("", Rfind(b"a"), NONE, ""),
];

/// Of strings of an even length and at most one byte: of no bytes.
pub const NO_SINGLE_BYTE: &[Row] = &[
    ("", Empty, Ok(Bool(true)), ""),
    ("", Full, Ok(Bool(false)), ""),
    ("", Push(b'a'), INVALID, ""),
    ("", Insert(0, 0), INVALID, ""),
    ("", Append(b"ab"), TOO_LONG, ""),
    ("", Pop, NONE, ""),
];

/// Of strings of one byte: none is empty.
pub const SINGLE_BYTES: &[Row] = &[
    ("a", Empty, Ok(Bool(false)), "a"),
    ("a", Full, Ok(Bool(true)), "a"),
    ("a", Push(b'b'), TOO_LONG, "a"),
    ("a", Append(b""), DONE, "a"),
    ("a", Insert(0, b'b'), TOO_LONG, "a"),
    ("a", Insert(1, 0), TOO_LONG, "a"),
    ("a", InsertBytes(1, b""), DONE, "a"),
    ("a", Pop, INVALID, "a"),
    ("a", Remove(0), INVALID, "a"),
    ("a", Remove(1), NONE, "a"),
    ("a", RemoveRange(0, 1), INVALID, "a"),
    ("a", RemoveRange(1, 1), DONE, "a"),
    ("a", Truncate(0), INVALID, "a"),
    ("a", Truncate(1), DONE, "a"),
    ("a", StripPrefix(b"a"), INVALID, "a"),
    ("a", StripSuffix(b"a"), INVALID, "a"),
    ("a", StripPrefix(b"ab"), Ok(Bool(false)), "a"),
    ("a", StringCommand::Drop(b'a'), INVALID, "a"),
    ("a", StringCommand::Drop(b'b'), DONE, "a"),
    ("a", Find(b"a"), Ok(Key(0)), "a"),
    ("a", Rfind(b"a"), Ok(Key(0)), "a"),
    ("a", Find(b""), Ok(Key(0)), "a"),
    ("a", Rfind(b""), Ok(Key(1)), "a"),
];

/// Calls the method that the command names.
fn run<R: Rules<CAPACITY>, const CAPACITY: usize>(
    string: &mut Semantic<R, CAPACITY>,
    command: StringCommand,
) -> Outcome {
    match command {
        Push(byte) => string.push(byte)?,
        Append(bytes) => string.push_bytes(bytes)?,
        Insert(index, byte) if index <= string.len() => string.insert(index, byte)?,
        InsertBytes(index, bytes) if index <= string.len() => string.insert_bytes(index, bytes)?,
        Pop => return Ok(reply_of_option(string.pop()?)),
        Remove(index) => return Ok(reply_of_option(string.remove(index)?)),
        RemoveRange(index, n) => string.remove_range(index, n)?,
        Truncate(n) => string.truncate(n)?,
        StripPrefix(bytes) => return Ok(Bool(string.strip_prefix(bytes)?)),
        StripSuffix(bytes) => return Ok(Bool(string.strip_suffix(bytes)?)),
        StringCommand::Drop(one) => string.retain(|byte: u8| byte == one)?,
        Find(needle) => return Ok(reply_of_key(string.find(needle))),
        Rfind(needle) => return Ok(reply_of_key(string.rfind(needle))),
        Empty => return Ok(Bool(string.is_empty())),
        Full => return Ok(Bool(string.is_full())),
        _ => return NONE,
    }
    DONE
}

/// Runs each row on its string.
pub fn check_rows<R: Rules<CAPACITY>, const CAPACITY: usize>(
    findings: &Findings,
    rows: &[Row],
    place: &str,
)
    requires { CAPACITY < 256 }
{
    for (number, (text, command, outcome, left)) in rows.iter().enumerate() {
        match Semantic::<R, CAPACITY>::new(text.as_bytes()) {
            Ok(mut string) => {
                findings.expect_same_at(run(&mut string, *command), *outcome, number, place);
                findings.expect_same_at(string.as_bytes(), left.as_bytes(), number, place);
                findings.expect_same_at(string.len(), left.len(), number, place);
            }
            Err(_) => findings.miss(text),
        }
    }
}

//! Runs of commands on strings: each command, at each kind of string.
use crate::run_tests::check_run;
use ix_run::run::ReplyError::{IndexPastEnd, InsertWouldExceedCapacity, InvalidCharacter};
use ix_run::run::StringCommand::{
    Append, At, Capacity, Clear, Drop as DropByte, Empty, Find, Full, Insert, InsertBytes, Len,
    Pop, Push, Remove, RemoveRange, Rfind, StripPrefix, StripSuffix, Truncate,
};
use ix_run::run::{Reply, StringCommand};
use ix_string::{PolymorphicString, StaticString, String, UninitString};
use ix_tables::RelocatableContainer;
use std::alloc::Global;
use std::test::Fail;
use test_support::{Findings, made};

/// A command, and the reply to it.
type Row<'a> = (StringCommand<'a>, Reply<usize, u8>);

/// The replies of a string without room.
const OF_ZERO: &[Row] = &[
    (Push(97), Reply::Error(InsertWouldExceedCapacity)),
    (Append(&[]), Reply::Done),
    (Pop, Reply::None),
    (Full, Reply::Bool(true)),
    (Empty, Reply::Bool(true)),
];

/// The replies of a string with room for three bytes, at first empty.
const OF_THREE: &[Row] = &[
    (Append(&[97, 98]), Reply::Done),
    (Push(200), Reply::Error(InvalidCharacter)),
    (Push(99), Reply::Done),
    (Push(100), Reply::Error(InsertWouldExceedCapacity)),
    (Rfind(&[]), Reply::Key(3)),
];

/// The replies of a string with room for five bytes, at first empty.
const OF_FIVE: &[Row] = &[
    (Insert(1, 97), Reply::Error(IndexPastEnd)),
    (Append(&[]), Reply::Done),
    (Append(&[97, 9, 98]), Reply::Done),
    (DropByte(97), Reply::Done),
    (Len, Reply::Number(2)),
];

/// Each other command, after the same string was cleared.
const EACH: &[Row] = &[
    (Clear, Reply::Done),
    (InsertBytes(0, &[97, 98]), Reply::Done),
    (Insert(2, 99), Reply::Done),
    (InsertBytes(4, &[]), Reply::Error(IndexPastEnd)),
    (Insert(usize::MAX, 97), Reply::Error(IndexPastEnd)),
    (InsertBytes(1, &[0]), Reply::Error(InvalidCharacter)),
    (
        InsertBytes(3, &[97, 98, 0]),
        Reply::Error(InsertWouldExceedCapacity),
    ),
    (InsertBytes(3, &[97, 98]), Reply::Done),
    (Full, Reply::Bool(true)),
    (Capacity, Reply::Number(5)),
    (Find(&[97, 98]), Reply::Key(0)),
    (Rfind(&[97, 98]), Reply::Key(3)),
    (Find(&[99, 99]), Reply::None),
    (Rfind(&[]), Reply::Key(5)),
    (At(2), Reply::Value(99)),
    (At(5), Reply::None),
    (RemoveRange(1, 1), Reply::Bool(true)),
    (RemoveRange(3, 2), Reply::Bool(false)),
    (RemoveRange(usize::MAX, 1), Reply::Bool(false)),
    (StripPrefix(&[98]), Reply::Bool(false)),
    (StripPrefix(&[97, 99]), Reply::Bool(true)),
    (StripSuffix(&[97]), Reply::Bool(false)),
    (StripSuffix(&[98]), Reply::Bool(true)),
    (Remove(1), Reply::None),
    (Remove(0), Reply::Value(97)),
    (Pop, Reply::None),
    (Empty, Reply::Bool(true)),
    (Append(&[97, 98, 97]), Reply::Done),
    (Pop, Reply::Value(97)),
    (Truncate(2), Reply::Done),
    (Truncate(1), Reply::Done),
];

/// Runs the rows for strings of that capacity, if there is memory for the string, and compares the string that is left.
fn check_made<S: String + Drop, E: Drop>(
    findings: &Findings,
    alloc: Global,
    made: Result<S, E>,
    place: &str,
) {
    let Ok(mut string) = made else {
        return findings.miss(place);
    };
    let tables: &[(&[Row], &str)] = match string.capacity() {
        0 => &[(OF_ZERO, "")],
        3 => &[(OF_THREE, "abc")],
        _ => &[(OF_FIVE, "\tb"), (EACH, "a")],
    };
    for (rows, text) in tables {
        check_run(findings, alloc, &mut string, *rows, place);
        findings.expect_same(string.as_str(), *text, place);
    }
}

#[test]
fn strings_of_each_kind_run_commands(rt: HostRuntime) -> Result<(), Fail> {
    let findings = Findings::new();
    let alloc = rt.alloc();
    let fixed = made(StaticString::<0>::new());
    check_made(&findings, alloc, fixed, "fixed");
    let fixed = made(StaticString::<3>::new());
    check_made(&findings, alloc, fixed, "fixed");
    let fixed = made(StaticString::<5>::new());
    check_made(&findings, alloc, fixed, "fixed");
    for capacity in [0, 3, 5] {
        let polymorphic = PolymorphicString::new(alloc, capacity);
        check_made(&findings, alloc, polymorphic, "polymorphic");
        let relocatable = UninitString::new_uninit(capacity).init(alloc);
        check_made(&findings, alloc, relocatable, "relocatable");
    }
    findings.verdict()
}

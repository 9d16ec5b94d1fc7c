//! Worked examples of the step machine.
use ix_atomic::byte_atomic::steps::VersionedStep::{Begin, End};
use ix_atomic::byte_atomic::steps::{
    Act, Step, VersionedStep, VersionsUsedUp, next_versions, plain_read_law, replay,
    replay_versioned, versioned_read_law,
};
use std::fmt::InlineText;
use std::test::Fail;
use test_support::Findings;

/// Operation 1 stores the byte.
pub fn store(place: usize, byte: u8) -> Step {
    let act = Act::Store { place, byte };
    Step { op: 1, act }
}

/// Operation 2 loads the byte.
pub fn load(place: usize, byte: u8) -> Step {
    let act = Act::Load { place, byte };
    Step { op: 2, act }
}

/// Another operation does the same.
pub fn by(op: u64, step: Step) -> Step {
    Step { op, act: step.act }
}

/// The writer stores the byte.
pub fn write(place: usize, byte: u8) -> VersionedStep {
    VersionedStep::Store { place, byte }
}

/// Reader 1 loads the version.
pub fn version(version: u64) -> VersionedStep {
    VersionedStep::LoadVersion { reader: 1, version }
}

/// The reader loads the byte.
fn read_by(reader: u64, place: usize, byte: u8) -> VersionedStep {
    VersionedStep::LoadByte {
        reader,
        place,
        byte,
    }
}

/// Reader 2 loads the byte.
pub fn read(place: usize, byte: u8) -> VersionedStep {
    read_by(2, place, byte)
}

/// Checks that `replay` returns `legal` for each of these lists.
pub fn check_plain(findings: &Findings, first: &[u8], lists: &[&[Step]], legal: bool) {
    let place = if legal { "legal" } else { "illegal" };
    for (row, steps) in lists.iter().enumerate() {
        findings.expect_same_at(replay(first, steps), legal, row, place);
    }
}

/// Checks that `replay_versioned` returns `legal` for each of these lists.
pub fn check_versioned(findings: &Findings, first: &[u8], lists: &[&[VersionedStep]], legal: bool) {
    let place = if legal { "legal" } else { "illegal" };
    for (row, steps) in lists.iter().enumerate() {
        findings.expect_same_at(replay_versioned(first, steps), legal, row, place);
    }
}

#[test]
fn plain_examples() -> Result<(), Fail> {
    let findings = Findings::new();
    let legal: &[&[Step]] = &[&[store(0, 5), load(0, 5), load(1, 0)], &[]];
    let illegal: &[&[Step]] = &[&[store(0, 5), load(0, 0)], &[load(2, 0)]];
    check_plain(&findings, &[0, 0], legal, true);
    check_plain(&findings, &[0, 0], illegal, false);
    findings.verdict()
}

#[test]
fn versioned_examples() -> Result<(), Fail> {
    let findings = Findings::new();
    let whole = [Begin, version(1), write(0, 7), read(0, 7), End, version(2)];
    check_versioned(&findings, &[0], &[&whole, &[Begin]], true);
    let illegal: &[&[VersionedStep]] = &[&[Begin, version(0)], &[Begin, End]];
    check_versioned(&findings, &[0], illegal, false);
    findings.verdict()
}

#[test]
fn versions() -> Result<(), Fail> {
    let findings = Findings::new();
    let rows = [
        (0, Ok((1, 2))),
        (2, Ok((3, 4))),
        (
            9_223_372_036_854_775_808,
            Ok((9_223_372_036_854_775_809, 9_223_372_036_854_775_810)),
        ),
        (
            18_446_744_073_709_551_612,
            Ok((18_446_744_073_709_551_613, 18_446_744_073_709_551_614)),
        ),
        (18_446_744_073_709_551_614, Err(VersionsUsedUp)),
    ];
    for (row, (version, wanted)) in rows.iter().enumerate() {
        findings.expect_same_at(next_versions(*version), *wanted, row, "the next versions");
    }
    let text = InlineText::<80>::of(format_args!("{VersionsUsedUp}, {VersionsUsedUp:?}"));
    let wanted = "all versions are used up, VersionsUsedUp";
    findings.expect_same(text.as_str(), wanted, "the error");
    findings.verdict()
}

/// A read that overlaps no write has the last bytes before it, and so has one between two loads of an even version: a list is
/// legal with no others.
#[test]
fn laws() -> Result<(), Fail> {
    plain_read_law();
    versioned_read_law();
    let findings = Findings::new();
    for byte in 0..10u8 {
        let before_writes = [load(0, byte), store(0, 5)];
        check_plain(&findings, &[4], &[&before_writes], byte == 4);
        let after_writes = [store(0, 5), by(3, store(0, 6)), load(0, byte)];
        check_plain(&findings, &[4], &[&after_writes], byte == 6);
        let unwritten = [version(0), read_by(1, 0, byte), version(0), Begin];
        check_versioned(&findings, &[4], &[&unwritten], byte == 4);
        let written = [
            Begin,
            write(0, 7),
            End,
            version(2),
            read_by(1, 0, byte),
            version(2),
        ];
        check_versioned(&findings, &[4], &[&written], byte == 7);
    }
    findings.verdict()
}

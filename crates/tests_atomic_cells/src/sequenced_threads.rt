//! Sequenced cells that one thread writes while another reads.
ghost use Rattle.std.specs.Prelude.{◌≡◌, ◌≤◌};

use crate::readings::Readings;
use ix_atomic::{ReaderSeat, SequencedByteAtomic, WriterSeat};
use ix_string::{StaticString, String};
use std::alloc::Global;
use std::fmt::InlineText;
use std::test::Fail;
use std::thread;
use std::thread::Threads;
use test_support::Findings;

/// The number of values that are written beside a reader.
pub const WRITES: u32 = 1_000;

/// How often a reader tries to read the texts that are written beside it.
pub const READS: u32 = 10_000;

/// The most tries of a thread that waits for another one.
pub const TURNS: u32 = 10_000_000;

/// A cell of no bytes: its version alone changes.
type Counter = SequencedByteAtomic<(), 0>;

/// Writes `WRITES` times, and returns whether each write succeeds.
fn count_up(cell: &Counter, writer: &mut WriterSeat<()>) -> bool
    requires { writer.old.cell ≡ cell.now }
    ensures { writer.new.cell ≡ writer.old.cell }
{
    let mut succeeded = true;
    for _ in 0..WRITES {
        succeeded &= cell.try_write(writer, ()).is_ok();
    }
    succeeded
}

/// Loads the version `WRITES` times, and returns whether none is less than the one before, and all are at most 2,000.
fn rises(cell: &Counter, reader: &mut ReaderSeat<()>) -> bool
    requires { reader.old.cell ≡ cell.now }
    ensures { reader.new.cell ≡ reader.old.cell }
{
    let mut latest = 0;
    let mut expected = true;
    for _ in 0..WRITES {
        let version = cell.version(reader);
        expected &= latest <= version && version <= 2_000;
        latest = version;
    }
    expected
}

#[test]
fn versions_beside_writes(rt: HostRuntime) -> Result<(), Fail> {
    let (cell, mut writer, mut reader) = Counter::new(rt.alloc(), ())?;
    let findings = Findings::new();
    let (succeeded, expected) = thread::join_mut(
        &rt,
        &mut || count_up(&cell, &mut writer),
        &mut || rises(&cell, &mut reader),
    );
    findings.expect(succeeded, "the writes");
    findings.expect(expected, "the versions beside them");
    findings.expect_same(cell.version(&mut reader), 2_000, "the version after them");
    match cell.reader(rt.alloc(), &mut writer) {
        Ok(mut other) => findings.expect_same(cell.version(&mut other), 2_000, "to a new seat"),
        Err(_) => findings.miss("a new seat"),
    }
    findings.expect_same(cell.close(writer), Ok(()), "the last value");
    findings.verdict()
}

type Flag = SequencedByteAtomic<u8, 1>;

/// Writes 1 to `own`, and reads `other` until it finds 1. Returns whether it does.
fn meet(own: &Flag, writer: &mut WriterSeat<u8>, other: &Flag, reader: &mut ReaderSeat<u8>) -> bool
    requires own { writer.old.cell ≡ own.now }
    requires other { reader.old.cell ≡ other.now }
    ensures own { writer.new.cell ≡ writer.old.cell }
    ensures other { reader.new.cell ≡ reader.old.cell }
{
    if own.try_write(writer, 1).is_err() {
        return false;
    }
    for _ in 0..TURNS {
        if other.try_read(reader) == Ok(1) {
            return true;
        }
    }
    false
}

/// Two threads that each wait for the other's value. If they ran one after the other, the first would not find it.
#[test]
fn two_threads_meet(rt: HostRuntime) -> Result<(), Fail> {
    let (left, mut left_writer, mut left_reader) = Flag::new(rt.alloc(), 0)?;
    let findings = Findings::new();
    let right = Flag::new(rt.alloc(), 0);
    let met = match right {
        Ok((right, mut right_writer, mut right_reader)) => {
            let met = thread::join_mut(
                &rt,
                &mut || meet(&left, &mut left_writer, &right, &mut right_reader),
                &mut || meet(&right, &mut right_writer, &left, &mut left_reader),
            );
            findings.expect_same(right.close(right_writer), Ok(1), "the right value");
            met
        }
        Err(_) => (false, false),
    };
    findings.expect_same(left.close(left_writer), Ok(1), "the left value");
    findings.expect_same(met, (true, true), "each reads the other's 1");
    findings.verdict()
}

type Text = StaticString<24>;

type TextCell = SequencedByteAtomic<Text, 24>;

/// Returns `number` as eight digits, three times in a row.
fn three_times(number: u32) -> Text {
    let text = InlineText::<24>::of(format_args!("{number:08}{number:08}{number:08}"));
    match Text::try_from(text.as_str()) {
        Ok(text) => text,
        Err(_) => Text::new(),
    }
}

/// Returns a number that is greater the later the text was written: its digits, if it is three equal groups of eight bytes, or
/// 0 if it is empty, as the first one is. Returns `None` if it is neither.
fn text_order(text: &Text) -> Option<u64> {
    let bytes = text.as_bytes();
    match (bytes.first_chunk::<8>(), bytes.get(8..16), bytes.get(16..)) {
        (Some(first), Some(second), Some(third)) if first.as_slice() == second && second == third =>
            { Some(u64::from_be_bytes(*first)) }
        _ if bytes.is_empty() => Some(0),
        _ => None,
    }
}

fn write_texts(cell: &TextCell, writer: &mut WriterSeat<Text>) -> bool
    requires { writer.old.cell ≡ cell.now }
    ensures { writer.new.cell ≡ writer.old.cell }
{
    let mut succeeded = true;
    for number in 1..=WRITES {
        succeeded &= cell.try_write(writer, three_times(number)).is_ok();
    }
    succeeded
}

fn read_texts(cell: &TextCell, reader: &mut ReaderSeat<Text>) -> bool
    requires { reader.old.cell ≡ cell.now }
    ensures { reader.new.cell ≡ reader.old.cell }
{
    let mut readings = Readings::new();
    for _ in 0..READS {
        match cell.try_read(reader) {
            Ok(text) => readings.note_value(0, text_order(&text)),
            Err(interfered) => readings.note_interfered(interfered),
        }
    }
    readings.are_expected()
}

#[test]
fn texts_are_whole(rt: HostRuntime) -> Result<(), Fail> {
    let (cell, mut writer, mut reader) = TextCell::new(rt.alloc(), Text::new())?;
    let findings = Findings::new();
    let (succeeded, expected) = thread::join_mut(
        &rt,
        &mut || write_texts(&cell, &mut writer),
        &mut || read_texts(&cell, &mut reader),
    );
    findings.expect(succeeded, "the writes");
    findings.expect(expected, "the reads beside them");
    let last = three_times(WRITES);
    findings.expect_same(
        last.as_bytes(),
        b"000010000000100000001000".as_slice(),
        "the last text",
    );
    findings.expect_same(cell.try_read(&mut reader), Ok(last), "the read after them");
    findings.expect_same(cell.close(writer), Ok(last), "the last value");
    findings.verdict()
}

pub type Blocks<const SIZE: usize> = SequencedByteAtomic<[u8; SIZE], SIZE>;

/// Returns the byte that all of the block is, or `None` if it is not one byte throughout.
pub fn block_order(block: &[u8]) -> Option<u64> {
    let first = *block.first()?;
    if block.iter().all(|byte| *byte == first) {
        Some(u64::from(first))
    } else {
        None
    }
}

/// Writes blocks of the bytes 0 to 250, each several times.
fn write_blocks<const SIZE: usize>(cell: &Blocks<SIZE>, writer: &mut WriterSeat<[u8; SIZE]>) -> bool
    requires size { SIZE ≤ 256 }
    requires cell { writer.old.cell ≡ cell.now }
    ensures { writer.new.cell ≡ writer.old.cell }
{
    let mut succeeded = true;
    for number in 1..=WRITES {
        succeeded &= cell.try_write(writer, [(number / 4) as u8; SIZE]).is_ok();
    }
    succeeded
}

fn read_blocks<const SIZE: usize>(cell: &Blocks<SIZE>, reader: &mut ReaderSeat<[u8; SIZE]>) -> bool
    requires size { SIZE ≤ 256 }
    requires cell { reader.old.cell ≡ cell.now }
    ensures { reader.new.cell ≡ reader.old.cell }
{
    let mut readings = Readings::new();
    for _ in 0..READS {
        match cell.try_read(reader) {
            Ok(block) => readings.note_value(0, block_order(&block)),
            Err(interfered) => readings.note_interfered(interfered),
        }
    }
    readings.are_expected()
}

fn blocks_in_threads<const SIZE: usize, R: Threads>(
    rt: &R,
    cell: &Blocks<SIZE>,
    writer: &mut WriterSeat<[u8; SIZE]>,
    reader: &mut ReaderSeat<[u8; SIZE]>,
) -> (bool, bool)
    requires size { SIZE ≤ 256 }
    requires writer { writer.old.cell ≡ cell.now }
    requires reader { reader.old.cell ≡ cell.now }
    ensures writer { writer.new.cell ≡ writer.old.cell }
    ensures reader { reader.new.cell ≡ reader.old.cell }
{
    thread::join_mut(
        rt,
        &mut ||
            requires { (SIZE ≤ 256) × (writer.now.cell ≡ cell.now) }
            ensures { writer.exit.now.cell ≡ writer.entry.now.cell }
        { write_blocks(cell, writer) },
        &mut ||
            requires { (SIZE ≤ 256) × (reader.now.cell ≡ cell.now) }
            ensures { reader.exit.now.cell ≡ reader.entry.now.cell }
        { read_blocks(cell, reader) },
    )
}

/// Checks a cell of blocks that one thread writes while another reads.
fn check_blocks<const SIZE: usize, R: Threads>(
    rt: &R,
    findings: &Findings,
    alloc: Global,
    place: &str,
)
    requires { SIZE ≤ 256 }
{
    match Blocks::<SIZE>::new(alloc, [0; SIZE]) {
        Ok((cell, mut writer, mut reader)) => {
            let found = blocks_in_threads(rt, &cell, &mut writer, &mut reader);
            findings.expect_same(found, (true, true), place);
            findings.expect_same(cell.try_read(&mut reader), Ok([250; SIZE]), place);
            findings.expect_same(cell.close(writer), Ok([250; SIZE]), place);
        }
        Err(_) => findings.miss(place),
    }
}

#[test]
fn blocks_are_whole(rt: HostRuntime) -> Result<(), Fail> {
    let findings = Findings::new();
    check_blocks::<64, HostRuntime>(&rt, &findings, rt.alloc(), "64 bytes");
    check_blocks::<256, HostRuntime>(&rt, &findings, rt.alloc(), "256 bytes");
    findings.verdict()
}

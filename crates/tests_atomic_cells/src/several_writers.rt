//! Sequenced cells that several threads write at once, while others read.
ghost use Rattle.std.specs.Prelude.{◌≡◌};

use crate::readings::Readings;
use crate::sequenced_threads::{Blocks, READS, TURNS, WRITES, block_order};
use ix_atomic::{AtomicCopy, ReaderSeat, SequencedByteAtomic, TryWriteError, WriterSeat};
use std::alloc::Global;
use std::sync::atomic::{AtomicBool, Ordering};
use std::test::Fail;
use std::thread;
use std::thread::Threads;
use test_support::Findings;

/// The results of a writer's tries.
#[derive(Clone, Copy)]
struct Tries {
    written: u32,
    busy: u32,
    are_expected: bool,
}

impl Tries {
    fn new() -> Self {
        Tries {
            written: 0,
            busy: 0,
            are_expected: true,
        }
    }

    /// Notes the result of a try. If the cell was busy, either the loaded version is odd and the found one too, or the loaded one
    /// is even and the found one is greater.
    fn note(&mut self, tried: Result<(), TryWriteError>) {
        match tried {
            Ok(()) => self.written = self.written.wrapping_add(1),
            Err(TryWriteError::Busy { loaded, found }) => {
                self.busy = self.busy.wrapping_add(1);
                self.are_expected &= if loaded % 2 == 1 {
                    found == loaded
                } else {
                    loaded < found
                };
            }
            Err(TryWriteError::VersionsUsedUp) => self.are_expected = false,
        }
    }

    /// Returns whether so many writes succeeded and nothing else was unexpected.
    fn have_written(&self, written: u32) -> bool {
        self.written == written && self.are_expected
    }
}

/// Tries to write until `WRITES` tries have succeeded, at most `TURNS` times. Each value is `value` of how many have before.
fn write_often<T: AtomicCopy, const SIZE: usize, F: Fn(u32) -> T>(
    cell: &SequencedByteAtomic<T, SIZE>,
    writer: &mut WriterSeat<T>,
    value: F,
) -> Tries
    requires value { F.IsAlwaysCallable value }
    requires writer { writer.old.cell ≡ cell.now }
    ensures { writer.new.cell ≡ writer.old.cell }
{
    let mut tries = Tries::new();
    for _ in 0..TURNS {
        let written = tries.written;
        if written == WRITES {
            break;
        }
        let next = value(written);
        tries.note(cell.try_write(writer, next));
    }
    tries
}

/// A cell of no bytes: its version alone changes.
type Counter = SequencedByteAtomic<(), 0>;

fn count_often(cell: &Counter, writer: &mut WriterSeat<()>) -> Tries
    requires { writer.old.cell ≡ cell.now }
    ensures { writer.new.cell ≡ writer.old.cell }
{
    write_often(cell, writer, |_| ())
}

#[test]
fn two_threads_count(rt: HostRuntime) -> Result<(), Fail> {
    let (cell, mut first, _reader) = Counter::new(rt.alloc(), ())?;
    let mut second = cell.writer(rt.alloc(), &mut first).unwrap();
    let (by_first, by_second) = thread::join_mut(
        &rt,
        &mut || count_often(&cell, &mut first),
        &mut || count_often(&cell, &mut second),
    );
    cell.merge(&mut first, second);
    let findings = Findings::new();
    findings.expect(by_first.have_written(WRITES), "the first seat's writes");
    findings.expect(by_second.have_written(WRITES), "the second seat's writes");
    let mut reader = cell.reader(rt.alloc(), &mut first).unwrap();
    findings.expect_same(cell.version(&mut reader), 4_000, "the version after them");
    findings.expect_same(cell.close(first), Ok(()), "the last value");
    findings.verdict()
}

/// Tries to write `WRITES` times, each time with a further seat, which is then merged.
fn write_by_further_seats(cell: &Counter, alloc: Global, writer: &mut WriterSeat<()>) -> Tries
    requires { writer.old.cell ≡ cell.now }
    ensures { writer.new.cell ≡ writer.old.cell }
{
    let mut tries = Tries::new();
    for _ in 0..WRITES {
        let mut further = cell.writer(alloc, writer).unwrap();
        tries.note(cell.try_write(&mut further, ()));
        cell.merge(writer, further);
    }
    tries
}

#[test]
fn seats_are_merged_beside_writes(rt: HostRuntime) -> Result<(), Fail> {
    let (cell, mut first, mut reader) = Counter::new(rt.alloc(), ())?;
    let mut second = cell.writer(rt.alloc(), &mut first).unwrap();
    let alloc = rt.alloc();
    let (by_first, by_second) = thread::join_mut(
        &rt,
        &mut || write_by_further_seats(&cell, alloc, &mut first),
        &mut || count_often(&cell, &mut second),
    );
    cell.merge(&mut first, second);
    let findings = Findings::new();
    findings.expect(by_first.are_expected, "the first seat's tries");
    findings.expect(by_second.have_written(WRITES), "the second seat's writes");
    let written = u64::from(by_first.written) + u64::from(by_second.written);
    findings.expect_same(cell.version(&mut reader), 2 * written, "the version");
    findings.expect_same(cell.close(first), Ok(()), "the last value");
    findings.verdict()
}

type Cell = Blocks<256>;

type Writer = WriterSeat<[u8; 256]>;

type Reader = ReaderSeat<[u8; 256]>;

/// Tries to write until a try of this thread or of the other one finds the cell busy, at most `TURNS` times.
fn write_until_busy(cell: &Cell, writer: &mut Writer, is_busy: &AtomicBool) -> Tries
    requires { writer.old.cell ≡ cell.now }
    ensures { writer.new.cell ≡ writer.old.cell }
{
    let mut tries = Tries::new();
    for _ in 0..TURNS {
        tries.note(cell.try_write(writer, [7; 256]));
        if tries.busy > 0 {
            is_busy.store(true, Ordering::SeqCst);
        }
        if is_busy.load(Ordering::SeqCst) {
            break;
        }
    }
    tries
}

/// Neither of two threads that write at once waits: one is told that the cell is busy, and has changed nothing then.
#[test]
fn a_busy_cell(rt: HostRuntime) -> Result<(), Fail> {
    let (cell, mut first, mut reader) = Cell::new(rt.alloc(), [0; 256])?;
    let mut second = cell.writer(rt.alloc(), &mut first).unwrap();
    let is_busy = AtomicBool::new(false);
    let (by_first, by_second) = thread::join_mut(
        &rt,
        &mut || write_until_busy(&cell, &mut first, &is_busy),
        &mut || write_until_busy(&cell, &mut second, &is_busy),
    );
    cell.merge(&mut second, first);
    let findings = Findings::new();
    findings.expect(by_first.are_expected, "the first seat's tries");
    findings.expect(by_second.are_expected, "the second seat's tries");
    findings.expect(by_first.busy > 0 || by_second.busy > 0, "a busy cell");
    let written = u64::from(by_first.written) + u64::from(by_second.written);
    findings.expect_same(cell.version(&mut reader), 2 * written, "the version");
    findings.expect_same(cell.close(second), Ok([7; 256]), "the last value");
    findings.verdict()
}

/// Writes blocks of 63 bytes from 64 times the number of the writer on, each several times.
fn write_blocks(cell: &Cell, writer: &mut Writer, number: u8) -> Tries
    requires { writer.old.cell ≡ cell.now }
    ensures { writer.new.cell ≡ writer.old.cell }
{
    let first = number.wrapping_mul(64);
    write_often(cell, writer, |written| {
        [first.wrapping_add((written / 16 % 64) as u8); 256]
    })
}

/// Reads blocks and versions.
fn read_blocks(cell: &Cell, reader: &mut Reader) -> bool
    requires { reader.old.cell ≡ cell.now }
    ensures { reader.new.cell ≡ reader.old.cell }
{
    let mut readings = Readings::new();
    for _ in 0..READS {
        match cell.try_read(reader) {
            Ok(block) => readings.note_value((block[0] / 64) as usize, block_order(&block)),
            Err(interfered) => readings.note_interfered(interfered),
        }
        readings.note_version(cell.version(reader));
    }
    readings.are_expected()
}

fn two_write<R: Threads>(
    rt: &R,
    cell: &Cell,
    second: &mut Writer,
    third: &mut Writer,
) -> (Tries, Tries)
    requires second { second.old.cell ≡ cell.now }
    requires third { third.old.cell ≡ cell.now }
    ensures second { second.new.cell ≡ second.old.cell }
    ensures third { third.new.cell ≡ third.old.cell }
{
    thread::join_mut(
        rt,
        &mut || write_blocks(cell, second, 1),
        &mut || write_blocks(cell, third, 2),
    )
}

fn three_write<R: Threads + Sync>(
    rt: &R,
    cell: &Cell,
    first: &mut Writer,
    second: &mut Writer,
    third: &mut Writer,
) -> [Tries; 3]
    requires first { first.old.cell ≡ cell.now }
    requires second { second.old.cell ≡ cell.now }
    requires third { third.old.cell ≡ cell.now }
    ensures first { first.new.cell ≡ first.old.cell }
    ensures second { second.new.cell ≡ second.old.cell }
    ensures third { third.new.cell ≡ third.old.cell }
{
    let (by_first, (by_second, by_third)) = thread::join_mut(
        rt,
        &mut || write_blocks(cell, first, 0),
        &mut || two_write(rt, cell, second, third),
    );
    [by_first, by_second, by_third]
}

fn two_read<R: Threads>(
    rt: &R,
    cell: &Cell,
    first: &mut Reader,
    second: &mut Reader,
) -> (bool, bool)
    requires first { first.old.cell ≡ cell.now }
    requires second { second.old.cell ≡ cell.now }
    ensures first { first.new.cell ≡ first.old.cell }
    ensures second { second.new.cell ≡ second.old.cell }
{
    thread::join_mut(
        rt,
        &mut || read_blocks(cell, first),
        &mut || read_blocks(cell, second),
    )
}

fn write_beside_reads<R: Threads + Sync>(
    rt: &R,
    cell: &Cell,
    first: &mut Writer,
    second: &mut Writer,
    third: &mut Writer,
    reader: &mut Reader,
    other: &mut Reader,
) -> ([Tries; 3], (bool, bool))
    requires writers { (first.old.cell ≡ cell.now) × (second.old.cell ≡ cell.now)
        × (third.old.cell ≡ cell.now) }
    requires readers { (reader.old.cell ≡ cell.now) × (other.old.cell ≡ cell.now) }
    ensures first { first.new.cell ≡ first.old.cell }
    ensures second { second.new.cell ≡ second.old.cell }
    ensures third { third.new.cell ≡ third.old.cell }
    ensures reader { reader.new.cell ≡ reader.old.cell }
    ensures other { other.new.cell ≡ other.old.cell }
{
    thread::join_mut(
        rt,
        &mut ||
            requires { (first.now.cell ≡ cell.now) × (second.now.cell ≡ cell.now)
                × (third.now.cell ≡ cell.now) }
            ensures { (first.exit.now.cell ≡ first.entry.now.cell)
                × (second.exit.now.cell ≡ second.entry.now.cell)
                × (third.exit.now.cell ≡ third.entry.now.cell) }
        { three_write(rt, cell, first, second, third) },
        &mut || two_read(rt, cell, reader, other),
    )
}

#[test]
fn three_write_and_two_read(rt: HostRuntime) -> Result<(), Fail> {
    let (cell, mut first, mut reader) = Cell::new(rt.alloc(), [0; 256])?;
    let mut second = cell.writer(rt.alloc(), &mut first).unwrap();
    let mut third = cell.writer(rt.alloc(), &mut second).unwrap();
    let mut other = cell.reader(rt.alloc(), &mut third).unwrap();
    let (tries, are_expected) = write_beside_reads(
        &rt,
        &cell,
        &mut first,
        &mut second,
        &mut third,
        &mut reader,
        &mut other,
    );
    cell.merge(&mut third, second);
    cell.merge(&mut first, third);
    let findings = Findings::new();
    for (number, by_one) in tries.iter().enumerate() {
        findings.expect_at(by_one.have_written(WRITES), number, "the writes");
    }
    findings.expect_same(are_expected, (true, true), "the reads beside them");
    findings.expect_same(cell.version(&mut reader), 6_000, "the version after them");
    cell.merge_reader(&mut first, other);
    let last = cell.close(first);
    findings.expect(
        last == Ok([62; 256]) || last == Ok([126; 256]) || last == Ok([190; 256]),
        "the last value",
    );
    findings.verdict()
}

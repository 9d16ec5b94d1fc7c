//! A cell that some threads write, and that others read until these are done.
ghost use Rattle.std.specs.Prelude.{◌≡◌, ◌≤◌};

use ix_atomic::{ReaderSeat, SequencedByteAtomic, WriterSeat};
use std::alloc::{AllocError, Global};
use std::sync::atomic::{AtomicBool, Ordering};
use std::thread;
use std::thread::Threads;

type Cell<const SIZE: usize> = SequencedByteAtomic<[u8; SIZE], SIZE>;

type Writer<const SIZE: usize> = WriterSeat<[u8; SIZE]>;

type Reader<const SIZE: usize> = ReaderSeat<[u8; SIZE]>;

/// The number of threads that write, or that read.
#[derive(Clone, Copy)]
pub enum Crew {
    One,
    Two,
    Three,
}

/// The counts of writers.
#[derive(Clone, Copy)]
pub struct WriteCounts {
    pub tries: u64,
    pub finished: u64,
}

impl WriteCounts {
    /// Returns the sums of both.
    fn add(self, other: WriteCounts) -> WriteCounts {
        WriteCounts {
            tries: self.tries.wrapping_add(other.tries),
            finished: self.finished.wrapping_add(other.finished),
        }
    }
}

/// The counts of readers.
#[derive(Clone, Copy)]
pub struct ReadCounts {
    pub tries: u64,
    pub values: u64,
    /// The sum of a byte of each value: a value that nothing needs would not be made.
    sum: u64,
}

impl ReadCounts {
    /// Returns the sums of both.
    fn add(self, other: ReadCounts) -> ReadCounts {
        ReadCounts {
            tries: self.tries.wrapping_add(other.tries),
            values: self.values.wrapping_add(other.values),
            sum: self.sum.wrapping_add(other.sum),
        }
    }
}

/// The numbers of writers and readers, how often each writer tries to write, how many loads it makes after each try, and whether
/// all writers are done.
#[derive(Drop)]
pub struct Workload {
    writers: Crew,
    readers: Crew,
    tries: u64,
    pause: u64,
    is_done: AtomicBool,
}

impl Workload {
    /// Returns the workload of so many writers and readers, which none has begun.
    pub fn new(writers: Crew, readers: Crew, tries: u64, pause: u64) -> Self {
        Workload {
            writers,
            readers,
            tries,
            pause,
            is_done: AtomicBool::new(false),
        }
    }

    /// Returns whether all writers are done.
    fn is_done(&self) -> bool {
        self.is_done.load(Ordering::SeqCst)
    }

    /// Makes the loads that follow a try of writing.
    fn pause(&self) {
        for _ in 0..self.pause {
            self.is_done();
        }
    }

    /// Makes the tries of one writer. A try that finds the cell busy is over, and the next one is of the next value.
    fn write_all<const SIZE: usize>(
        &self,
        cell: &Cell<SIZE>,
        writer: &mut Writer<SIZE>,
    ) -> WriteCounts
        requires size { SIZE ≤ 256 }
        requires writer { writer.old.cell ≡ cell.now }
        ensures { writer.new.cell ≡ writer.old.cell }
    {
        let mut bytes = [7; SIZE];
        let mut finished: u64 = 0;
        for i in 0..self.tries {
            if let Some(first) = bytes.first_mut() {
                *first = (i & 0xff) as u8;
            }
            if cell.try_write(writer, bytes).is_ok() {
                finished = finished.wrapping_add(1);
            }
            self.pause();
        }
        WriteCounts {
            tries: self.tries,
            finished,
        }
    }

    /// Makes the tries of two writers, in two threads.
    fn write_twice<const SIZE: usize, R: Threads>(
        &self,
        rt: &R,
        cell: &Cell<SIZE>,
        first: &mut Writer<SIZE>,
        second: &mut Writer<SIZE>,
    ) -> WriteCounts
        requires size { SIZE ≤ 256 }
        requires first { first.old.cell ≡ cell.now }
        requires second { second.old.cell ≡ cell.now }
        ensures first { first.new.cell ≡ first.old.cell }
        ensures second { second.new.cell ≡ second.old.cell }
    {
        let (by_first, by_second) = thread::join_mut(
            rt,
            &mut ||
                requires { (SIZE ≤ 256) × (first.now.cell ≡ cell.now) }
                ensures { first.exit.now.cell ≡ first.entry.now.cell }
            { self.write_all(cell, first) },
            &mut ||
                requires { (SIZE ≤ 256) × (second.now.cell ≡ cell.now) }
                ensures { second.exit.now.cell ≡ second.entry.now.cell }
            { self.write_all(cell, second) },
        );
        by_first.add(by_second)
    }

    /// Makes the tries of three writers, in three threads.
    fn write_thrice<const SIZE: usize, R: Threads + Sync>(
        &self,
        rt: &R,
        cell: &Cell<SIZE>,
        first: &mut Writer<SIZE>,
        second: &mut Writer<SIZE>,
        third: &mut Writer<SIZE>,
    ) -> WriteCounts
        requires size { SIZE ≤ 256 }
        requires first { first.old.cell ≡ cell.now }
        requires second { second.old.cell ≡ cell.now }
        requires third { third.old.cell ≡ cell.now }
        ensures first { first.new.cell ≡ first.old.cell }
        ensures second { second.new.cell ≡ second.old.cell }
        ensures third { third.new.cell ≡ third.old.cell }
    {
        let (by_two, by_third) = thread::join_mut(
            rt,
            &mut ||
                requires { (SIZE ≤ 256) × (first.now.cell ≡ cell.now)
                    × (second.now.cell ≡ cell.now) }
                ensures { (first.exit.now.cell ≡ first.entry.now.cell)
                    × (second.exit.now.cell ≡ second.entry.now.cell) }
            { self.write_twice(rt, cell, first, second) },
            &mut ||
                requires { (SIZE ≤ 256) × (third.now.cell ≡ cell.now) }
                ensures { third.exit.now.cell ≡ third.entry.now.cell }
            { self.write_all(cell, third) },
        );
        by_two.add(by_third)
    }

    /// Makes the tries of all writers, and tells the readers when these are done.
    fn write_by_all<const SIZE: usize, R: Threads + Sync>(
        &self,
        rt: &R,
        cell: &Cell<SIZE>,
        first: &mut Writer<SIZE>,
        second: &mut Writer<SIZE>,
        third: &mut Writer<SIZE>,
    ) -> WriteCounts
        requires size { SIZE ≤ 256 }
        requires first { first.old.cell ≡ cell.now }
        requires second { second.old.cell ≡ cell.now }
        requires third { third.old.cell ≡ cell.now }
        ensures first { first.new.cell ≡ first.old.cell }
        ensures second { second.new.cell ≡ second.old.cell }
        ensures third { third.new.cell ≡ third.old.cell }
    {
        let counts = match self.writers {
            Crew::One => self.write_all(cell, first),
            Crew::Two => self.write_twice(rt, cell, first, second),
            Crew::Three => self.write_thrice(rt, cell, first, second, third),
        };
        self.is_done.store(true, Ordering::SeqCst);
        counts
    }

    /// Reads until all writers are done.
    fn read_until_done<const SIZE: usize>(
        &self,
        cell: &Cell<SIZE>,
        reader: &mut Reader<SIZE>,
    ) -> ReadCounts
        requires size { SIZE ≤ 256 }
        requires reader { reader.old.cell ≡ cell.now }
        ensures { reader.new.cell ≡ reader.old.cell }
    {
        let mut counts = ReadCounts {
            tries: 0,
            values: 0,
            sum: 0,
        };
        for tries in 0..u64::MAX {
            counts.tries = tries;
            if self.is_done() {
                break;
            }
            if let Ok(bytes) = cell.try_read(reader) {
                let byte = bytes.get((tries & 7) as usize).copied().unwrap_or(0);
                counts.values = counts.values.wrapping_add(1);
                counts.sum = counts.sum.wrapping_add(u64::from(byte));
            }
        }
        counts
    }

    /// Reads in two threads.
    fn read_twice<const SIZE: usize, R: Threads>(
        &self,
        rt: &R,
        cell: &Cell<SIZE>,
        first: &mut Reader<SIZE>,
        second: &mut Reader<SIZE>,
    ) -> ReadCounts
        requires size { SIZE ≤ 256 }
        requires first { first.old.cell ≡ cell.now }
        requires second { second.old.cell ≡ cell.now }
    {
        let (by_first, by_second) = thread::join_mut(
            rt,
            &mut ||
                requires { (SIZE ≤ 256) × (first.now.cell ≡ cell.now) }
            { self.read_until_done(cell, first) },
            &mut ||
                requires { (SIZE ≤ 256) × (second.now.cell ≡ cell.now) }
            { self.read_until_done(cell, second) },
        );
        by_first.add(by_second)
    }

    /// Reads in three threads.
    fn read_thrice<const SIZE: usize, R: Threads + Sync>(
        &self,
        rt: &R,
        cell: &Cell<SIZE>,
        first: &mut Reader<SIZE>,
        second: &mut Reader<SIZE>,
        third: &mut Reader<SIZE>,
    ) -> ReadCounts
        requires size { SIZE ≤ 256 }
        requires first { first.old.cell ≡ cell.now }
        requires second { second.old.cell ≡ cell.now }
        requires third { third.old.cell ≡ cell.now }
    {
        let (by_two, by_third) = thread::join_mut(
            rt,
            &mut ||
                requires { (SIZE ≤ 256) × (first.now.cell ≡ cell.now)
                    × (second.now.cell ≡ cell.now) }
            { self.read_twice(rt, cell, first, second) },
            &mut ||
                requires { (SIZE ≤ 256) × (third.now.cell ≡ cell.now) }
            { self.read_until_done(cell, third) },
        );
        by_two.add(by_third)
    }

    /// Reads in as many threads as there are readers.
    fn read_by_all<const SIZE: usize, R: Threads + Sync>(
        &self,
        rt: &R,
        cell: &Cell<SIZE>,
        first: &mut Reader<SIZE>,
        second: &mut Reader<SIZE>,
        third: &mut Reader<SIZE>,
    ) -> ReadCounts
        requires size { SIZE ≤ 256 }
        requires first { first.old.cell ≡ cell.now }
        requires second { second.old.cell ≡ cell.now }
        requires third { third.old.cell ≡ cell.now }
    {
        match self.readers {
            Crew::One => self.read_until_done(cell, first),
            Crew::Two => self.read_twice(rt, cell, first, second),
            Crew::Three => self.read_thrice(rt, cell, first, second, third),
        }
    }

    /// Writes and reads at once.
    fn write_beside_reads<const SIZE: usize, R: Threads + Sync>(
        &self,
        rt: &R,
        cell: &Cell<SIZE>,
        first: &mut Writer<SIZE>,
        second: &mut Writer<SIZE>,
        third: &mut Writer<SIZE>,
        reader: &mut Reader<SIZE>,
        second_reader: &mut Reader<SIZE>,
        third_reader: &mut Reader<SIZE>,
    ) -> (WriteCounts, ReadCounts)
        requires size { SIZE ≤ 256 }
        requires writers { (first.old.cell ≡ cell.now) × (second.old.cell ≡ cell.now)
            × (third.old.cell ≡ cell.now) }
        requires readers { (reader.old.cell ≡ cell.now)
            × (second_reader.old.cell ≡ cell.now) × (third_reader.old.cell ≡ cell.now) }
        ensures first { first.new.cell ≡ first.old.cell }
        ensures second { second.new.cell ≡ second.old.cell }
        ensures third { third.new.cell ≡ third.old.cell }
    {
        thread::join_mut(
            rt,
            &mut ||
                requires { (SIZE ≤ 256) × (first.now.cell ≡ cell.now)
                    × (second.now.cell ≡ cell.now) × (third.now.cell ≡ cell.now) }
                ensures { (first.exit.now.cell ≡ first.entry.now.cell)
                    × (second.exit.now.cell ≡ second.entry.now.cell)
                    × (third.exit.now.cell ≡ third.entry.now.cell) }
            { self.write_by_all(rt, cell, first, second, third) },
            &mut ||
                requires { (SIZE ≤ 256) × (reader.now.cell ≡ cell.now)
                    × (second_reader.now.cell ≡ cell.now) × (third_reader.now.cell ≡ cell.now) }
            { self.read_by_all(rt, cell, reader, second_reader, third_reader) },
        )
    }
}

/// Writes a new cell while it is read. Returns the counts of the writers and the readers.
pub fn run<const SIZE: usize, R: Threads + Sync>(
    rt: &R,
    alloc: Global,
    workload: &Workload,
) -> Result<(WriteCounts, ReadCounts), AllocError>
    requires { SIZE ≤ 256 }
{
    let (cell, mut first, mut reader) = Cell::<SIZE>::new(alloc, [7; SIZE])?;
    let mut second = cell.writer(alloc, &mut first).unwrap();
    let mut third = cell.writer(alloc, &mut first).unwrap();
    let mut second_reader = cell.reader(alloc, &mut first).unwrap();
    let mut third_reader = cell.reader(alloc, &mut first).unwrap();
    let counts = workload.write_beside_reads(
        rt,
        &cell,
        &mut first,
        &mut second,
        &mut third,
        &mut reader,
        &mut second_reader,
        &mut third_reader,
    );
    cell.merge(&mut first, second);
    cell.merge(&mut first, third);
    let _ = cell.close(first);
    Ok(counts)
}

//! A range that two threads set while two others read it. No thread waits. Each range that is read is in order.
ghost use Rattle.std.specs.Prelude.{◌≡◌, ◌≤◌, ◌++◌, ◌∷◌, [], length, true, false, IfOk, IfSome};
ghost use Rattle.ix_atomic.specs.History.{Begins};
ghost use Rattle.ix_atomic.specs.Shares.{IsWhole};
ghost use Rattle.ix_atomic.specs.Writers.{Writes, AreApart, HoldsEach, places_merge};

use crate::own_fields::{RANGE_SIZE, Range};
use ix_atomic::{Fields, ReaderSeat, SequencedByteAtomic, WriterSeat};
use std::alloc::{AllocError, Global};
use std::thread::{Threads, join_mut};

/// The range that the threads share.
pub type SharedRange = SequencedByteAtomic<Fields<Range>, RANGE_SIZE>;

/// A seat that sets it.
pub type Writer = WriterSeat<Fields<Range>>;

/// A seat that reads it.
pub type Reader = ReaderSeat<Fields<Range>>;

/// Makes a cell of `range`, with a writer's seat and a reader's.
pub fn make(alloc: Global, range: Range) -> Result<(SharedRange, Writer, Reader), AllocError>
    ensures cells { IfOk result (λ made. (made.1.cell ≡ made.0) × (made.2.cell ≡ made.0)) }
    ensures known { IfOk result (λ made. (made.1.known ≡ record { 0 = range } ∷ [])
        × (made.2.known ≡ record { 0 = range } ∷ [])) }
    ensures share { IfOk result (λ made. made.1.share ≡ 0 ∷ []) }
{
    SharedRange::new(alloc, Fields(range))
}

/// Sets the range, unless another thread sets it right now, or no version is left. Returns whether it did.
pub fn set_range(cell: &SharedRange, seat: &mut Writer, range: Range) -> bool
    requires { seat.old.cell ≡ cell.now }
    ensures cell { seat.new.cell ≡ seat.old.cell }
    ensures share { seat.new.share ≡ seat.old.share }
    ensures set { result ≡ true → Writes seat.old seat.new (record { 0 = range }) }
    ensures not_set { result ≡ false → seat.new.places ≡ seat.old.places }
{
    match cell.try_write(seat, Fields(range)) {
        Ok(()) => true,
        Err(_) => false,
    }
}

/// Tries to set `rounds` ranges.
fn set_ranges(cell: &SharedRange, seat: &mut Writer, rounds: u64)
    requires { seat.old.cell ≡ cell.now }
    ensures cell { seat.new.cell ≡ seat.old.cell }
    ensures share { seat.new.share ≡ seat.old.share }
{
    for i in 0..rounds {
        set_range(cell, seat, Range { low: i, high: i });
    }
}

/// Reads the range `rounds` times. Returns the one that was read last, if any was.
fn read_ranges(cell: &SharedRange, reader: &mut Reader, rounds: u64) -> Option<Range>
    requires { reader.old.cell ≡ cell.now }
    ensures { reader.new.cell ≡ reader.old.cell }
{
    let mut latest = None;
    for _ in 0..rounds {
        if let Ok(Fields(range)) = cell.try_read(reader) {
            latest = Some(range);
        }
    }
    latest
}

/// Sets ranges in two threads.
fn set_both<R: Threads>(
    rt: &R,
    cell: &SharedRange,
    one: &mut Writer,
    other: &mut Writer,
    rounds: u64,
)
    requires { (one.old.cell ≡ cell.now) × (other.old.cell ≡ cell.now) }
    ensures cell { (one.new.cell ≡ one.old.cell) × (other.new.cell ≡ other.old.cell) }
    ensures share { (one.new.share ≡ one.old.share) × (other.new.share ≡ other.old.share) }
{
    join_mut(
        rt,
        &mut || set_ranges(cell, one, rounds),
        &mut || set_ranges(cell, other, rounds),
    );
}

/// Reads the range in two threads. Returns the range that each thread read last.
fn read_both<R: Threads>(
    rt: &R,
    cell: &SharedRange,
    one: &mut Reader,
    other: &mut Reader,
    rounds: u64,
) -> (Option<Range>, Option<Range>)
    requires { (one.old.cell ≡ cell.now) × (other.old.cell ≡ cell.now) }
    ensures { (one.new.cell ≡ one.old.cell) × (other.new.cell ≡ other.old.cell) }
{
    join_mut(
        rt,
        &mut || read_ranges(cell, one, rounds),
        &mut || read_ranges(cell, other, rounds),
    )
}

/// Sets ranges in two threads while two others read them. Returns the range that each reader read last.
fn set_beside_reads<R: Threads + Sync>(
    rt: &R,
    cell: &SharedRange,
    one: &mut Writer,
    other: &mut Writer,
    reader: &mut Reader,
    further: &mut Reader,
    rounds: u64,
) -> (Option<Range>, Option<Range>)
    requires writers { (one.old.cell ≡ cell.now) × (other.old.cell ≡ cell.now) }
    requires readers { (reader.old.cell ≡ cell.now) × (further.old.cell ≡ cell.now) }
    ensures writers { (one.new.cell ≡ one.old.cell) × (other.new.cell ≡ other.old.cell) }
    ensures share { (one.new.share ≡ one.old.share) × (other.new.share ≡ other.old.share) }
    ensures readers { (reader.new.cell ≡ reader.old.cell) × (further.new.cell ≡ further.old.cell) }
{
    let (_, latest) = join_mut(
        rt,
        &mut ||
            requires { (one.now.cell ≡ cell.now) × (other.now.cell ≡ cell.now) }
            ensures { (one.exit.now.cell ≡ one.entry.now.cell)
                × (other.exit.now.cell ≡ other.entry.now.cell)
                × (one.exit.now.share ≡ one.entry.now.share)
                × (other.exit.now.share ≡ other.entry.now.share) }
        { set_both(rt, cell, one, other, rounds) },
        &mut ||
            requires { (reader.now.cell ≡ cell.now) × (further.now.cell ≡ cell.now) }
            ensures { (reader.exit.now.cell ≡ reader.entry.now.cell)
                × (further.exit.now.cell ≡ further.entry.now.cell) }
        { read_both(rt, cell, reader, further, rounds) },
    );
    latest
}

/// Takes back the seat of another thread. All ranges that were set with either seat are in one history, each once. If no other
/// thread has a seat, the history has nothing else but the first range.
pub fn take_back(cell: &SharedRange, seat: &mut Writer, other: Writer)
    requires { (seat.old.cell ≡ cell.now) × (other.cell ≡ cell.now) }
    ensures cell { seat.new.cell ≡ seat.old.cell }
    ensures known { Begins seat.old.known seat.new.known × Begins other.known seat.new.known }
    ensures once { AreApart seat.old.places other.places }
    ensures places { seat.new.places ≡ places_merge seat.old.places other.places }
    ensures share { seat.new.share ≡ seat.old.share ++ other.share }
    ensures all { IsWhole seat.new.share → HoldsEach (length seat.new.known) seat.new.places }
{
    cell.merge(seat, other);
}

/// Sets ranges in two threads while two others read them. One of the writing threads has its own seat. Returns the range that each
/// reader read last. In the end, all ranges that were ever set are known, and all ranges that were read are in order.
pub fn set_and_read<R: Threads + Sync>(
    rt: &R,
    alloc: Global,
    cell: &SharedRange,
    seat: &mut Writer,
    mut reader: Reader,
    rounds: u64,
) -> (Option<Range>, Option<Range>)
    requires cell { (seat.old.cell ≡ cell.now) × (reader.cell ≡ cell.now) }
    requires share { seat.old.share ≡ 0 ∷ [] }
    ensures cell { seat.new.cell ≡ seat.old.cell }
    ensures share { IsWhole seat.new.share }
    ensures all { HoldsEach (length seat.new.known) seat.new.places }
    ensures read { IfSome result.0 (λ range. range.low ≤ range.high)
        × IfSome result.1 (λ range. range.low ≤ range.high) }
{
    let mut other = cell.writer(alloc, seat).unwrap();
    let mut further = cell.reader(alloc, seat).unwrap();
    let latest = set_beside_reads(
        rt,
        cell,
        seat,
        &mut other,
        &mut reader,
        &mut further,
        rounds,
    );
    take_back(cell, seat, other);
    cell.merge_reader(seat, reader);
    cell.merge_reader(seat, further);
    latest
}

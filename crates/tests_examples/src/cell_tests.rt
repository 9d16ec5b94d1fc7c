//! Cells that threads write and read at once.
ghost use Rattle.std.specs.Prelude.{◌≡◌, ◌≤◌, length};
ghost use Rattle.ix_atomic.specs.Writers.{AreOwn};

use examples::configuration::{Limit, limit_or};
use examples::log_position::{self, Position};
use examples::own_fields::Range;
use examples::rising_limit::{self, raise_limit};
use examples::shared_range;
use ix_atomic::{Fields, ReaderSeat, WriterSeat};
use std::thread;
use std::thread::Threads;

/// The number of values that each thread writes.
const VALUES: u64 = 100;

/// The most tries of one write.
const TRIES: u32 = 10_000_000;

/// Returns whether the position is published in the end.
fn publish_at_last(position: &Position, seat: &mut WriterSeat<u64>, value: u64) -> bool
    requires { (seat.old.cell ≡ position.now) × AreOwn seat.old }
    ensures { (seat.new.cell ≡ seat.old.cell) × AreOwn seat.new }
{
    for _ in 0..TRIES {
        if log_position::publish(position, seat, value).is_ok() {
            return true;
        }
    }
    false
}

/// Publishes `VALUES` positions from `first` on, and returns whether each is published.
fn publish_all(position: &Position, seat: &mut WriterSeat<u64>, first: u64) -> bool
    requires { (seat.old.cell ≡ position.now) × AreOwn seat.old }
    ensures { (seat.new.cell ≡ seat.old.cell) × AreOwn seat.new }
{
    let mut all = true;
    for i in 0..VALUES {
        all &= publish_at_last(position, seat, first.wrapping_add(i));
    }
    all
}

#[test]
fn two_threads_publish(rt: HostRuntime) {
    let (position, mut seat, mut reader) = Position::new(rt.alloc(), 0).expect(
        &rt,
        "there is memory",
    );
    let mut other = position
        .writer(rt.alloc(), &mut seat)
        .expect(&rt, "a seat takes no memory");
    let published = thread::join_mut(
        &rt,
        &mut || publish_all(&position, &mut seat, 1_000),
        &mut || publish_all(&position, &mut other, 2_000),
    );
    log_position::take_back(&position, &mut seat, other);
    assert!(rt; published == (true, true));
    assert!(rt; position.version(&mut reader) == 400);
    let last = position.close(seat).expect(&rt, "nobody publishes");
    assert!(rt; last == 1_099 || last == 2_099);
}

/// Raises the limit from 100 by 1 each time, and returns how often it was raised.
fn raise_each(limit: &Limit, writer: &mut WriterSeat<u64>) -> u64
    requires { (writer.old.cell ≡ limit.now) × AreOwn writer.old × (length writer.old.places ≡ 0) }
    ensures cell { writer.new.cell ≡ writer.old.cell }
    ensures own { AreOwn writer.new }
    ensures raises { length writer.new.places ≡ result }
{
    let mut last = 100;
    let mut raises = 0;
    for i in 0..VALUES {
        if raise_limit(limit, writer, &mut last, 101 + i) {
            raises += 1;
        }
    }
    raises
}

/// Reads the limit again and again, and returns whether no limit is less than one before it.
fn never_falls(limit: &Limit, reader: &mut ReaderSeat<u64>) -> bool
    requires { reader.old.cell ≡ limit.now }
    ensures { reader.new.cell ≡ reader.old.cell }
{
    let mut rises = true;
    let mut latest = 100;
    for _ in 0..10 * VALUES {
        let read = limit_or(limit, reader, latest);
        rises &= latest <= read;
        latest = read;
    }
    rises
}

/// Raises the limit in one thread while another reads it.
fn raise_beside_reader<R: Threads>(
    rt: &R,
    limit: &Limit,
    writer: &mut WriterSeat<u64>,
    reader: &mut ReaderSeat<u64>,
) -> (u64, bool)
    requires writer { (writer.old.cell ≡ limit.now) × AreOwn writer.old
        × (length writer.old.places ≡ 0) }
    requires reader { reader.old.cell ≡ limit.now }
    ensures writer { (writer.new.cell ≡ writer.old.cell) × AreOwn writer.new }
    ensures raises { length writer.new.places ≡ result.0 }
    ensures reader { reader.new.cell ≡ reader.old.cell }
{
    thread::join_mut(
        rt,
        &mut || raise_each(limit, writer),
        &mut || never_falls(limit, reader),
    )
}

#[test]
fn a_limit_only_grows(rt: HostRuntime) {
    let (limit, mut writer, mut reader) = Limit::new(rt.alloc(), 100).expect(
        &rt,
        "there is memory",
    );
    let (raises, rises) = raise_beside_reader(&rt, &limit, &mut writer, &mut reader);
    assert!(rt; raises == 100);
    assert!(rt; rises);
    assert!(rt; rising_limit::take_back(&limit, rt.alloc(), &mut writer, reader, raises));
    assert!(rt; limit.close(writer) == Ok(200));
}

const FIRST_RANGE: Range = Range {
    low: 5_000,
    high: 6_000,
};

/// Returns whether nothing was read, or the first range, or one that a thread sets: then its bounds are the number of a round.
fn is_first_or_set(read: Option<Range>) -> bool {
    match read {
        Some(range) => range == FIRST_RANGE || (range.low == range.high && range.high < VALUES),
        None => true,
    }
}

#[test]
fn two_threads_set_and_two_read(rt: HostRuntime) {
    let (cell, mut seat, reader) = shared_range::make(rt.alloc(), FIRST_RANGE).expect(
        &rt,
        "there is memory",
    );
    let (one, other) = shared_range::set_and_read(
        &rt,
        rt.alloc(),
        &cell,
        &mut seat,
        reader,
        VALUES,
    );
    assert!(rt; is_first_or_set(one));
    assert!(rt; is_first_or_set(other));
    let Fields(last) = cell.close(seat).expect(&rt, "nobody sets a range");
    assert!(rt; last != FIRST_RANGE && is_first_or_set(Some(last)));
}

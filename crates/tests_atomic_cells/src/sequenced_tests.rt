//! The calls of a sequenced cell in one thread, and their results.
ghost use Rattle.std.specs.Prelude.{◌≡◌};

use crate::foo::Foo;
use ix_atomic::{AtomicCopy, SequencedByteAtomic};
use ix_string::StaticString;
use std::alloc::Global;
use std::fmt::Debug;
use std::test::Fail;
use test_support::Findings;

#[test]
fn the_calls_of_one_thread(rt: HostRuntime) -> Result<(), Fail> {
    let (cell, mut writer, mut first) = SequencedByteAtomic::<u8, 1>::new(rt.alloc(), 0)?;
    let findings = Findings::new();
    findings.expect_same(cell.try_write(&mut writer, 7), Ok(()), "write 7");
    findings.expect_same(cell.version(&mut first), 2, "the version after one write");
    findings.expect_same(cell.try_write(&mut writer, 9), Ok(()), "write 9");
    findings.expect_same(cell.try_read(&mut first), Ok(9), "a read by the first seat");
    match cell.reader(rt.alloc(), &mut writer) {
        Ok(mut second) => {
            findings.expect_same(cell.try_read(&mut second), Ok(9), "a read by a new seat");
            findings.expect_same(cell.version(&mut second), 4, "the version after two writes");
        }
        Err(_) => findings.miss("a new seat"),
    }
    findings.expect_same(cell.read_own(&mut writer), Ok(9), "the writer's own read");
    findings.expect_same(cell.close(writer), Ok(9), "the last value");
    findings.verdict()
}

#[test]
fn a_cell_that_no_write_changed(rt: HostRuntime) -> Result<(), Fail> {
    let (cell, mut writer, mut reader) = SequencedByteAtomic::<i64, 8>::new(rt.alloc(), -1)?;
    let findings = Findings::new();
    findings.expect_same(cell.version(&mut reader), 0, "the version");
    findings.expect_same(cell.try_read(&mut reader), Ok(-1), "a read");
    findings.expect_same(cell.read_own(&mut writer), Ok(-1), "the writer's own read");
    findings.expect_same(cell.close(writer), Ok(-1), "the last value");
    findings.verdict()
}

#[test]
fn a_write_by_a_further_seat(rt: HostRuntime) -> Result<(), Fail> {
    let (cell, mut first, _reader) = SequencedByteAtomic::<u8, 1>::new(rt.alloc(), 0)?;
    let findings = Findings::new();
    match cell.writer(rt.alloc(), &mut first) {
        Ok(mut further) => {
            findings.expect_same(cell.try_write(&mut further, 7), Ok(()), "write 7");
            cell.merge(&mut first, further);
        }
        Err(_) => findings.miss("a further seat"),
    }
    findings.expect_same(cell.close(first), Ok(7), "the last value");
    findings.verdict()
}

/// Checks that two writers' seats write in turn, and that each reads what the other wrote, whichever consumes the other.
fn check_writers<T: AtomicCopy + PartialEq + Debug, const SIZE: usize>(
    findings: &Findings,
    alloc: Global,
    first: T,
    second: T,
    place: &str,
)
    requires { SIZE ≡ T.SIZE }
{
    match SequencedByteAtomic::<T, SIZE>::new(alloc, first) {
        Ok((cell, mut writer, mut reader)) => match cell.writer(alloc, &mut writer) {
            Ok(mut further) => {
                findings.expect_same(cell.read_own(&mut further), Ok(first), place);
                findings.expect_same(cell.try_write(&mut further, second), Ok(()), place);
                findings.expect_same(cell.read_own(&mut writer), Ok(second), place);
                findings.expect_same(cell.try_write(&mut writer, first), Ok(()), place);
                findings.expect_same(cell.read_own(&mut further), Ok(first), place);
                findings.expect_same(cell.try_write(&mut further, second), Ok(()), place);
                findings.expect_same(cell.version(&mut reader), 6, place);
                cell.merge(&mut further, writer);
                findings.expect_same(cell.read_own(&mut further), Ok(second), place);
                findings.expect_same(cell.close(further), Ok(second), place);
            }
            Err(_) => {
                findings.miss(place);
                findings.expect_same(cell.close(writer), Ok(first), place);
            }
        },
        Err(_) => findings.miss(place),
    }
}

/// Checks that a reader's seat can be merged into a writer's, which goes on writing, and that other readers go on reading.
fn check_readers<T: AtomicCopy + PartialEq + Debug, const SIZE: usize>(
    findings: &Findings,
    alloc: Global,
    first: T,
    second: T,
    place: &str,
)
    requires { SIZE ≡ T.SIZE }
{
    match SequencedByteAtomic::<T, SIZE>::new(alloc, first) {
        Ok((cell, mut writer, mut reader)) => {
            findings.expect_same(cell.try_read(&mut reader), Ok(first), place);
            let made = cell.reader(alloc, &mut writer);
            cell.merge_reader(&mut writer, reader);
            findings.expect_same(cell.try_write(&mut writer, second), Ok(()), place);
            match made {
                Ok(mut other) => {
                    findings.expect_same(cell.try_read(&mut other), Ok(second), place);
                    findings.expect_same(cell.version(&mut other), 2, place);
                    cell.merge_reader(&mut writer, other);
                }
                Err(_) => findings.miss(place),
            }
            findings.expect_same(cell.read_own(&mut writer), Ok(second), place);
            findings.expect_same(cell.close(writer), Ok(second), place);
        }
        Err(_) => findings.miss(place),
    }
}

/// Checks a cell's seats, with values that have the same size.
fn check_seats<T: AtomicCopy + PartialEq + Debug, const SIZE: usize>(
    findings: &Findings,
    alloc: Global,
    first: T,
    second: T,
    place: &str,
)
    requires { SIZE ≡ T.SIZE }
{
    check_writers::<T, SIZE>(findings, alloc, first, second, place);
    check_readers::<T, SIZE>(findings, alloc, first, second, place);
}

#[test]
fn seats_of_each_type(rt: HostRuntime) -> Result<(), Fail> {
    let findings = Findings::new();
    let text = StaticString::try_from("ab").expect(&rt, "a text of two bytes");
    let one = Foo { bar: 1, baz: 2 };
    let other = Foo {
        bar: 255,
        baz: u64::MAX,
    };
    check_seats::<(), 0>(&findings, rt.alloc(), (), (), "()");
    check_seats::<bool, 1>(&findings, rt.alloc(), false, true, "bool");
    check_seats::<u64, 8>(&findings, rt.alloc(), 0, u64::MAX, "u64");
    check_seats::<StaticString<3>, 3>(&findings, rt.alloc(), StaticString::new(), text, "a text");
    check_seats::<Foo, 9>(&findings, rt.alloc(), one, other, "Foo");
    check_seats::<[u8; 20], 20>(&findings, rt.alloc(), [1; 20], [2; 20], "20 bytes");
    findings.verdict()
}

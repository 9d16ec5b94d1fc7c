//! One thread reads from a cell what it wrote, in each kind of cell and in each memory.
ghost use Rattle.std.specs.Prelude.{◌≡◌, ◌≤◌};

use crate::foo::Foo;
use bumpalo::Bump;
use ix_atomic::{
    AtomicCopy, FixedSizeByteAtomic, RelocatableByteAtomic, SequencedByteAtomic, UninitByteAtomic,
};
use ix_string::StaticString;
use ix_tables::InitError;
use linked_list_allocator::LocalHeap;
use std::alloc::{Allocator, Global};
use std::array;
use std::fmt::Debug;
use std::test::Fail;
use test_support::Findings;

/// Checks a fixed cell that is made with the first value and then holds the second.
fn check_fixed<T: AtomicCopy + PartialEq + Debug, const SIZE: usize>(
    findings: &Findings,
    first: T,
    second: T,
    place: &str,
)
    requires size { SIZE ≡ T.SIZE }
    requires fits { SIZE ≤ 1000 }
{
    let cell = FixedSizeByteAtomic::<T, SIZE>::new(first);
    findings.expect_same(cell.read().assume_consistent(), Some(first), place);
    cell.write(second);
    findings.expect_same(cell.read().assume_consistent(), Some(second), place);
}

/// Does the same as `check_fixed`, for a relocatable cell that was made.
fn check_made<T: AtomicCopy + PartialEq + Debug, const SIZE: usize, A: Allocator>(
    findings: &Findings,
    made: Result<RelocatableByteAtomic<T, SIZE, A>, InitError<UninitByteAtomic<T, SIZE>>>,
    first: T,
    second: T,
    place: &str,
)
    requires { SIZE ≡ T.SIZE }
{
    match made {
        Ok(cell) => {
            findings.expect_same(cell.read().assume_consistent(), Some(first), place);
            cell.write(second);
            findings.expect_same(cell.read().assume_consistent(), Some(second), place);
        }
        Err(_) => findings.miss(place),
    }
}

/// Does the same as `check_fixed`, for a sequenced cell, which has so many words.
fn check_sequenced<T: AtomicCopy + PartialEq + Debug, const SIZE: usize>(
    findings: &Findings,
    alloc: Global,
    first: T,
    second: T,
    words: usize,
    place: &str,
)
    requires { SIZE ≡ T.SIZE }
{
    match SequencedByteAtomic::<T, SIZE>::new(alloc, first) {
        Ok((cell, mut writer, mut reader)) => {
            findings.expect_same(cell.words(), words, place);
            findings.expect_same(cell.try_read(&mut reader), Ok(first), place);
            findings.expect_same(cell.try_write(&mut writer, second), Ok(()), place);
            findings.expect_same(cell.try_read(&mut reader), Ok(second), place);
            findings.expect_same(cell.read_own(&mut writer), Ok(second), place);
            findings.expect_same(cell.close(writer), Ok(second), place);
        }
        Err(_) => findings.miss(place),
    }
}

/// Checks a cell of each kind. Sequenced ones have `words` words.
fn check_cells<T: AtomicCopy + PartialEq + Debug, const SIZE: usize>(
    findings: &Findings,
    alloc: Global,
    first: T,
    second: T,
    words: usize,
    place: &str,
)
    requires size { SIZE ≡ T.SIZE }
    requires fits { SIZE ≤ 1000 }
{
    check_fixed::<T, SIZE>(findings, first, second, place);
    let made = RelocatableByteAtomic::<T, SIZE>::new_uninit().init(alloc, first);
    check_made(findings, made, first, second, place);
    check_sequenced::<T, SIZE>(findings, alloc, first, second, words, place);
}

const FIRST: Foo = Foo { bar: 0, baz: 0 };

const SECOND: Foo = Foo { bar: 4, baz: 6 };

const THIRD: Foo = Foo {
    bar: 255,
    baz: 0x0102_0304_0506_0708,
};

#[test]
fn cells_of_each_type(rt: HostRuntime) -> Result<(), Fail> {
    let findings = Findings::new();
    let alloc = rt.alloc();
    check_cells::<Foo, 9>(&findings, alloc, FIRST, SECOND, 3, "Foo");
    check_cells::<Foo, 9>(&findings, alloc, Foo { bar: 1, baz: 2 }, THIRD, 3, "Foo");
    check_cells::<(), 0>(&findings, alloc, (), (), 1, "()");
    check_cells::<bool, 1>(&findings, alloc, true, false, 2, "bool");
    check_cells::<u8, 1>(&findings, alloc, 255, 0, 2, "u8");
    check_cells::<u8, 1>(&findings, alloc, 7, 9, 2, "u8");
    check_cells::<u16, 2>(&findings, alloc, 1, 65535, 2, "u16");
    check_cells::<u32, 4>(&findings, alloc, 1 << 31, 1, 2, "u32");
    check_cells::<u64, 8>(&findings, alloc, 0, u64::MAX, 2, "u64");
    check_cells::<u64, 8>(&findings, alloc, u64::MAX, 1, 2, "u64");
    check_cells::<i64, 8>(&findings, alloc, i64::MIN, -1, 2, "i64");
    check_cells::<i8, 1>(&findings, alloc, -128, 127, 2, "i8");
    check_cells::<u128, 16>(&findings, alloc, 1, u128::MAX, 3, "u128");
    check_cells::<(u8, i32), 5>(&findings, alloc, (1, -1), (255, i32::MIN), 2, "a pair");
    check_cells::<(bool, u64, u8), 10>(
        &findings,
        alloc,
        (true, 2, 3),
        (false, 1 << 63, 0),
        3,
        "a triple",
    );
    check_cells::<[u16; 3], 6>(
        &findings,
        alloc,
        [1, 256, 65_535],
        [0, 2, 1 << 15],
        2,
        "numbers",
    );
    check_cells::<[i64; 2], 16>(
        &findings,
        alloc,
        [-1, i64::MIN],
        [i64::MAX, 7],
        3,
        "numbers",
    );
    let none = StaticString::new();
    let text = StaticString::try_from("ab").expect(&rt, "a text of two bytes");
    let other = StaticString::try_from("c").expect(&rt, "a text of one byte");
    check_cells::<StaticString<3>, 3>(&findings, alloc, none, text, 2, "a text");
    check_cells::<StaticString<3>, 3>(&findings, alloc, text, other, 2, "a text");
    findings.verdict()
}

/// Checks cells of bytes that are all 7, and then 0, 1, 2, and so on.
fn check_size<const SIZE: usize>(findings: &Findings, alloc: Global, words: usize, place: &str)
    requires { SIZE ≤ 1000 }
{
    let rising: [u8; SIZE] = array::from_fn(|i| (i & 0xff) as u8);
    check_cells::<[u8; SIZE], SIZE>(findings, alloc, [7; SIZE], rising, words, place);
}

/// Sizes around one word of eight bytes and two, and of many words.
#[test]
fn cells_of_each_size(rt: HostRuntime) -> Result<(), Fail> {
    let findings = Findings::new();
    check_size::<0>(&findings, rt.alloc(), 1, "no bytes");
    check_size::<1>(&findings, rt.alloc(), 2, "1 byte");
    check_size::<7>(&findings, rt.alloc(), 2, "7 bytes");
    check_size::<8>(&findings, rt.alloc(), 2, "8 bytes");
    check_size::<9>(&findings, rt.alloc(), 3, "9 bytes");
    check_size::<16>(&findings, rt.alloc(), 3, "16 bytes");
    check_size::<17>(&findings, rt.alloc(), 4, "17 bytes");
    check_size::<64>(&findings, rt.alloc(), 9, "64 bytes");
    check_size::<256>(&findings, rt.alloc(), 33, "256 bytes");
    check_size::<1_000>(&findings, rt.alloc(), 126, "1,000 bytes");
    findings.verdict()
}

#[test]
fn a_relocatable_cell(rt: HostRuntime) -> Result<(), Fail> {
    let findings = Findings::new();
    let in_memory = UninitByteAtomic::<Foo, 9>::new_uninit().init(rt.alloc(), FIRST);
    check_made(&findings, in_memory, FIRST, SECOND, "in memory");
    let arena = Bump::new(rt.alloc());
    let in_arena = UninitByteAtomic::<Foo, 9>::new_uninit().init(&arena, FIRST);
    check_made(&findings, in_arena, FIRST, SECOND, "in an arena");
    match LocalHeap::new(rt.alloc(), 4096) {
        Ok(heap) => {
            let in_heap = UninitByteAtomic::<Foo, 9>::new_uninit().init(&heap, FIRST);
            check_made(&findings, in_heap, FIRST, SECOND, "in a heap");
            findings.expect_same(heap.used(), 0, "after the cell");
        }
        Err(_) => findings.miss("a heap"),
    }
    findings.verdict()
}

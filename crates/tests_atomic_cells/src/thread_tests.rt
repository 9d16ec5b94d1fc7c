//! Threads that write to one cell and read from it at once.
use ix_atomic::{FixedSizeByteAtomic, RelocatableByteAtomic};
use std::test::Fail;
use std::thread;
use std::thread::Threads;
use test_support::Findings;

/// How often each thread reads or writes.
const ROUNDS: u64 = 10_000;

/// A cell that threads share.
type Shared = FixedSizeByteAtomic<u64, 8>;

fn write_often(cell: &Shared, value: u64) {
    for _ in 0..ROUNDS {
        cell.write(value);
    }
}

/// Returns `true` if each byte that is read is one of `expected`.
fn reads_one_of(cell: &Shared, expected: &[u8]) -> bool {
    match cell.read().assume_consistent() {
        Some(value) => value
            .to_le_bytes()
            .iter()
            .all(|byte| expected.contains(byte)),
        None => false,
    }
}

/// Returns `true` if each byte of each read is one of `expected`.
fn read_often(cell: &Shared, expected: &[u8]) -> bool {
    let mut are_expected = true;
    for _ in 0..ROUNDS {
        are_expected &= reads_one_of(cell, expected);
    }
    are_expected
}

/// Two threads write a value each to a cell of `first` while a third reads: each byte that it reads is one of `expected`.
fn check_two_writers<R: Threads + Sync>(
    rt: &R,
    findings: &Findings,
    first: u64,
    written: (u64, u64),
    expected: &[u8],
) {
    let cell = Shared::new(first);
    let (one, other) = written;
    let (_, (_, found)) = thread::join(
        rt,
        || write_often(&cell, one),
        || {
            thread::join(
                rt,
                || write_often(&cell, other),
                || read_often(&cell, expected),
            )
        },
    );
    findings.expect(found, "a byte that no thread wrote");
    findings.expect(reads_one_of(&cell, expected), "the last bytes");
}

#[test]
fn bytes_of_two_writers(rt: HostRuntime) -> Result<(), Fail> {
    let findings = Findings::new();
    check_two_writers(&rt, &findings, 0, (0, u64::MAX), &[0, 255]);
    // No bit is in both bytes that are written, neither is the other's complement, and the first one is neither: 0, a mixed byte
    // or a complement is not expected.
    check_two_writers(
        &rt,
        &findings,
        0x3C3C_3C3C_3C3C_3C3C,
        (0x0F0F_0F0F_0F0F_0F0F, 0x7070_7070_7070_7070),
        &[0x3C, 0x0F, 0x70],
    );
    findings.verdict()
}

/// Only the first byte changes, so each read gives what was written before or after it.
#[test]
fn a_relocatable_cell_is_shared(rt: HostRuntime) -> Result<(), Fail> {
    let findings = Findings::new();
    match RelocatableByteAtomic::<u64, 8>::new_uninit().init(rt.alloc(), 0) {
        Ok(cell) => {
            let (_, torn) = thread::join(&rt, || cell.write(1), || cell.read());
            let value = torn.assume_consistent();
            findings.expect(value == Some(0) || value == Some(1), "beside a write");
            findings.expect_same(cell.read().assume_consistent(), Some(1), "after it");
        }
        Err(_) => findings.miss("there is memory"),
    }
    findings.verdict()
}

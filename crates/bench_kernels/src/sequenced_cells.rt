//! Kernels on sequenced cells.
ghost use Rattle.std.specs.Prelude.{◌≡◌, ◌≤◌, length};

use ix_atomic::{ReaderSeat, SequencedByteAtomic, WriterSeat};
use std::alloc::Global;

type Cell<const SIZE: usize> = SequencedByteAtomic<[u8; SIZE], SIZE>;

pub fn writes(alloc: Global, rounds: u64, size: u64) -> u64 {
    match size {
        8 => write_blocks::<8>(alloc, rounds),
        64 => write_blocks::<64>(alloc, rounds),
        _ => write_blocks::<256>(alloc, rounds),
    }
}

pub fn reads(alloc: Global, rounds: u64, size: u64) -> u64 {
    match size {
        8 => read_blocks::<8>(alloc, rounds),
        64 => read_blocks::<64>(alloc, rounds),
        _ => read_blocks::<256>(alloc, rounds),
    }
}

fn write_blocks<const SIZE: usize>(alloc: Global, rounds: u64) -> u64
    requires { (8 ≤ SIZE) × (SIZE ≤ 256) }
{
    match Cell::<SIZE>::new(alloc, [0; SIZE]) {
        Ok((cell, mut writer, mut reader)) => {
            write_each(&cell, &mut writer, rounds);
            let version = cell.version(&mut reader);
            let _ = cell.close(writer);
            version
        }
        Err(_) => 0,
    }
}

fn write_each<const SIZE: usize>(
    cell: &Cell<SIZE>,
    writer: &mut WriterSeat<[u8; SIZE]>,
    rounds: u64,
)
    requires size { 8 ≤ SIZE }
    requires writer { writer.old.cell ≡ cell.now }
    ensures writer { writer.new.cell ≡ writer.old.cell }
{
    let mut bytes = [7; SIZE];
    for i in 0..rounds {
        bytes[0] = (i & 0xff) as u8;
        let _ = cell.try_write(writer, bytes);
    }
}

fn read_blocks<const SIZE: usize>(alloc: Global, rounds: u64) -> u64
    requires { (8 ≤ SIZE) × (SIZE ≤ 256) }
{
    match Cell::<SIZE>::new(alloc, [0; SIZE]) {
        Ok((cell, writer, mut reader)) => {
            let sum = read_each(&cell, &mut reader, rounds);
            let _ = cell.close(writer);
            sum
        }
        Err(_) => 0,
    }
}

fn read_each<const SIZE: usize>(
    cell: &Cell<SIZE>,
    reader: &mut ReaderSeat<[u8; SIZE]>,
    rounds: u64,
) -> u64
    requires size { 8 ≤ SIZE }
    requires reader { reader.old.cell ≡ cell.now }
{
    let mut sum: u64 = 0;
    for i in 0..rounds {
        if let Ok(bytes) = cell.try_read(reader) {
            sum = sum.wrapping_add(u64::from(bytes[(i & 7) as usize]) + 1);
        }
    }
    sum
}

//! Rows of commands of vectors, run by each method that does what a command says, on a vector of each kind.
ghost use Rattle.ix_tables.specs.Cloning.{AreEqualClones};

use crate::rows::Way::{Clones, Closures, Commands, Unchecked};
use ix_commands::VectorCommand::{Extend, Push, Resize};
use ix_commands::{Reply, ReplyError, Runs, VectorCommand};
use ix_vector::{PolymorphicVec, Vector, VectorModificationError};
use std::alloc::{AllocError, Allocator};
use std::cell::Cell;
use std::fmt::Debug;
use test_support::Findings;

/// The methods that do what a command says.
#[derive(Clone, Copy)]
pub enum Way {
    /// Those that run commands.
    Commands,
    /// `extend_from_slice` and `resize`.
    Clones,
    /// `extend_from_iter` and `resize_with`.
    Closures,
    /// `push_unchecked` and `extend_from_slice_unchecked`, where there is room.
    Unchecked,
}

const WAYS: &[Way] = &[Commands, Clones, Closures, Unchecked];

/// A command, the reply to it, and the elements after it.
pub type Row<'a, T> = (VectorCommand<'a, T>, Reply<usize, T>, &'a [T]);

/// The error of a full vector.
pub const FULL: ReplyError = ReplyError::InsertWouldExceedCapacity;

fn reply_of<T: Copy>(outcome: Result<(), VectorModificationError>) -> Reply<usize, T> {
    match outcome {
        Ok(()) => Reply::Done,
        Err(VectorModificationError::OutOfBounds) => Reply::Error(ReplyError::OutOfBounds),
        Err(_) => Reply::Error(FULL),
    }
}

/// Returns `Reply::None`, which no row expects, unless the closure is called once for each element that is appended.
fn resize_with<T: Copy, V: Vector<T>>(vector: &mut V, n: usize, item: T) -> Reply<usize, T> {
    let (len, calls) = (vector.len(), Cell::new(0usize));
    let resized = vector.resize_with(n, || {
        calls.set(calls.get().wrapping_add(1));
        item
    });
    if calls.get() != vector.len().saturating_sub(len) {
        return Reply::None;
    }
    reply_of(resized)
}

/// Returns a copy, whose type hides its parts from the borrow checker.
fn copy_of<C: Copy>(command: &C) -> C {
    *command
}

fn run<T: Copy, V: Vector<T>>(
    vector: &mut V,
    way: Way,
    command: &VectorCommand<T>,
) -> Reply<usize, T>
    requires { AreEqualClones T.is_clone }
{
    let room = vector.capacity() - vector.len();
    match (way, command) {
        (Clones, Extend(items)) => reply_of(vector.extend_from_slice(items)),
        (Clones, Resize(n, item)) => reply_of(vector.resize(*n, *item)),
        (Closures, Extend(items)) => reply_of(vector.extend_from_iter(items.iter().copied())),
        (Closures, Resize(n, item)) => resize_with(vector, *n, *item),
        (Unchecked, Push(item)) if room > 0 => {
            vector.push_unchecked(*item);
            Reply::Done
        }
        (Unchecked, Extend(items)) if items.len() <= room => {
            match vector.extend_from_slice_unchecked(items) {
                Ok(()) => Reply::Done,
                Err(AllocError) => Reply::None,
            }
        }
        _ => vector.run_command(copy_of(command)),
    }
}

fn check_rows<T: Copy + PartialEq + Debug, V: Vector<T>>(
    findings: &Findings,
    vector: &mut V,
    way: Way,
    rows: &[Row<T>],
    place: &str,
)
    requires { AreEqualClones T.is_clone }
{
    let capacity = vector.capacity();
    for (number, (command, reply, left)) in rows.iter().enumerate() {
        let found = run(vector, way, command);
        findings.expect_same_at(&found, reply, number, place);
        findings.expect_same_at(vector.as_slice(), *left, number, place);
        let len = left.len();
        let is_sized = vector.len() == len && vector.capacity() == capacity;
        findings.expect_at(is_sized && vector.is_empty() == (len == 0), number, place);
        findings.expect_at(vector.is_full() == (len == capacity), number, place);
    }
}

/// Runs the rows of each table on the vector, which was made, once it is cleared.
pub fn check_made<T: Copy + PartialEq + Debug, V: Vector<T> + Drop, E: Drop>(
    findings: &Findings,
    made: Result<V, E>,
    rows: &[Row<T>],
    place: &str,
)
    requires { AreEqualClones T.is_clone }
{
    let Ok(mut vector) = made else {
        return findings.miss(place);
    };
    for way in WAYS {
        vector.clear();
        check_rows(findings, &mut vector, *way, rows, place);
    }
}

/// Runs the rows on `fixed`, which is empty, and on a vector that is allocated from `alloc`.
pub fn check_kinds<T: Copy + PartialEq + Debug, V: Vector<T> + Drop, A: Allocator + Copy>(
    findings: &Findings,
    alloc: A,
    fixed: V,
    rows: &[Row<T>],
    place: &str,
)
    requires { AreEqualClones T.is_clone }
{
    let capacity = fixed.capacity();
    check_made(findings, Ok::<_, AllocError>(fixed), rows, place);
    let polymorphic = PolymorphicVec::<T, A>::new(alloc, capacity);
    check_made(findings, polymorphic, rows, place);
}

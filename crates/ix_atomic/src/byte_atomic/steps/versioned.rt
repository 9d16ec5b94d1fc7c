//! Versioned steps: one writer raises a version before and after each write, and readers load it.
ghost use Rattle.std.specs.Prelude.{◌≡◌, ℕ, ◌*◌, ◌+◌, ◌↔◌, List, ◌∷◌, length, IsTrue, true, Some, None, slice_get};
ghost use Rattle.ix_atomic.specs.VersionedSteps.{AreWrites, IsLegalVersioned, IsVersionedRead, byte_act};
ghost use Rattle.ix_atomic.specs.inner.StepTests.{are_in_turn, versions_agree};

use crate::byte_atomic::steps::byte_step::{ByteStep, acts_are_legal};
use crate::byte_atomic::steps::plain::Act;

/// A step of the one writer, or of a reader.
#[derive(Clone, Copy, Debug, PartialEq, Eq)]
pub enum VersionedStep {
    /// The writer begins a write: the version becomes odd.
    Begin,
    /// The writer stores the byte at the place.
    Store { place: usize, byte: u8 },
    /// The writer ends the write: the version becomes even.
    End,
    /// The reader loads the version.
    LoadVersion { reader: u64, version: u64 },
    /// The reader loads the byte from the place.
    LoadByte { reader: u64, place: usize, byte: u8 },
}

impl ByteStep for VersionedStep {
    ghost act_of = { byte_act };

    fn act(self) -> Option<Act> {
        match self {
            VersionedStep::Store { place, byte } => Some(Act::Store { place, byte }),
            VersionedStep::LoadByte { place, byte, .. } => Some(Act::Load { place, byte }),
            _ => None,
        }
    }
}

/// Returns `true` if `steps` are legal, in this order, on a value whose first bytes, at version 0, are `first`.
///
/// They are legal if
///
/// - the writer's steps are writes, one after another: a [`VersionedStep::Begin`], a [`VersionedStep::Store`] at each
///   place from 0 to the last one of `first`, a [`VersionedStep::End`]. The last write may be cut short anywhere;
/// - each loaded version is that of its moment: each begin and each end raises it by one, so it is twice the number of
///   ends, and one more during a write;
/// - each byte is loaded from a place less than the length of `first`. It is the byte that was stored there last, or that of
///   `first`;
/// - no write begins at a version for which [`next_versions`](super::next_versions) returns an error.
///
/// O(n * m) for n bytes and m steps.
#[must_use]
pub fn replay_versioned(first: &[u8], steps: &[VersionedStep]) -> bool
    ensures { IsTrue result ↔ IsLegalVersioned first.now steps.now }
{
    writes_are_in_turn(first.len(), steps)
        && versions_are_right(steps)
        && acts_are_legal(first, steps)
}

/// Returns whether the writer's steps are writes of `len` bytes. The last write may be cut short.
fn writes_are_in_turn(len: usize, steps: &[VersionedStep]) -> bool
    ensures { result ≡ are_in_turn len None steps.now }
{
    // The number of bytes that the write in progress has stored.
    let mut stored: Option<usize> = None;
    for step in steps {
        match (*step, stored) {
            (VersionedStep::Begin, None) => stored = Some(0),
            (VersionedStep::Store { place, .. }, Some(next)) if next == place && place < len => {
                stored = Some(place + 1);
            }
            (VersionedStep::End, Some(next)) if next == len => stored = None,
            (VersionedStep::LoadVersion { .. } | VersionedStep::LoadByte { .. }, _) => {}
            _ => return false,
        }
    }
    true
}

/// Returns whether each loaded version is that of its moment. No write begins at the last even version: no slice has so many
/// steps.
fn versions_are_right(steps: &[VersionedStep]) -> bool
    ensures { result ≡ versions_agree 0 steps.now }
{
    let mut version = 0;
    for step in steps {
        match *step {
            VersionedStep::Begin | VersionedStep::End => version += 1,
            VersionedStep::LoadVersion {
                version: loaded,
                ..
            } if loaded != version => return false,
            _ => {}
        }
    }
    true
}

/// States which bytes a reader has loaded between two loads of the same even version. This function does nothing: its contract is
/// the law.
///
/// The law is about steps that [`replay_versioned`] accepts. Suppose that a reader loads the even version 2 * k, then the byte of
/// each place in rising order, then the version 2 * k again. Then the bytes are the value of the write whose end made that version,
/// or the first value at version 0. That is element k of a list: the first value, then the written ones in their order.
pub fn versioned_read_law()
    ensures { (first : List ℕ) (steps : List VersionedStep) (values : List (List ℕ)) (reader k : ℕ)
        (bytes : List ℕ)
        → IsLegalVersioned first steps → AreWrites (length first) steps values
        → IsVersionedRead (length first) steps reader (2 * k) bytes (2 * k)
        → slice_get (first ∷ values) k ≡ Some bytes }
{}

//! Plain steps: operations that store or load one byte after another.
ghost use Rattle.std.specs.Prelude.{◌↔◌, IsTrue, ℕ, ◌≡◌, List, Some, slice_get};
ghost use Rattle.ix_atomic.specs.declared.byte_atomic.steps.plain.Act.TheVariants.{Store, Load};
ghost use Rattle.ix_atomic.specs.PlainSteps.{IsLegal};
ghost use Rattle.ix_atomic.specs.Operations.{AreReadsAndWrites, IsFinishedRead, OverlapsNoWrite, IsLastWriteBefore, HasNoWriteBefore, Takes};

use crate::byte_atomic::steps::byte_step::{ByteStep, acts_are_legal};

/// A store or a load of a byte.
#[derive(Clone, Copy, Debug, PartialEq, Eq)]
pub enum Act {
    /// The byte is stored at the place.
    Store { place: usize, byte: u8 },
    /// The byte is loaded from the place.
    Load { place: usize, byte: u8 },
}

/// A step of an operation.
///
/// Steps with the same number are one operation. A write is an operation that stores each place once and loads nothing. A read is
/// an operation that loads each place once and stores nothing. Either may be unfinished.
#[derive(Clone, Copy, Debug, PartialEq, Eq)]
pub struct Step {
    /// The number of the operation.
    pub op: u64,
    /// The store or load of the step.
    pub act: Act,
}

impl ByteStep for Step {
    ghost act_of = { λ step. Some step.act };

    fn act(self) -> Option<Act> {
        Some(self.act)
    }
}

/// Returns `true` if `steps` are legal, in this order, on a value whose first bytes are `first`.
///
/// They are legal if each place is less than the length of `first`, and each load has the byte that was stored at its place last.
/// If none was stored there, the load has the byte of `first`. O(n * m) for n bytes and m steps.
#[must_use]
pub fn replay(first: &[u8], steps: &[Step]) -> bool
    ensures { IsTrue result ↔ IsLegal first.now steps.now }
{
    acts_are_legal(first, steps)
}

/// States which bytes a read loads if it overlaps no write. This function does nothing: its contract is the law.
///
/// The law is about steps that [`replay`] accepts, and whose operations are all reads or writes, finished or not. A finished read
/// that overlaps no write loads the bytes of the last write before it, if that write overlaps no other write. If no write is before
/// the read, the read loads the first bytes.
///
/// An operation lasts from its first step to its last one. But a write that still misses a place lasts to the end of the list. Two
/// operations overlap if both last at some step.
pub fn plain_read_law()
    ensures last_write { (first : List ℕ) (steps : List Step) (read write place byte : ℕ)
        → IsLegal first steps → AreReadsAndWrites first steps
        → IsFinishedRead first steps read → OverlapsNoWrite first steps read
        → IsLastWriteBefore first steps write read → OverlapsNoWrite first steps write
        → Takes steps read (Load place byte) → Takes steps write (Store place byte) }
    ensures no_write { (first : List ℕ) (steps : List Step) (read place byte : ℕ)
        → IsLegal first steps → AreReadsAndWrites first steps
        → IsFinishedRead first steps read → OverlapsNoWrite first steps read
        → HasNoWriteBefore first steps read
        → Takes steps read (Load place byte) → slice_get first place ≡ Some byte }
{}

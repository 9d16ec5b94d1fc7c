//! The rule of the table of words, and the kinds of step on it.
use crate::byte_atomic::AtomicCopy;
use atomic_table::{Join, Play, Split, TableRule};
use std::collections::LinkedList;
use std::marker::PhantomData;

/// The progress of a seat in a read or a write.
pub(crate) enum Stage {
    Idle,
    /// The version that was loaded last, and the bytes that were loaded since.
    Reading(u64, LinkedList<u64>),
    /// The bytes that were stored since the write began.
    Writing(LinkedList<u64>),
}

/// The knowledge of the holder of a seat. Only contracts speak of it: no value of it is made.
pub(crate) struct SeatView<T> {
    /// A beginning of the history.
    known: LinkedList<T>,
    /// The knowledge of the seat that was merged into this one last.
    joined: LinkedList<T>,
    /// The versions that were loaded, in order.
    seen: LinkedList<u64>,
    /// The places in the history of the values that this seat wrote, rising.
    places: LinkedList<usize>,
    /// The seat's share of the right to write: how often each part of it was halved.
    share: LinkedList<usize>,
    stage: Stage,
    /// The words that were loaded or stored, in order.
    touched: LinkedList<usize>,
}

/// The rule of a cell of `T`, which each step keeps.
pub(crate) struct CellRule<T> {
    of: PhantomData<T>,
}

impl<T: AtomicCopy> TableRule<(), SeatView<T>, T> for CellRule<T> {
    ghost use Rattle.ix_atomic.specs.inner.SequencedRule.{Encodes, SequencedRule};
    ghost use Rattle.ix_atomic.specs.inner.SequencedSteps.{view_new};

    ghost holds = { λ _. SequencedRule (Encodes T.is_value T.encoding) };

    ghost first = { λ value. view_new value };
}

/// The compare-and-exchange of an even version for the next odd one.
pub(crate) struct Claim;

impl<T: AtomicCopy> Play<(), SeatView<T>> for Claim {
    ghost use Rattle.ix_atomic.specs.inner.SequencedRule.{Encodes};
    ghost use Rattle.ix_atomic.specs.inner.SequencedSteps.{ClaimStep};

    ghost then = { ClaimStep (Encodes T.is_value T.encoding) };
}

/// The store of the bytes of a word.
pub(crate) struct Store;

impl<T: AtomicCopy> Play<(), SeatView<T>> for Store {
    ghost use Rattle.ix_atomic.specs.inner.SequencedSteps.{WordStep};

    ghost then = { WordStep T.SIZE };
}

/// The store of an even version.
pub(crate) struct End;

impl<T: AtomicCopy> Play<(), SeatView<T>> for End {
    ghost use Rattle.ix_atomic.specs.inner.SequencedRule.{Encodes};
    ghost use Rattle.ix_atomic.specs.inner.SequencedSteps.{EndStep};

    ghost then = { EndStep (Encodes T.is_value T.encoding) };
}

/// A load of the version, before the bytes or after them.
pub(crate) struct LoadVersion;

impl<T: AtomicCopy> Play<(), SeatView<T>> for LoadVersion {
    ghost use Rattle.ix_atomic.specs.inner.SequencedRule.{Encodes};
    ghost use Rattle.ix_atomic.specs.inner.SequencedSteps.{LoadVersionStep};

    ghost then = { LoadVersionStep (Encodes T.is_value T.encoding) };
}

/// The load of the bytes of a word.
pub(crate) struct LoadWord;

impl<T: AtomicCopy> Play<(), SeatView<T>> for LoadWord {
    ghost use Rattle.ix_atomic.specs.inner.SequencedSteps.{WordStep};

    ghost then = { WordStep T.SIZE };
}

/// A further reader's seat, which knows what this one knows. It is made by a load of the version.
pub(crate) struct NewReader;

impl<T> Split<SeatView<T>> for NewReader {
    ghost use Rattle.std.specs.Prelude.{[]};
    ghost use Rattle.ix_atomic.specs.inner.SequencedSteps.{view_further, view_split};

    ghost left = { λ view. view_split view.share view };

    ghost right = { view_further [] };
}

/// A further writer's seat, which knows what this one knows, and takes half of its share. It is made by a load of the version.
pub(crate) struct NewWriter;

impl<T> Split<SeatView<T>> for NewWriter {
    ghost use Rattle.ix_atomic.specs.Shares.{halved};
    ghost use Rattle.ix_atomic.specs.inner.SequencedSteps.{view_further, view_split};

    ghost left = { λ view. view_split (halved view.share) view };

    ghost right = { λ view. view_further (halved view.share) view };
}

/// A seat that takes in another one, which is spent, by a load of the version.
pub(crate) struct Merge;

impl<T> Join<SeatView<T>> for Merge {
    ghost use Rattle.ix_atomic.specs.inner.SequencedSteps.{view_merged, view_spent};

    ghost both = { view_merged };

    ghost spent = { view_spent };
}

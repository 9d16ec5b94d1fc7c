//! The seats of a cell: who may write to it, and who may read from it.
use crate::sequenced::rule::SeatView;
use atomic_table::Seat;
use std::fmt;
use std::marker::Model;

/// A handle for one reader, which lets its holder read from one cell. It borrows nothing, and can be dropped.
///
/// Contracts see the cell, the beginning of the history that the holder knows, and the versions and the words that it has
/// loaded.
#[derive(Drop)]
pub struct ReaderSeat<T> {
    pub(crate) seat: Seat<(), SeatView<T>>,
}

impl<T> Model for ReaderSeat<T> {
    ghost use Rattle.std.specs.Prelude.{◌≡◌, []};
    ghost use Rattle.ix_atomic.specs.History.{Reader};
    ghost use Rattle.ix_atomic.specs.inner.SequencedRule.{parity};
    ghost use Rattle.ix_atomic.specs.inner.SequencedSteps.{reader_of};

    ghost Value = { Reader T };

    ghost view = { λ reader. reader_of reader.seat.table_id reader.seat.me.0 };

    ghost invariant = { λ reader. (reader.seat.me.1 ≡ []) × (parity reader.seat.me.0.stage ≡ 0)
        × (reader.seat.me.0.places ≡ []) × (reader.seat.me.0.share ≡ []) };
}

/// A handle for one writer, which lets its holder write to one cell, and read from it.
///
/// A cell may have any number of them, made by [`SequencedByteAtomic::writer`](crate::SequencedByteAtomic::writer). It can't be
/// dropped, so a thread's closure borrows one and does not own it. It is consumed by
/// [`SequencedByteAtomic::merge`](crate::SequencedByteAtomic::merge) or
/// [`SequencedByteAtomic::close`](crate::SequencedByteAtomic::close).
///
/// Contracts see these parts of a seat:
///
/// - the cell, and the beginning of the history that the holder knows;
/// - the versions that it has loaded, and the words that it has loaded or stored;
/// - the places in the history of the values that it has written;
/// - its share of the right to write.
///
/// The seat that `new` returns has the whole right. Each further one takes half of its maker's share.
pub struct WriterSeat<T> {
    pub(crate) seat: Seat<(), SeatView<T>>,
}

impl<T> Model for WriterSeat<T> {
    ghost use Rattle.std.specs.Prelude.{◌≡◌, ◌<◌, [], length};
    ghost use Rattle.ix_atomic.specs.Writers.{Writer};
    ghost use Rattle.ix_atomic.specs.inner.SequencedRule.{parity};
    ghost use Rattle.ix_atomic.specs.inner.SequencedSteps.{writer_of};

    ghost Value = { Writer T };

    ghost view = { λ writer. writer_of writer.seat.table_id writer.seat.me.0 };

    ghost invariant = { λ writer. (writer.seat.me.1 ≡ []) × (parity writer.seat.me.0.stage ≡ 0)
        × (0 < length writer.seat.me.0.share) };
}

/// Prints the type's name.
impl<T> fmt::Debug for ReaderSeat<T> {
    fn fmt<W: fmt::Write>(&self, f: &mut fmt::Formatter<W>) -> fmt::Result {
        f.debug_struct("ReaderSeat").finish_non_exhaustive()
    }
}

/// Prints the type's name.
impl<T> fmt::Debug for WriterSeat<T> {
    fn fmt<W: fmt::Write>(&self, f: &mut fmt::Formatter<W>) -> fmt::Result {
        f.debug_struct("WriterSeat").finish_non_exhaustive()
    }
}

//! Positions of a log that two threads publish. Neither thread waits for the other.
ghost use Rattle.std.specs.Prelude.{◌≡◌, ◌⊎◌, ◌++◌, ◌∷◌, ℕ, [], List, Some, IfOk, IfErr};
ghost use Rattle.std.specs.List.{Contains};
ghost use Rattle.ix_atomic.specs.History.{history_value};
ghost use Rattle.ix_atomic.specs.Shares.{IsWhole};
ghost use Rattle.ix_atomic.specs.Writers.{AreOwn, AreApart, IsRising, Refuses, places_merge};
ghost use Rattle.ix_atomic.specs.Written.{HasWritten, StandAt};

use ix_atomic::{SequencedByteAtomic, TryWriteError, WriterSeat};

/// The last position. `Position::new(alloc, 0)?` is a cell, a writer's seat and a reader's. `position.writer(alloc, &mut seat)?` is
/// a seat for another thread.
pub type Position = SequencedByteAtomic<u64, 8>;

/// Publishes a position, unless another thread is publishing one right now.
///
/// # Errors
///
/// As [`SequencedByteAtomic::try_write`].
pub fn publish(
    position: &Position,
    seat: &mut WriterSeat<u64>,
    value: u64,
) -> Result<(), TryWriteError>
    requires { seat.old.cell ≡ position.now }
    ensures cell { seat.new.cell ≡ seat.old.cell }
    ensures own { AreOwn seat.new }
    ensures published { IfOk result (λ _. (values : List ℕ) → HasWritten seat.old values
        → HasWritten seat.new (values ++ value ∷ [])) }
    ensures refused { IfErr result (λ error. Refuses seat.old seat.new error) }
    ensures not_published { IfErr result
        (λ _. (values : List ℕ) → HasWritten seat.old values → HasWritten seat.new values) }
{
    position.try_write(seat, value)
}

/// Takes back the seat of another thread. All positions that were published with either seat are in one history, each once and in
/// its order. If no other thread has a seat, the history has nothing else but the first position. Then a statement that holds of
/// the first and of each published position holds of all positions that any reader read.
pub fn take_back(position: &Position, seat: &mut WriterSeat<u64>, other: WriterSeat<u64>)
    requires seat { (seat.old.cell ≡ position.now) × AreOwn seat.old }
    requires other { (other.cell ≡ position.now) × AreOwn other }
    ensures cell { seat.new.cell ≡ seat.old.cell }
    ensures own { AreOwn seat.new }
    ensures seat { (values : List ℕ) → HasWritten seat.old values
        → StandAt seat.new.known seat.old.places values }
    ensures other { (values : List ℕ) → HasWritten other values
        → StandAt seat.new.known other.places values }
    ensures places { seat.new.places ≡ places_merge seat.old.places other.places }
    ensures once { AreApart seat.old.places other.places }
    ensures order { IsRising seat.old.places × IsRising other.places }
    ensures all { IsWhole (seat.old.share ++ other.share) → (values others : List ℕ)
        → HasWritten seat.old values → HasWritten other others
        → (version value : ℕ) → history_value seat.new.known version ≡ Some value
        → (history_value seat.new.known 0 ≡ Some value) ⊎ (Contains values value ⊎ Contains others value) }
{
    position.merge(seat, other);
}

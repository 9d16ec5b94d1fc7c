//! A limit that only grows, so that no reader ever reads a lower one after a higher one.
ghost use Rattle.std.specs.Prelude.{◌≡◌, ◌<◌, ◌≤◌, ◌+◌, ◌⊎◌, ◌++◌, ◌∷◌, ℕ, [], List, Some, length, cond, true, false};
ghost use Rattle.std.specs.List.Sorted.{IsNonDecreasing};
ghost use Rattle.ix_atomic.specs.History.{Begins, history_value};
ghost use Rattle.ix_atomic.specs.Writers.{AreOwn, Refuses};
ghost use Rattle.ix_atomic.specs.declared.sequenced.errors.TryWriteError.{TryWriteError};
ghost use Rattle.ix_atomic.specs.Written.{HasSet};
ghost use Rattle.examples.specs.Limits.{GrewTo};

use crate::configuration::Limit;
use ix_atomic::{ReaderSeat, WriterSeat};
use std::alloc::Global;

/// Raises the limit from `last` to `value`, unless that is less, another thread sets it right now, or no version is left. Returns
/// whether it did. If it did, `last` is `value`.
pub fn raise_limit(limit: &Limit, writer: &mut WriterSeat<u64>, last: &mut u64, value: u64) -> bool
    requires { writer.old.cell ≡ limit.now }
    ensures cell { writer.new.cell ≡ writer.old.cell }
    ensures own { AreOwn writer.old → AreOwn writer.new }
    ensures last { last.new ≡ cond result value last.old }
    ensures count { length writer.new.places ≡ length writer.old.places + cond result 1 0 }
    ensures raised { result ≡ true → (limits : List ℕ) → HasSet writer.old limits
        → GrewTo last.old limits
        → HasSet writer.new (limits ++ value ∷ []) × GrewTo last.new (limits ++ value ∷ []) }
    ensures refused { result ≡ false → (value < last.old)
        ⊎ ((error : TryWriteError) × Refuses writer.old writer.new error) }
    ensures not_raised { result ≡ false → (last.new ≡ last.old)
        × ((limits : List ℕ) → HasSet writer.old limits → HasSet writer.new limits) }
{
    if value < *last {
        return false;
    }
    match limit.try_write(writer, value) {
        Ok(()) => {
            *last = value;
            true
        }
        Err(_) => false,
    }
}

/// Takes back the seat of a reader. Returns whether the limit was set `raises` times in all. If each time was with this writer's
/// seat, the reader never read a lower limit after a higher one.
pub fn take_back(
    limit: &Limit,
    alloc: Global,
    writer: &mut WriterSeat<u64>,
    reader: ReaderSeat<u64>,
    raises: u64,
) -> bool
    requires writer { (writer.old.cell ≡ limit.now) × AreOwn writer.old }
    requires raises { length writer.old.places ≡ raises }
    requires reader { reader.cell ≡ limit.now }
    ensures cell { writer.new.cell ≡ writer.old.cell }
    ensures known { Begins writer.old.known writer.new.known
        × Begins reader.known writer.new.known }
    ensures all { result ≡ true → (limits : List ℕ) → HasSet writer.old limits
        → writer.new.known ≡ limits }
    ensures never_lower { result ≡ true → (limits : List ℕ) → HasSet writer.old limits
        → IsNonDecreasing limits
        → (earlier later first second : ℕ) → earlier ≤ later
        → history_value reader.known earlier ≡ Some first → history_value reader.known later ≡ Some second
        → first ≤ second }
{
    limit.merge_reader(writer, reader);
    let Ok(mut newest) = limit.reader(alloc, writer) else {
        return false;
    };
    let version = limit.version(&mut newest);
    version % 2 == 0 && version / 2 == raises
}

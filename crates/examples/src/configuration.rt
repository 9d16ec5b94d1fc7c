//! A limit that threads set and read. No thread waits for another.
ghost use Rattle.std.specs.Prelude.{◌≡◌, ◌<◌, ◌⊎◌, ℕ, Some, IfOk, IfErr};
ghost use Rattle.ix_atomic.specs.History.{IsEven, IsOdd, LoadsTwice, history_value};
ghost use Rattle.ix_atomic.specs.Writers.{Writes, Refuses};

use ix_atomic::{ReaderSeat, SequencedByteAtomic, TryWriteError, WriterSeat};

/// The limit. `Limit::new(alloc, 100)?` is a limit of 100, a writer's seat, and a reader's.
pub type Limit = SequencedByteAtomic<u64, 8>;

/// Sets the limit, unless another thread sets it right now, or no version is left. It is then the last of all limits that were set.
pub fn set_limit(
    limit: &Limit,
    writer: &mut WriterSeat<u64>,
    value: u64,
) -> Result<(), TryWriteError>
    requires { writer.old.cell ≡ limit.now }
    ensures cell { writer.new.cell ≡ writer.old.cell }
    ensures set { IfOk result (λ _. Writes writer.old writer.new value) }
    ensures refused { IfErr result (λ error. Refuses writer.old writer.new error) }
{
    limit.try_write(writer, value)
}

/// Returns the limit, or `cached` if a limit is being set right now: the two versions differ, or they are odd. The limit is that of
/// the version that is loaded before and after it. It is not from before the limits that this reader knows of.
pub fn limit_or(limit: &Limit, reader: &mut ReaderSeat<u64>, cached: u64) -> u64
    requires { reader.old.cell ≡ limit.now }
    ensures cell { reader.new.cell ≡ reader.old.cell }
    ensures value { (first last : ℕ) × LoadsTwice reader.old reader.new first last
        × (((first ≡ last) × IsEven first × (history_value reader.new.known first ≡ Some result))
        ⊎ ((IsOdd first ⊎ (first < last)) × (result ≡ cached))) }
{
    match limit.try_read(reader) {
        Ok(value) => value,
        Err(_interfered) => cached,
    }
}

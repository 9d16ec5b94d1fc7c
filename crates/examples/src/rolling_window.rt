//! A rolling window: the last samples of a stream.
ghost use Rattle.std.specs.Prelude.{◌≡◌, ◌≤◌, ◌-◌, length, drop};
ghost use Rattle.ix_tables.specs.declared.cells.table.TheConstants.{MAX_FIXED_CAPACITY};

use ix_queue::FixedSizeQueue;

/// Returns the last `SIZE` samples, the oldest first, or all samples if there are fewer.
pub fn last_samples<const SIZE: usize>(samples: &[u64]) -> FixedSizeQueue<u64, SIZE>
    requires { SIZE ≤ MAX_FIXED_CAPACITY }
    ensures { result.items ≡ drop (length samples.now - SIZE) samples.now }
{
    let mut window = FixedSizeQueue::<u64, SIZE>::new();
    for sample in samples {
        window.push_with_overflow(*sample);
    }
    window
}

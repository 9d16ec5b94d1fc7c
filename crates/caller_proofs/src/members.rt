//! The elements of a queue.
ghost use Rattle.std.specs.Prelude.{◌↔◌, IsTrue};
ghost use Rattle.std.specs.List.{Contains};

use ix_queue::FixedSizeQueue;

/// Returns `true` if the window has the number.
pub fn seen(window: &FixedSizeQueue<u64, 4>, number: u64) -> bool
    ensures { IsTrue result ↔ Contains window.now.items number }
{
    window.contains(&number)
}

//! A queue of each kind.
ghost use Rattle.std.specs.Prelude.{◌≡◌, ◌↔◌, ◌<◌, ◌∷◌, [], length, Some, IsTrue, IfOk, IfErr};
ghost use Rattle.ix_cells.specs.Bounded.{bounded_new, bounded_push};

use ix_cells::{InitError, RelocatableContainer};
use ix_maps::{FixedSizeQueue, Queue, RelocatableQueue, UninitQueue};
use std::alloc::{AllocError, Allocator};

/// Returns the element that an overflow removed, and the queue. A fixed queue is stored inline.
pub fn fixed() -> (Option<u64>, FixedSizeQueue<u64, 2>)
    ensures overflow { result.0 ≡ Some 1 }
    ensures queue { result.1.items ≡ 2 ∷ 3 ∷ [] }
{
    let mut queue = FixedSizeQueue::<u64, 2>::new();
    let _ = queue.push(1); // true
    let _ = queue.push(2); // true
    let _ = queue.push(3); // false: the queue is full and stays as it is
    let oldest = queue.push_with_overflow(3); // Some(1)
    (oldest, queue)
}

/// Returns a queue of the elements of `items`. An allocated queue allocates when it is made, and never after.
pub fn allocated<A: Allocator>(alloc: A, items: &[u64]) -> Result<Queue<u64, A>, AllocError>
    ensures queue { IfOk result (λ queue. queue.items ≡ items.now) }
    ensures capacity { IfOk result (λ queue. queue.capacity ≡ length items.now) }
{
    let mut queue = Queue::new(alloc, items.len())?;
    for item in items {
        let _ = queue.push(*item);
    }
    Ok(queue)
}

/// Appends `item` if there is room, and returns whether there was. A queue that is not full has room for one more element.
pub fn append_if_room<A: Allocator>(queue: &mut Queue<u64, A>, item: u64) -> bool
    ensures value { IsTrue result ↔ length queue.old.items < queue.old.capacity }
    ensures queue { queue.new ≡ bounded_push queue.old item }
{
    if queue.is_full() {
        return false;
    }
    let pushed = queue.push(item);
    prove!(pushed);
    true
}

/// Returns an empty queue in memory of `first`, or of `second` if the allocation from `first` fails. A relocatable queue is
/// initialised in two phases: it has a capacity first, and memory later.
pub fn relocatable<A: Allocator>(
    first: A,
    second: A,
    capacity: usize,
) -> Result<RelocatableQueue<u64, A>, InitError<UninitQueue<u64>>>
    ensures queue { IfOk result (λ queue. queue ≡ bounded_new capacity) }
    ensures refused { IfErr result (λ error. error ≡ capacity) }
{
    match UninitQueue::new_uninit(capacity).init(first) {
        Ok(queue) => Ok(queue),
        Err(error) => error.into_uninit().init(second),
    }
}

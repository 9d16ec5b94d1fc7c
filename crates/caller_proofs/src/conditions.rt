//! Calls with a condition: copies, in memory of an allocator, of containers whose elements clone to equal ones; and keys in range.
ghost use Rattle.std.specs.Prelude.{◌≡◌, ◌<◌, length, Some, IfOk, slice_get};
ghost use Rattle.ix_slottable.specs.SlotTableState.{IsKey};

use ix_flatmap::FlatMap;
use ix_queue::{FixedSizeQueue, Queue};
use ix_slotmap::SlotMap;
use ix_slottable::{FixedSizeSlotTable, SlotTableKey};
use ix_tables::Touches;
use std::alloc::{AllocError, Allocator};

/// Copies a queue into memory of `alloc`.
pub fn queue_copy<A: Allocator + Copy>(
    queue: &Queue<u64, A>,
    alloc: A,
) -> Result<Queue<u64, A>, AllocError>
    ensures { IfOk result (λ copy. copy ≡ queue.now) }
{
    queue.try_clone_in(alloc)
}

/// Copies a slot map into memory of `alloc`.
pub fn slot_map_copy<A: Allocator + Copy>(
    map: &SlotMap<u64, A>,
    alloc: A,
) -> Result<SlotMap<u64, A>, AllocError>
    ensures { IfOk result (λ copy. copy ≡ map.now) }
{
    map.try_clone_in(alloc)
}

/// Copies a flat map into memory of `alloc`.
pub fn flat_map_copy<A: Allocator + Copy>(
    map: &FlatMap<u64, u64, A>,
    alloc: A,
) -> Result<FlatMap<u64, u64, A>, AllocError>
    ensures { IfOk result (λ copy. copy ≡ map.now) }
{
    map.try_clone_in(alloc)
}

/// Returns the oldest element of a queue that has one.
pub fn oldest(queue: &FixedSizeQueue<u64, 8>) -> u64
    requires { 0 < length queue.now.items }
    ensures { slice_get queue.now.items 0 ≡ Some result }
{
    queue.get_unchecked(0)
}

/// Looks at a key in range, which is counted.
pub fn look(table: &FixedSizeSlotTable<u64, 8>, key: SlotTableKey, touches: &mut Touches) -> bool
    requires { IsKey table.now key }
    ensures { touches.old < touches.new }
{
    table.contains_counted(key, touches)
}

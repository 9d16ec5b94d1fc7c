//! The amount of memory that a container allocates.
ghost use Rattle.std.specs.Prelude.{◌≡◌};
ghost use Rattle.std.specs.Mem.{type_size};
ghost use Rattle.ix_tables.specs.Memory.{saturated, items_memory, memory_plus};

use std::mem::size_of;

/// The amount of memory that a container allocates when it is made, as its `memory_size` returns it.
///
/// The bytes are those that are requested from the allocator. An allocator that rounds allocations up uses more, for each of the
/// `blocks`. For example, a `LocalHeap` of `linked_list_allocator` rounds up to a multiple of 16, and a new one of
/// `bytes + 16 * blocks` bytes has room. The bytes that an allocator uses to keep track of the allocations or to align them are not
/// counted. A number above the greatest `usize` is counted as the greatest `usize`; no allocator has so many bytes.
#[derive(Clone, Copy, PartialEq, Eq, Debug)]
pub struct MemorySize {
    /// The bytes of all allocations together.
    pub bytes: usize,
    /// The number of allocations.
    pub blocks: usize,
}

impl MemorySize {
    /// Returns the memory of `n` items in one allocation. There is no allocation if `n` is 0, and one of no bytes if the items have
    /// none. O(1).
    #[inline]
    pub fn of_items<T>(n: usize) -> MemorySize
        ensures { result ≡ items_memory (type_size T.row) n }
    {
        MemorySize {
            bytes: n.saturating_mul(item_size::<T>()),
            blocks: if n == 0 { 0 } else { 1 },
        }
    }

    /// Returns the memory of both together. O(1).
    #[inline]
    pub fn saturating_add(self, other: MemorySize) -> MemorySize
        ensures { result ≡ memory_plus self other }
    {
        MemorySize {
            bytes: self.bytes.saturating_add(other.bytes),
            blocks: self.blocks.saturating_add(other.blocks),
        }
    }
}

/// Returns the size of a `T` in bytes.
// The checker knows a size of a type parameter by itself in products alone.
#[inline]
fn item_size<T>() -> usize
    ensures { result ≡ saturated (type_size T.row) }
{
    size_of::<T>()
}

//! The kinds of queues: stored inline, in memory of an allocator, and with two-phase initialisation.
ghost use Rattle.std.specs.Prelude.{◌≡◌, ℕ, ◌≤◌, IsOk, IfOk};
ghost use Rattle.std.specs.Mem.{type_size};
ghost use Rattle.ix_tables.specs.Memory.{no_memory, table_memory};
ghost use Rattle.ix_tables.specs.Bounded.{bounded_new};

use crate::queue::MetaQueue;
use ix_tables::{
    ContainerFamily, HeapTable, InlineTable, MAX_FIXED_CAPACITY, MemorySize, Table, Uninit,
};
use std::alloc::{AllocError, Allocator, Global};
use std::marker::PhantomData;

/// A queue of at most `CAPACITY` elements that is stored inline and does not allocate.
///
/// This is `FixedSizeQueue` of iceoryx2-bb-container.
pub type FixedSizeQueue<T, const CAPACITY: usize> = MetaQueue<T, InlineTable<T, CAPACITY>>;

impl<T: Drop, const CAPACITY: usize> FixedSizeQueue<T, CAPACITY> {
    /// Creates an empty queue.
    ///
    /// O(`CAPACITY`). `CAPACITY` is at most [`MAX_FIXED_CAPACITY`].
    pub fn new() -> Self
        requires { CAPACITY ≤ MAX_FIXED_CAPACITY }
        ensures { result ≡ bounded_new CAPACITY }
    {
        MetaQueue::from_table(InlineTable::new())
    }
}

/// Creates an empty queue. O(`CAPACITY`).
impl<T: Drop, const CAPACITY: usize> Default for FixedSizeQueue<T, CAPACITY> {
    ghost is_default = { λ queue. queue ≡ bounded_new CAPACITY };

    fn default() -> Self {
        MetaQueue::from_table(InlineTable::default())
    }
}

/// A queue whose memory is allocated from `A` when it is made, and deallocated when it is dropped.
///
/// This is `Queue` of iceoryx2-bb-container.
pub type Queue<T, A = Global> = MetaQueue<T, HeapTable<T, A>>;

/// A queue with two-phase initialisation: an [`UninitQueue`] has the capacity, and its `init` allocates the memory from `A`.
///
/// This is `RelocatableQueue` of iceoryx2-bb-container.
pub type RelocatableQueue<T, A = Global> = MetaQueue<T, HeapTable<T, A>>;

impl<T: Drop, A: Allocator> Queue<T, A> {
    /// Returns the amount of memory that a queue of this capacity allocates when it is made.
    ///
    /// This is the memory of its table. A queue of capacity 0 allocates nothing. This function does not allocate. O(1).
    #[inline]
    pub fn memory_size(capacity: usize) -> MemorySize
        ensures value { result ≡ table_memory (type_size T.row) capacity }
        ensures monotone { (greater : ℕ) → capacity ≤ greater
            → result.bytes ≤ (table_memory (type_size T.row) greater).bytes }
        ensures none { capacity ≡ 0 → result ≡ no_memory }
    {
        HeapTable::<T, A>::memory_size(capacity)
    }

    /// Creates an empty queue with room for `capacity` elements.
    ///
    /// O(`capacity`), with at most two allocations. A capacity of 0 allocates nothing. Returns `AllocError` if an allocation fails,
    /// or if the elements would take more than `isize::MAX` bytes. Nothing stays allocated then.
    pub fn new(alloc: A, capacity: usize) -> Result<Self, AllocError>
        ensures value { IfOk result (λ queue. queue ≡ bounded_new capacity) }
        ensures memory { capacity ≡ 0 → IsOk result }
    {
        Ok(MetaQueue::from_table(HeapTable::new(alloc, capacity)?))
    }
}

impl<T: Drop, A: Allocator> RelocatableQueue<T, A> {
    /// Creates an uninitialised queue for `capacity` elements. Does not allocate. O(1).
    /// The allocator is the one that is passed to `init`, whatever `A` is here.
    #[inline]
    pub fn new_uninit(capacity: usize) -> UninitQueue<T>
        ensures { result ≡ capacity }
    {
        UninitQueue::new_uninit(capacity)
    }
}

/// The relocatable queues of `T`, one type for each allocator.
#[derive(Drop)]
pub struct QueueFamily<T> {
    of: PhantomData<T>,
}

impl<T: Drop, A: Allocator> ContainerFamily<A> for QueueFamily<T> {
    type Container = RelocatableQueue<T, A>;

    ghost is_empty_with = { λ capacity queue. queue ≡ bounded_new capacity };

    /// Creates an empty queue with room for `capacity` elements. O(`capacity`), with at most two allocations.
    #[inline]
    fn with_capacity(alloc: A, capacity: usize) -> Result<RelocatableQueue<T, A>, AllocError> {
        Queue::new(alloc, capacity)
    }
}

/// An uninitialised queue: a capacity without memory.
/// [`RelocatableContainer::init`](ix_tables::RelocatableContainer::init) makes it a [`RelocatableQueue`].
pub type UninitQueue<T> = Uninit<QueueFamily<T>>;

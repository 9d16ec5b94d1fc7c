//! Where a slot map has its memory.
use ix_slottable::{Heap, Inline, Storage};
use ix_tables::{Array, HeapArray, InlineArray};
use std::alloc::Allocator;

/// Where a slot map has its memory: [`Inline`] or a [`Heap`].
///
/// It names the slot table, in which each slot can have a `C`, and the array of the generations. A function that accepts a slot map
/// in any storage has one parameter for it, `M: SlotMapStorage<MaybeMoved<T>>`.
pub trait SlotMapStorage<C> {
    /// The storage of the slot table.
    type Slots: Storage<C>;

    /// The array of the words in which the generations are.
    type Words: Array<u64> + Drop;
}

impl<C: Drop, const CAPACITY: usize> SlotMapStorage<C> for Inline<CAPACITY> {
    type Slots = Inline<CAPACITY>;

    type Words = InlineArray<u64, CAPACITY>;
}

impl<C: Drop, A: Allocator> SlotMapStorage<C> for Heap<A> {
    type Slots = Heap<A>;

    type Words = HeapArray<u64, A>;
}

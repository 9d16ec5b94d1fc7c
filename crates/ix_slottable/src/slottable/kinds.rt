//! The kinds of slot tables: stored inline, in memory of an allocator, and initialised in two phases.
ghost use Rattle.std.specs.Prelude.{◌≡◌, ℕ, ◌≤◌, None, length, IfOk, IsOk};
ghost use Rattle.std.specs.Mem.{type_size};
ghost use Rattle.ix_tables.specs.Memory.{no_memory};
ghost use Rattle.ix_slottable.specs.Memory.{slot_table_memory};
ghost use Rattle.ix_slottable.specs.SlotTableState.{slot_table_new, value_at, held_count};

use crate::slottable::{Heap, Inline, Link, MetaSlotTable};
use ix_tables::{
    ContainerFamily, FilledHeapTable, FilledInlineTable, HeapTable, InlineTable,
    MAX_FIXED_CAPACITY, MemorySize, Uninit,
};
use std::alloc::{AllocError, Allocator, Global};
use std::marker::PhantomData;

/// A slot table with `CAPACITY` keys that is stored inline and does not allocate.
///
/// This is `FixedSizeSlotMap` of iceoryx2-bb-container, whose keys have no generation.
pub type FixedSizeSlotTable<T, const CAPACITY: usize> = MetaSlotTable<T, Inline<CAPACITY>>;

impl<T: Drop, const CAPACITY: usize> FixedSizeSlotTable<T, CAPACITY> {
    /// Creates an empty table.
    ///
    /// O(`CAPACITY`). `CAPACITY` is at most [`MAX_FIXED_CAPACITY`].
    pub fn new() -> Self
        requires { CAPACITY ≤ MAX_FIXED_CAPACITY }
        ensures value { result ≡ slot_table_new CAPACITY }
        ensures empty { (key : ℕ) → value_at result key ≡ None }
        ensures count { held_count result ≡ 0 }
        ensures room { length result.free ≡ CAPACITY }
    {
        MetaSlotTable::over(InlineTable::new(), FilledInlineTable::new(Link::default()))
    }
}

/// Creates an empty table. O(`CAPACITY`).
impl<T: Drop, const CAPACITY: usize> Default for FixedSizeSlotTable<T, CAPACITY> {
    ghost is_default = { λ map. map ≡ slot_table_new CAPACITY };

    fn default() -> Self {
        MetaSlotTable::over(
            InlineTable::default(),
            FilledInlineTable::new(Link::default()),
        )
    }
}

/// A slot table whose memory is allocated from `A` when it is made, and deallocated when it is dropped.
///
/// This is `SlotMap` of iceoryx2-bb-container, whose keys have no generation.
pub type SlotTable<T, A = Global> = MetaSlotTable<T, Heap<A>>;

impl<T: Drop, A: Allocator + Copy> SlotTable<T, A> {
    ghost use Rattle.ix_slottable.specs.contracts.slottable.link.Link as link;

    /// Returns the memory that a table of this capacity allocates from its allocator when it is made.
    ///
    /// This is the memory of a table of values and of a table of links. A table of capacity 0 needs no allocation. This function
    /// does not allocate. O(1).
    #[inline]
    pub fn memory_size(capacity: usize) -> MemorySize
        ensures value { result ≡ slot_table_memory (type_size T.row) (type_size link.the_row) capacity }
        ensures monotone { (greater : ℕ) → capacity ≤ greater
            → result.bytes ≤ (slot_table_memory (type_size T.row) (type_size link.the_row) greater).bytes }
        ensures none { capacity ≡ 0 → result ≡ no_memory }
    {
        let values = HeapTable::<T, A>::memory_size(capacity);
        let links = FilledHeapTable::<Link, A>::memory_size(capacity);
        values.saturating_add(links)
    }

    /// Creates an empty table with `capacity` keys.
    ///
    /// O(`capacity`), with at most three allocations. Returns `AllocError` if an allocation fails, or if the values would take more
    /// than `isize::MAX` bytes. Nothing stays allocated then. A capacity of 0 needs no memory.
    pub fn new(alloc: A, capacity: usize) -> Result<Self, AllocError>
        ensures value { IfOk result (λ map. map ≡ slot_table_new capacity) }
        ensures empty { IfOk result (λ map. (key : ℕ) → value_at map key ≡ None) }
        ensures count { IfOk result (λ map. held_count map ≡ 0) }
        ensures room { IfOk result (λ map. length map.free ≡ capacity) }
        ensures memory { capacity ≡ 0 → IsOk result }
    {
        let links = FilledHeapTable::new(alloc, capacity, Link::default())?;
        let values = HeapTable::new(alloc, capacity)?;
        Ok(MetaSlotTable::over(values, links))
    }
}

/// A slot table that is initialised in two phases: first its capacity, as an [`UninitSlotTable`], and later its memory, which
/// `init` allocates from `A`.
///
/// This is `RelocatableSlotMap` of iceoryx2-bb-container, whose keys have no generation.
pub type RelocatableSlotTable<T, A = Global> = SlotTable<T, A>;

impl<T: Drop, A: Allocator + Copy> RelocatableSlotTable<T, A> {
    /// Creates an uninitialised table with `capacity` keys. Does not allocate. O(1).
    /// The allocator is the one that is passed to `init`, whatever `A` is here.
    #[inline]
    pub fn new_uninit(capacity: usize) -> UninitSlotTable<T>
        ensures { result ≡ capacity }
    {
        UninitSlotTable::new_uninit(capacity)
    }
}

/// An uninitialised slot table: a capacity without memory.
/// [`RelocatableContainer::init`](ix_tables::RelocatableContainer::init) makes it a [`RelocatableSlotTable`].
pub type UninitSlotTable<T> = Uninit<SlotTableFamily<T>>;

/// The relocatable slot tables of `T`, one type for each allocator.
#[derive(Drop)]
pub struct SlotTableFamily<T> {
    of: PhantomData<T>,
}

impl<T: Drop, A: Allocator + Copy> ContainerFamily<A> for SlotTableFamily<T> {
    type Container = RelocatableSlotTable<T, A>;

    ghost is_empty_with = { λ capacity map. map ≡ slot_table_new capacity };

    /// Creates an empty table with `capacity` keys. O(`capacity`), with at most three allocations.
    #[inline]
    fn with_capacity(alloc: A, capacity: usize) -> Result<RelocatableSlotTable<T, A>, AllocError> {
        SlotTable::new(alloc, capacity)
    }
}

//! The kinds of slot maps: stored inline, in memory of an allocator, and initialised in two phases.
ghost use Rattle.std.specs.Prelude.{◌≡◌, ℕ, ◌≤◌, None, length, IfOk, IsOk, IfErr};
ghost use Rattle.std.specs.Borrow.{u64};
ghost use Rattle.std.specs.Mem.{type_size};
ghost use Rattle.ix_tables.specs.Memory.{no_memory};
ghost use Rattle.ix_slottable.specs.Memory.{slot_map_memory};
ghost use Rattle.ix_slotmap.specs.Generations.{SlotKey, slot_map_len, slot_map_new, slot_map_value};
ghost use Rattle.ix_slottable.specs.SlotTableState.{slot_table_new};

use crate::slotmap::{MetaSlotMap, WordTable};
use ix_slottable::slottable::{FixedSizeSlotTable, Heap, Inline, Link, SlotTable};
use ix_tables::{
    HeapArray, InitError, InlineArray, MAX_FIXED_CAPACITY, MaybeMoved, MemorySize,
    RelocatableContainer,
};
use std::alloc::{AllocError, Allocator, Global};
use std::fmt;
use std::marker::{Model, PhantomData};

/// A slot map with `CAPACITY` slots that is stored inline and does not allocate.
///
/// This is `FixedSizeSlotMap` of iceoryx2-bb-container.
pub type FixedSizeSlotMap<T, const CAPACITY: usize> = MetaSlotMap<
    T,
    MaybeMoved<T>,
    Inline<CAPACITY>,
>;

impl<T: Drop, const CAPACITY: usize> FixedSizeSlotMap<T, CAPACITY> {
    /// Creates an empty map, whose slots have generation 0.
    ///
    /// O(`CAPACITY`). `CAPACITY` is at most [`MAX_FIXED_CAPACITY`].
    pub fn new() -> Self
        requires { CAPACITY ≤ MAX_FIXED_CAPACITY }
        ensures value { result ≡ slot_map_new CAPACITY 0 }
        ensures empty { (key : SlotKey) → slot_map_value result key ≡ None }
        ensures count { slot_map_len result ≡ 0 }
        ensures room { length result.slots.free ≡ CAPACITY }
    {
        Self::starting_at(0)
    }

    /// Creates an empty map, whose slots have this generation.
    ///
    /// O(`CAPACITY`). `CAPACITY` is at most [`MAX_FIXED_CAPACITY`].
    pub fn starting_at(generation: u32) -> Self
        requires { CAPACITY ≤ MAX_FIXED_CAPACITY }
        ensures value { result ≡ slot_map_new CAPACITY generation }
        ensures empty { (key : SlotKey) → slot_map_value result key ≡ None }
        ensures count { slot_map_len result ≡ 0 }
        ensures room { length result.slots.free ≡ CAPACITY }
    {
        MetaSlotMap {
            slots: FixedSizeSlotTable::new(),
            words: WordTable::new(InlineArray::new(2 * generation as u64)),
            retired: 0,
            of: PhantomData,
        }
    }
}

/// Creates an empty map, whose slots have generation 0. O(`CAPACITY`).
impl<T: Drop, const CAPACITY: usize> Default for FixedSizeSlotMap<T, CAPACITY> {
    ghost is_default = { λ map. map ≡ slot_map_new CAPACITY 0 };

    fn default() -> Self {
        MetaSlotMap {
            slots: FixedSizeSlotTable::default(),
            words: WordTable::new(InlineArray::new(0)),
            retired: 0,
            of: PhantomData,
        }
    }
}

/// A slot map whose memory is allocated from `A` when it is made, and deallocated when it is dropped.
///
/// This is `SlotMap` of iceoryx2-bb-container.
pub type SlotMap<T, A = Global> = MetaSlotMap<T, MaybeMoved<T>, Heap<A>>;

impl<T: Drop, A: Allocator + Copy> SlotMap<T, A> {
    ghost use Rattle.ix_slottable.specs.contracts.slottable.link.Link as link;

    /// Returns the memory that a map of this capacity allocates from its allocator when it is made.
    ///
    /// This is the memory of a table of the slots' contents, of a table of links, and of an array of words. Each content takes the
    /// bytes of a `T`. A map of capacity 0 needs no allocation. This function does not allocate. O(1).
    #[inline]
    pub fn memory_size(capacity: usize) -> MemorySize
        ensures value { result ≡ slot_map_memory (type_size T.row) (type_size link.the_row) (type_size u64) capacity }
        ensures monotone { (greater : ℕ) → capacity ≤ greater
            → result.bytes ≤ (slot_map_memory (type_size T.row) (type_size link.the_row) (type_size u64) greater).bytes }
        ensures none { capacity ≡ 0 → result ≡ no_memory }
    {
        let slots = SlotTable::<MaybeMoved<T>, A>::memory_size(capacity);
        let words = HeapArray::<u64, A>::memory_size(capacity);
        slots.saturating_add(words)
    }

    /// Creates an empty map with `capacity` slots, which have generation 0.
    ///
    /// O(`capacity`), with at most four allocations. Returns `AllocError` if an allocation fails, or if the values would take more
    /// than `isize::MAX` bytes. Nothing stays allocated then. A capacity of 0 needs no memory.
    pub fn new(alloc: A, capacity: usize) -> Result<Self, AllocError>
        ensures value { IfOk result (λ map. map ≡ slot_map_new capacity 0) }
        ensures empty { IfOk result (λ map. (key : SlotKey) → slot_map_value map key ≡ None) }
        ensures count { IfOk result (λ map. slot_map_len map ≡ 0) }
        ensures room { IfOk result (λ map. length map.slots.free ≡ capacity) }
        ensures memory { capacity ≡ 0 → IsOk result }
    {
        Self::starting_at(alloc, capacity, 0)
    }

    /// Creates an empty map with `capacity` slots, which have this generation.
    ///
    /// O(`capacity`), with at most four allocations. Returns `AllocError` if an allocation fails, or if the values would take more
    /// than `isize::MAX` bytes. Nothing stays allocated then. A capacity of 0 needs no memory.
    pub fn starting_at(alloc: A, capacity: usize, generation: u32) -> Result<Self, AllocError>
        ensures value { IfOk result (λ map. map ≡ slot_map_new capacity generation) }
        ensures empty { IfOk result (λ map. (key : SlotKey) → slot_map_value map key ≡ None) }
        ensures count { IfOk result (λ map. slot_map_len map ≡ 0) }
        ensures room { IfOk result (λ map. length map.slots.free ≡ capacity) }
        ensures memory { capacity ≡ 0 → IsOk result }
    {
        let slots = SlotTable::new(alloc, capacity)?;
        let words = HeapArray::new(alloc, capacity, 2 * generation as u64)?;
        Ok(MetaSlotMap {
            slots,
            words: WordTable::new(words),
            retired: 0,
            of: PhantomData,
        })
    }
}

/// A slot map that is initialised in two phases: first its capacity, as an [`UninitSlotMap`], and later its memory, which `init`
/// allocates from `A`.
///
/// This is `RelocatableSlotMap` of iceoryx2-bb-container.
pub type RelocatableSlotMap<T, A = Global> = SlotMap<T, A>;

impl<T: Drop, A: Allocator + Copy> RelocatableSlotMap<T, A> {
    /// Creates an uninitialised map with `capacity` slots, which will have generation 0. Does not allocate. O(1).
    /// The allocator is the one that is passed to `init`, whatever `A` is here.
    #[inline]
    pub fn new_uninit(capacity: usize) -> UninitSlotMap<T>
        ensures { result ≡ record { capacity = capacity; generation = 0 } }
    {
        UninitSlotMap::new_uninit(capacity)
    }
}

/// An uninitialised slot map: a capacity and a generation, and no memory yet. Contracts see these two numbers.
///
/// Its only method is [`RelocatableContainer::init`], which makes it a [`RelocatableSlotMap`].
#[derive(Drop)]
pub struct UninitSlotMap<T> {
    capacity: usize,
    generation: u32,
    of: PhantomData<T>,
}

impl<T> Model for UninitSlotMap<T> {
    ghost use Rattle.ix_slotmap.specs.Generations.{SlotMapStart, slot_map_start_code};

    ghost Value = { SlotMapStart };

    ghost coded = { slot_map_start_code };

    ghost view = { λ uninit. record {
      capacity = uninit.capacity;
      generation = uninit.generation;
    } };
}

impl<T> UninitSlotMap<T> {
    /// Creates an uninitialised map with `capacity` slots, which will have generation 0. Does not allocate. O(1).
    #[inline]
    pub fn new_uninit(capacity: usize) -> Self
        ensures { result ≡ record { capacity = capacity; generation = 0 } }
    {
        Self::starting_at(capacity, 0)
    }

    /// Creates an uninitialised map with `capacity` slots, which will have this generation. Does not allocate. O(1).
    #[inline]
    pub fn starting_at(capacity: usize, generation: u32) -> Self
        ensures { result ≡ record { capacity = capacity; generation = generation } }
    {
        UninitSlotMap {
            capacity,
            generation,
            of: PhantomData,
        }
    }
}

impl<T: Drop, A: Allocator + Copy> RelocatableContainer<A> for UninitSlotMap<T> {
    type Ready = RelocatableSlotMap<T, A>;

    ghost capacity_of = { λ uninit. uninit.capacity };

    ghost is_empty_with = { λ capacity map. map.slots ≡ slot_table_new capacity };

    #[inline]
    fn new_uninit(capacity: usize) -> Self
        ensures { result ≡ record { capacity = capacity; generation = 0 } }
    {
        UninitSlotMap::starting_at(capacity, 0)
    }

    /// Allocates from `alloc` and returns the empty map.
    ///
    /// O(capacity), with at most four allocations. Returns `self` in an [`InitError`] if an allocation fails, or if the values
    /// would take more than `isize::MAX` bytes. Nothing stays allocated then. A capacity of 0 needs no memory.
    fn init(self, alloc: A) -> Result<RelocatableSlotMap<T, A>, InitError<Self>>
        ensures value { IfOk result (λ map. map ≡ slot_map_new self.capacity self.generation) }
        ensures refused { IfErr result (λ error. error ≡ self) }
        ensures memory { self.capacity ≡ 0 → IsOk result }
    {
        match SlotMap::starting_at(alloc, self.capacity, self.generation) {
            Ok(map) => Ok(map),
            Err(AllocError) => Err(InitError::new(self)),
        }
    }
}

impl<T> fmt::Debug for UninitSlotMap<T> {
    fn fmt<W: fmt::Write>(&self, f: &mut fmt::Formatter<W>) -> fmt::Result {
        f.debug_struct("UninitSlotMap")
            .field("capacity", &self.capacity)
            .field("generation", &self.generation)
            .finish()
    }
}

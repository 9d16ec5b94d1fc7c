//! How maps are made: stored inline, in memory of an allocator, and in two phases.
ghost use Rattle.std.specs.Prelude.{◌≡◌, ℕ, ◌≤◌, None, length, IfOk, IsOk};
ghost use Rattle.std.specs.Mem.{type_size};
ghost use Rattle.ix_tables.specs.Memory.{no_memory};
ghost use Rattle.ix_slottable.specs.Memory.{slot_table_memory};
ghost use Rattle.ix_slottable.specs.SlotTableState.{held_count, slot_table_new};
ghost use Rattle.ix_flatmap.specs.MapState.{map_value};

use crate::map::{HeapIndex, InlineIndex, MetaMap, Pair};
use ix_slottable::{FixedSizeSlotTable, Heap, Inline, SlotTable};
use ix_tables::{MAX_FIXED_CAPACITY, MemorySize, Uninit};
use std::alloc::{AllocError, Allocator};
use std::hash::BuildHasher;

/// A map with room for `CAPACITY` keys that is stored inline and does not allocate, with any index.
pub type InlineMap<K, V, const CAPACITY: usize, I> = MetaMap<Pair<K, V>, Inline<CAPACITY>, I>;

/// A map whose memory is allocated from `A` when it is made, and deallocated when it is dropped, with any index.
pub type HeapMap<K, V, A, I> = MetaMap<Pair<K, V>, Heap<A>, I>;

impl<K: Eq + Drop, V: Drop, const CAPACITY: usize, I: InlineIndex<K, V, CAPACITY>> InlineMap<
    K,
    V,
    CAPACITY,
    I,
> {
    /// Creates an empty map. The keys of a hash map are hashed by hashers that `B::default()` makes. If strangers choose the keys,
    /// use `with_hasher` and std's `RandomState`.
    ///
    /// O(`CAPACITY`). `CAPACITY` is at most [`MAX_FIXED_CAPACITY`].
    pub fn new() -> Self
    where
        I::Setup: Default,
        requires { CAPACITY ≤ MAX_FIXED_CAPACITY }
        ensures value { result ≡ slot_table_new CAPACITY }
        ensures empty { (key : K) → map_value K.eq result key ≡ None }
        ensures count { held_count result ≡ 0 }
        ensures room { length result.free ≡ CAPACITY }
    {
        InlineMap::inline(I::Setup::default())
    }

    /// Creates an empty map, whose index is made of `setup`.
    fn inline(setup: I::Setup) -> Self
        ensures value { result ≡ slot_table_new CAPACITY }
        ensures empty { (key : K) → map_value K.eq result key ≡ None }
        ensures count { held_count result ≡ 0 }
        ensures room { length result.free ≡ CAPACITY }
    {
        MetaMap {
            pairs: FixedSizeSlotTable::default(),
            index: I::new_inline(setup),
        }
    }
}

impl<K: Eq + Drop, V: Drop, const CAPACITY: usize, I: InlineIndex<K, V, CAPACITY>> InlineMap<
    K,
    V,
    CAPACITY,
    I,
>
where
    I::Setup: BuildHasher,
{
    /// Creates an empty hash map, whose keys are hashed by hashers that `hasher` makes.
    ///
    /// O(`CAPACITY`). `CAPACITY` is at most [`MAX_FIXED_CAPACITY`].
    pub fn with_hasher(hasher: I::Setup) -> Self
        requires { CAPACITY ≤ MAX_FIXED_CAPACITY }
        ensures value { result ≡ slot_table_new CAPACITY }
        ensures empty { (key : K) → map_value K.eq result key ≡ None }
        ensures count { held_count result ≡ 0 }
        ensures room { length result.free ≡ CAPACITY }
    {
        InlineMap::inline(hasher)
    }
}

/// Creates an empty map. The keys of a hash map are hashed by hashers that `B::default()` makes. O(`CAPACITY`).
impl<K: Eq + Drop, V: Drop, const CAPACITY: usize, I: InlineIndex<K, V, CAPACITY>> Default
    for InlineMap<K, V, CAPACITY, I>
where
    I::Setup: Default,
{
    ghost is_default = { λ map. map ≡ slot_table_new CAPACITY };

    fn default() -> Self {
        InlineMap::inline(I::Setup::default())
    }
}

impl<K: Eq + Drop, V: Drop, A: Allocator + Copy, I: HeapIndex<K, V, A, In = I>> HeapMap<
    K,
    V,
    A,
    I,
> {
    ghost use Rattle.ix_flatmap.specs.contracts.map.pair.Pair as pair;
    ghost use Rattle.ix_slottable.specs.contracts.slottable.link.Link as link;

    /// Returns the memory that a map of this capacity allocates from its allocator when it is made.
    ///
    /// This is the memory of a table of pairs, of a table of links, and of its index. A map of capacity 0 needs no allocation. This
    /// function does not allocate. O(1).
    #[inline]
    pub fn memory_size(capacity: usize) -> MemorySize
        ensures value { result ≡ I.HeapIndex.memory (slot_table_memory (type_size (pair.the_row K.row V.row)) (type_size link.the_row) capacity) capacity }
        ensures monotone { (greater : ℕ) → capacity ≤ greater
            → result.bytes ≤ (I.HeapIndex.memory (slot_table_memory (type_size (pair.the_row K.row V.row)) (type_size link.the_row) greater) greater).bytes }
        ensures none { capacity ≡ 0 → result ≡ no_memory }
    {
        I::memory_size(SlotTable::<Pair<K, V>, A>::memory_size(capacity), capacity)
    }

    /// Creates an empty map with room for `capacity` keys. The keys of a hash map are hashed by hashers that `B::default()` makes.
    /// If strangers choose the keys, use `with_hasher` and std's `RandomState`.
    ///
    /// O(`capacity`), with at most three allocations, and one more for a hash map. Returns `AllocError` if an allocation fails, or
    /// if the pairs would take more than `isize::MAX` bytes. Returns it too if a hash map would have more than
    /// [`MAX_FIXED_CAPACITY`] slots. Nothing stays allocated then. A capacity of 0 needs no memory.
    pub fn new(alloc: A, capacity: usize) -> Result<Self, AllocError>
    where
        I::Setup: Default + Drop,
        ensures value { IfOk result (λ map. map ≡ slot_table_new capacity) }
        ensures empty { IfOk result (λ map. (key : K) → map_value K.eq map key ≡ None) }
        ensures count { IfOk result (λ map. held_count map ≡ 0) }
        ensures room { IfOk result (λ map. length map.free ≡ capacity) }
        ensures memory { capacity ≡ 0 → IsOk result }
    {
        HeapMap::made_of(alloc, capacity, I::Setup::default())
    }

    /// Creates an empty map with room for `capacity` keys, whose index is made of `setup`.
    fn made_of(alloc: A, capacity: usize, setup: I::Setup) -> Result<Self, AllocError>
    where
        I::Setup: Drop,
        ensures value { IfOk result (λ map. map ≡ slot_table_new capacity) }
        ensures empty { IfOk result (λ map. (key : K) → map_value K.eq map key ≡ None) }
        ensures count { IfOk result (λ map. held_count map ≡ 0) }
        ensures room { IfOk result (λ map. length map.free ≡ capacity) }
        ensures memory { capacity ≡ 0 → IsOk result }
    {
        let pairs = SlotTable::new(alloc, capacity)?;
        let index = I::new_in(alloc, capacity, setup)?;
        Ok(MetaMap { pairs, index })
    }

    /// Creates an uninitialised map with room for `capacity` keys. Does not allocate. O(1).
    /// The allocator is the one that is passed to `init`, whatever `A` is here.
    #[inline]
    pub fn new_uninit(capacity: usize) -> Uninit<I::Family>
        ensures { result ≡ capacity }
    {
        Uninit::new_uninit(capacity)
    }
}

impl<K: Eq + Drop, V: Drop, A: Allocator + Copy, I: HeapIndex<K, V, A, In = I>> HeapMap<K, V, A, I>
where
    I::Setup: BuildHasher + Drop,
{
    /// Creates an empty hash map with room for `capacity` keys, which are hashed by hashers that `hasher` makes.
    ///
    /// O(`capacity`), with at most four allocations. Returns `AllocError` if an allocation fails, if the pairs would take more than
    /// `isize::MAX` bytes, or if `capacity` is more than [`MAX_FIXED_CAPACITY`]. Nothing stays allocated then, and `hasher` is
    /// dropped. A capacity of 0 needs no memory.
    pub fn with_hasher(alloc: A, capacity: usize, hasher: I::Setup) -> Result<Self, AllocError>
        ensures value { IfOk result (λ map. map ≡ slot_table_new capacity) }
        ensures empty { IfOk result (λ map. (key : K) → map_value K.eq map key ≡ None) }
        ensures count { IfOk result (λ map. held_count map ≡ 0) }
        ensures room { IfOk result (λ map. length map.free ≡ capacity) }
        ensures memory { capacity ≡ 0 → IsOk result }
    {
        HeapMap::made_of(alloc, capacity, hasher)
    }
}

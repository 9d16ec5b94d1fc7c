//! The kinds of hash maps: stored inline, in memory of an allocator, and initialised in two phases.
ghost use Rattle.std.specs.Prelude.{◌≡◌};
ghost use Rattle.std.specs.Mem.{type_size};
ghost use Rattle.ix_slottable.specs.Memory.{hash_map_memory};
ghost use Rattle.ix_slottable.specs.SlotTableState.{slot_table_new};
ghost use Rattle.ix_flatmap.specs.contracts.map.pair.Pair as pair;
ghost use Rattle.ix_slottable.specs.contracts.slottable.link.Link as link;
ghost use Rattle.ix_hashmap.specs.contracts.hashmap.chain_link.ChainLink as chain_link;

use crate::hashmap::Buckets;
use ix_flatmap::map::{MetaMap, Pair};
use ix_slottable::{Heap, Inline};
use ix_tables::{ContainerFamily, MemorySize, Uninit};
use std::alloc::{AllocError, Allocator, Global};
use std::hash::{BuildHasher, BuildHasherDefault, FoldHasher, Hash};
use std::marker::PhantomData;

/// The default hash builder of a hash map. Its hasher is fast and has a fixed seed. So whoever chooses the keys can give many of
/// them one bucket.
pub type DefaultHashBuilder = BuildHasherDefault<FoldHasher>;

/// A hash map with its memory in a storage `M`, whose keys are hashed by the hashers that `B` makes.
///
/// Each method that looks for a key takes O(1) time on average, and O(capacity) if all keys have one bucket. [`Buckets`] says how
/// many keys it compares. The other methods are as [`MetaMap`] says.
pub type MetaHashMap<P, M, B> = MetaMap<P, M, Buckets<M, B>>;

/// A hash map with room for `CAPACITY` keys that is stored inline and does not allocate.
///
/// A map of more than [`MAX_FIXED_CAPACITY`](ix_tables::MAX_FIXED_CAPACITY) keys, which only `default` makes, has no chains: a
/// method compares a key with all others.
pub type FixedSizeHashMap<K, V, const CAPACITY: usize, B = DefaultHashBuilder> = MetaHashMap<
    Pair<K, V>,
    Inline<CAPACITY>,
    B,
>;

/// A hash map whose memory is allocated from `A` when it is made, and deallocated when it is dropped. Its capacity is at most
/// [`MAX_FIXED_CAPACITY`](ix_tables::MAX_FIXED_CAPACITY), because links number slots by 32 bits.
pub type HashMap<K, V, A = Global, B = DefaultHashBuilder> = MetaHashMap<Pair<K, V>, Heap<A>, B>;

/// Returns the result of [`HeapMap::memory_size`](ix_flatmap::map::HeapMap::memory_size) for a hash map. This is the memory of a
/// table of pairs, of a table of links, and of an array of links of chains.
///
/// Does not allocate. O(1).
pub fn hash_map_memory_law<
    K: Eq + Hash + Drop,
    V: Drop,
    A: Allocator + Copy,
    B: BuildHasher + Drop,
>(capacity: usize) -> MemorySize
    ensures { result ≡ hash_map_memory (type_size (pair.the_row K.row V.row)) (type_size link.the_row) (type_size chain_link.the_row) capacity }
{
    HashMap::<K, V, A, B>::memory_size(capacity)
}

/// A hash map that is initialised in two phases: first its capacity, as an [`UninitHashMap`], and later its memory, which `init`
/// allocates from `A`.
pub type RelocatableHashMap<K, V, A = Global, B = DefaultHashBuilder> = HashMap<K, V, A, B>;

/// An uninitialised hash map: a capacity without memory. [`RelocatableContainer::init`](ix_tables::RelocatableContainer::init)
/// makes it a [`RelocatableHashMap`]. If `init` is passed an allocator, `B::default()` makes the hashers of the map. If `init` is
/// passed a [`WithHasher`], the hash builder that came with the allocator makes them.
pub type UninitHashMap<K, V, B = DefaultHashBuilder> = Uninit<HashMapFamily<K, V, B>>;

/// The relocatable hash maps from `K` to `V`, one type for each allocator. Hashers are made by a `B`.
#[derive(Drop)]
pub struct HashMapFamily<K, V, B> {
    of: PhantomData<(K, V, B)>,
}

impl<
    K: Eq + Hash + Drop,
    V: Drop,
    A: Allocator + Copy,
    B: BuildHasher + Default + Drop,
> ContainerFamily<A> for HashMapFamily<K, V, B> {
    type Container = RelocatableHashMap<K, V, A, B>;

    ghost is_empty_with = { λ capacity map. map ≡ slot_table_new capacity };

    /// Creates an empty map with room for `capacity` keys. O(`capacity`), with at most four allocations. Returns `AllocError`
    /// as `HashMap::new` does.
    #[inline]
    fn with_capacity(
        alloc: A,
        capacity: usize,
    ) -> Result<RelocatableHashMap<K, V, A, B>, AllocError> {
        HashMap::with_hasher(alloc, capacity, B::default())
    }
}

/// An allocator, and the hash builder of the map that an [`UninitHashMap`] becomes in the allocator's memory. If strangers choose
/// the keys, use std's `RandomState`. It has no default, because it draws its seed.
#[derive(Clone, Copy, Drop)]
pub struct WithHasher<A, B> {
    /// The memory is allocated from this.
    pub alloc: A,
    /// Makes the hashers.
    pub hasher: B,
}

impl<K: Eq + Hash + Drop, V: Drop, A: Allocator + Copy, B: BuildHasher + Drop> ContainerFamily<
    WithHasher<A, B>,
> for HashMapFamily<K, V, B> {
    type Container = RelocatableHashMap<K, V, A, B>;

    ghost is_empty_with = { λ capacity map. map ≡ slot_table_new capacity };

    /// Creates an empty map with room for `capacity` keys. O(`capacity`), with at most four allocations. Returns `AllocError` as
    /// `HashMap::new` does, and drops the hash builder in that case.
    #[inline]
    fn with_capacity(
        with_hasher: WithHasher<A, B>,
        capacity: usize,
    ) -> Result<RelocatableHashMap<K, V, A, B>, AllocError> {
        let WithHasher { alloc, hasher } = with_hasher;
        HashMap::with_hasher(alloc, capacity, hasher)
    }
}

//! The kinds of flat maps: stored inline, in memory of an allocator, and initialised in two phases.
ghost use Rattle.std.specs.Prelude.{◌≡◌};
ghost use Rattle.ix_slottable.specs.SlotTableState.{slot_table_new};

use crate::flatmap::Bound;
use crate::map::{MetaMap, Pair};
use ix_slottable::{Heap, Inline};
use ix_tables::{ContainerFamily, Uninit};
use std::alloc::{AllocError, Allocator, Global};
use std::marker::PhantomData;

/// A flat map with its memory in a storage `M`.
///
/// Each method that looks for a key takes O(capacity) time. [`Bound`] says how many keys it compares. The other methods are as
/// [`MetaMap`] says.
///
/// This is `MetaFlatMap` of iceoryx2-bb-container.
pub type MetaFlatMap<P, M> = MetaMap<P, M, Bound>;

/// A flat map with room for `CAPACITY` keys that is stored inline and does not allocate.
///
/// This is `FixedSizeFlatMap` of iceoryx2-bb-container.
pub type FixedSizeFlatMap<K, V, const CAPACITY: usize> = MetaFlatMap<Pair<K, V>, Inline<CAPACITY>>;

/// A flat map whose memory is allocated from `A` when it is made, and deallocated when it is dropped.
///
/// This is `FlatMap` of iceoryx2-bb-container.
pub type FlatMap<K, V, A = Global> = MetaFlatMap<Pair<K, V>, Heap<A>>;

/// A flat map that is initialised in two phases: first its capacity, as an [`UninitFlatMap`], and later its memory, which `init`
/// allocates from `A`.
///
/// This is `RelocatableFlatMap` of iceoryx2-bb-container.
pub type RelocatableFlatMap<K, V, A = Global> = FlatMap<K, V, A>;

/// An uninitialised flat map: a capacity without memory.
/// [`RelocatableContainer::init`](ix_tables::RelocatableContainer::init) makes it a [`RelocatableFlatMap`].
pub type UninitFlatMap<K, V> = Uninit<FlatMapFamily<K, V>>;

/// The relocatable flat maps from `K` to `V`, one type for each allocator.
#[derive(Drop)]
pub struct FlatMapFamily<K, V> {
    of: PhantomData<(K, V)>,
}

impl<K: Eq + Drop, V: Drop, A: Allocator + Copy> ContainerFamily<A> for FlatMapFamily<K, V> {
    type Container = RelocatableFlatMap<K, V, A>;

    ghost is_empty_with = { λ capacity map. map ≡ slot_table_new capacity };

    /// Creates an empty map with room for `capacity` keys. O(`capacity`), with at most three allocations.
    #[inline]
    fn with_capacity(alloc: A, capacity: usize) -> Result<RelocatableFlatMap<K, V, A>, AllocError> {
        FlatMap::new(alloc, capacity)
    }
}

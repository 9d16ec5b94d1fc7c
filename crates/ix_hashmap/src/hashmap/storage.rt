//! Where a hash map has its chains.
ghost use Rattle.std.specs.Prelude.{◌≡◌, Bool, true, nat_le};
ghost use Rattle.ix_tables.specs.declared.cells.table.TheConstants.{MAX_FIXED_CAPACITY};

use crate::hashmap::ChainLink;
use ix_slottable::{Heap, Inline};
use ix_tables::{Array, HeapArray, InlineArray, MAX_FIXED_CAPACITY};
use std::alloc::Allocator;

/// Where a hash map has the chains of its buckets: [`Inline`] or a [`Heap`], as for its keys and values.
///
/// Links number slots by 32 bits. A map whose type gives it more slots than [`MAX_FIXED_CAPACITY`] has no chains, and compares
/// its keys one by one.
pub trait HashMapStorage {
    /// The array of the links of the chains.
    type Chains: Array<ChainLink> + Drop;

    /// Whether a map in this storage has chains.
    ghost has_chains: { Bool };

    /// Returns `true` if a map in this storage has chains. O(1).
    fn has_chains() -> bool
        ensures { result ≡ has_chains };
}

impl<const CAPACITY: usize> HashMapStorage for Inline<CAPACITY> {
    type Chains = InlineArray<ChainLink, CAPACITY>;

    ghost has_chains = { nat_le CAPACITY MAX_FIXED_CAPACITY };

    #[inline]
    fn has_chains() -> bool {
        CAPACITY <= MAX_FIXED_CAPACITY
    }
}

impl<A: Allocator> HashMapStorage for Heap<A> {
    type Chains = HeapArray<ChainLink, A>;

    ghost has_chains = { true };

    #[inline]
    fn has_chains() -> bool {
        true
    }
}

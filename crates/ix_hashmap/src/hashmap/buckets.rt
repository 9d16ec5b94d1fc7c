//! The index of hash maps.
ghost use Rattle.std.specs.Prelude.{◌≡◌, [], ◌∷◌, true};
ghost use Rattle.std.proofs.Common.{ap};
ghost use Rattle.std.specs.Mem.{type_size};
ghost use Rattle.ix_tables.specs.Memory.{memory_plus, items_memory};
ghost use Rattle.std.specs.Result.{IfErr, result_ok};
ghost use Rattle.ix_slottable.specs.SlotTableSteps.{SlotTableInsert};
ghost use Rattle.ix_hashmap.specs.inner.HashChains.{hash_of, IsIndexed, IsBucket};
ghost use Rattle.ix_hashmap.specs.laws.HashChains.{IsIndexed-clone};

use crate::hashmap::chain_link::{NO_LINK, NO_PLACE};
use crate::hashmap::chain_table::ChainTable;
use crate::hashmap::hashed::{bucket_of, bucket_of_bytes};
use crate::hashmap::search::{find_bytes, find_from};
use crate::hashmap::{ChainLink, HashMapFamily, HashMapStorage, Hashed};
use ix_flatmap::flatmap::{self, find_in_order};
use ix_flatmap::map::{HeapIndex, InlineIndex, KeyIndex, Pair, PairIndex};
use ix_slottable::{Heap, Inline, MetaSlotTable, SlotTableKey, Storage};
use ix_tables::{HeapArray, InlineArray, MAX_FIXED_CAPACITY, MemorySize};
use std::alloc::{AllocError, Allocator};
use std::convert::AsSlice;
use std::hash::{BuildHasher, Hash};

/// The index of a hash map: for each of its buckets a chain of the slots whose keys have that bucket, in a storage `S`. Keys are
/// found by their `Hash`, with hashers that `B` makes.
///
/// A method that looks for a key compares it with the keys of its bucket, up to the equal key. A map has four buckets for each
/// slot. If hashes are spread evenly over the numbers below 2<sup>64</sup>, a bucket of a full map has a quarter of a key on
/// average.
#[derive(Drop)]
pub struct Buckets<S: HashMapStorage, B: BuildHasher> {
    links: ChainTable<S::Chains>,
    hasher: B,
}

/// The bucket that a key has, and the first slot in its chain.
#[derive(Clone, Copy)]
pub struct Bucket {
    number: u128,
    first: u32,
}

impl<P: Hashed, S: HashMapStorage, B: BuildHasher> PairIndex<P> for Buckets<S, B> {
    ghost Fits = { λ index pairs.
        IsIndexed S.has_chains (λ pair. hash_of B.Hasher.finish B.Hasher.write (B.build_hasher index.hasher) (P.key_input pair)) pairs index.links };
}

impl<K: Eq + Hash + Drop, V: Drop, S: HashMapStorage, B: BuildHasher> KeyIndex<K, V>
    for Buckets<S, B> {
    type Seat = Bucket;

    type Setup = B;

    ghost IsSeat = { λ index pairs key seat.
        IsBucket (hash_of B.Hasher.finish B.Hasher.write (B.build_hasher index.hasher) (K.hash_input key)) index.links seat.number seat.first };

    ghost setup_of = { λ index. index.hasher };

    #[inline]
    fn setup(&self) -> &B {
        &self.hasher
    }

    #[inline]
    fn seat<M: Storage<Pair<K, V>>>(
        &self,
        _pairs: &MetaSlotTable<Pair<K, V>, M>,
        key: &K,
    ) -> Bucket {
        let places = self.links.len();
        // A map without slots has no bucket.
        if places == 0 {
            return Bucket {
                number: 0,
                first: NO_PLACE,
            };
        }
        let number = bucket_of(&self.hasher, key, places);
        Bucket {
            number,
            first: self.links.head(number),
        }
    }

    #[inline]
    fn find<'a, M: Storage<Pair<K, V>>>(
        &self,
        pairs: &'a MetaSlotTable<Pair<K, V>, M>,
        seat: Bucket,
        key: &K,
    ) -> Option<(SlotTableKey, &'a Pair<K, V>)> {
        if !S::has_chains() {
            return find_in_order(pairs, pairs.capacity(), key);
        }
        find_from(pairs, &self.links, seat.first, key)
    }

    // A key feeds a hasher these bytes, in one write.
    ghost AreFoundBy = { λ bytes. (key : K) → K.hash_input key ≡ bytes key ∷ [] };

    #[inline]
    fn find_bytes<'a, M: Storage<Pair<K, V>>>(
        &self,
        pairs: &'a MetaSlotTable<Pair<K, V>, M>,
        bytes: &[u8],
    ) -> Option<(SlotTableKey, &'a Pair<K, V>)>
    where
        K: AsSlice<u8>,
    {
        if !S::has_chains() {
            return flatmap::find_bytes(pairs, pairs.capacity(), bytes);
        }
        let places = self.links.len();
        if places == 0 {
            return None;
        }
        let number = bucket_of_bytes(&self.hasher, bytes, places);
        find_bytes(pairs, &self.links, self.links.head(number), bytes)
    }

    #[inline]
    fn insert<M: Storage<Pair<K, V>>>(
        &mut self,
        pairs: &mut MetaSlotTable<Pair<K, V>, M>,
        seat: Bucket,
        pair: Pair<K, V>,
    ) -> Result<SlotTableKey, Pair<K, V>>
        requires fits { ⟦<Buckets<S, B> as PairIndex<Pair<K, V>>>⟧.Fits self.old pairs.old }
        requires seat { ⟦<Buckets<S, B> as KeyIndex<K, V>>⟧.IsSeat self.old pairs.old pair.key seat }
        ensures step { SlotTableInsert pairs.old pair pairs.new (result_ok result) }
        ensures returned { IfErr result (λ refused. refused ≡ pair) }
        ensures fits { ⟦<Buckets<S, B> as PairIndex<Pair<K, V>>>⟧.Fits self.new pairs.new }
    {
        if !S::has_chains() {
            return pairs.try_insert(pair);
        }
        match pairs.try_insert(pair) {
            Ok(place) => {
                self.links
                    .insert_first(seat.number, seat.first, place.value());
                Ok(place)
            }
            Err(pair) => Err(pair),
        }
    }

    #[inline]
    fn remove<M: Storage<Pair<K, V>>>(
        &mut self,
        pairs: &mut MetaSlotTable<Pair<K, V>, M>,
        seat: Bucket,
        place: SlotTableKey,
    ) -> Pair<K, V> {
        if !S::has_chains() {
            return pairs.remove_unchecked(place);
        }
        self.links.remove(seat.number, seat.first, place.value());
        pairs.remove_unchecked(place)
    }

    #[inline]
    fn clear<M: Storage<Pair<K, V>>>(&mut self, pairs: &mut MetaSlotTable<Pair<K, V>, M>) {
        pairs.clear();
        self.links.clear();
    }

    #[inline]
    fn bound<M: Storage<Pair<K, V>>>(&self, pairs: &MetaSlotTable<Pair<K, V>, M>) -> usize {
        pairs.capacity()
    }

    ghost Fits_equal_keys = { λ index pairs others same fits.
        IsIndexed-clone (λ pair. hash_of B.Hasher.finish B.Hasher.write (B.build_hasher index.hasher) (K.hash_input pair.key)) S.has_chains
        (λ pair other. K.eq other.key pair.key ≡ true) pairs others index.links
        (λ pair other equal. ap (hash_of B.Hasher.finish B.Hasher.write (B.build_hasher index.hasher)) (K.respects_eq other.key pair.key equal))
        same fits };
}

impl<K: Eq + Hash + Drop, V: Drop, const CAPACITY: usize, B: BuildHasher> InlineIndex<
    K,
    V,
    CAPACITY,
> for Buckets<Inline<CAPACITY>, B> {
    fn new_inline(setup: B) -> Self {
        let links = InlineArray::new(NO_LINK);
        Buckets {
            links: ChainTable::new(links),
            hasher: setup,
        }
    }

    fn copy_inline(&self, setup: B) -> Self {
        prove!(self.links.len() == CAPACITY);
        Buckets {
            links: ChainTable::copy_of(InlineArray::new(NO_LINK), &self.links),
            hasher: setup,
        }
    }
}

impl<
    K: Eq + Hash + Drop,
    V: Drop,
    A: Allocator + Copy,
    D: Allocator + Copy,
    B: BuildHasher + Drop,
> HeapIndex<K, V, D> for Buckets<Heap<A>, B> {
    ghost use Rattle.ix_hashmap.specs.contracts.hashmap.chain_link.ChainLink as chain_link;

    type In = Buckets<Heap<D>, B>;

    type Family = HashMapFamily<K, V, B>;

    ghost memory = { λ pairs capacity. memory_plus pairs (items_memory (type_size chain_link.the_row) capacity) };

    #[inline]
    fn memory_size(pairs: MemorySize, capacity: usize) -> MemorySize {
        pairs.saturating_add(HeapArray::<ChainLink, D>::memory_size(capacity))
    }

    fn new_in(alloc: D, capacity: usize, setup: B) -> Result<Buckets<Heap<D>, B>, AllocError> {
        // Links can number no more slots.
        if capacity > MAX_FIXED_CAPACITY {
            return Err(AllocError);
        }
        let links = HeapArray::new(alloc, capacity, NO_LINK)?;
        Ok(Buckets {
            links: ChainTable::new(links),
            hasher: setup,
        })
    }

    fn copy_in(&self, alloc: D, setup: B) -> Result<Buckets<Heap<D>, B>, AllocError> {
        let links = HeapArray::new(alloc, self.links.len(), NO_LINK)?;
        Ok(Buckets {
            links: ChainTable::copy_of(links, &self.links),
            hasher: setup,
        })
    }
}

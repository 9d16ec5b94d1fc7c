//! The indexes by which a map finds its keys.
ghost use Rattle.std.specs.Prelude.{◌≡◌, ℕ, ◌≤◌, List, length, replicate, Some, None, IsOk, IfOk, IfSome, option_map, true};
ghost use Rattle.std.specs.Result.{IfErr, result_ok};
ghost use Rattle.ix_tables.specs.Memory.{no_memory};
ghost use Rattle.ix_tables.specs.declared.cells.memory_size.MemorySize.{MemorySize};
ghost use Rattle.ix_slottable.specs.SlotTableState.{SlotTableState, IsHeld, value_at, held_count, slot_table_new};
ghost use Rattle.ix_slottable.specs.SlotTableSteps.{SlotTableInsert, SlotTableRemove, slot_table_clear};
ghost use Rattle.ix_slottable.specs.SlotTableCopies.{SlotTableIsClone};
ghost use Rattle.ix_flatmap.specs.MapState.{AreEqualByBytes, HasDistinctKeys, has_bytes, map_entry, IsBound};
ghost use Rattle.ix_flatmap.specs.declared.map.pair.Pair.{Pair};

use crate::map::Pair;
use ix_slottable::slottable::{MetaSlotTable, SlotTableKey, Storage};
use ix_tables::MemorySize;
use std::alloc::{AllocError, Allocator};
use std::convert::AsSlice;

/// An index of the pairs of a map.
pub trait PairIndex<P>: Sized {
    /// The index is of these pairs.
    ghost Fits: { Self → SlotTableState P → Type 0 };
}

/// An index that finds the slot of a key. [`MetaMap`](crate::map::MetaMap) has the methods of a map over any index.
///
/// A key has a seat, whether the map has the key or not: the index's knowledge of where the key belongs. A method asks for the seat
/// once.
pub trait KeyIndex<K: Eq + Drop, V: Drop>: PairIndex<Pair<K, V>> {
    /// Where a key belongs.
    type Seat: Copy;

    /// The value that an index is made of, beside memory: for a hash map its hash builder, for a flat map nothing.
    type Setup;

    /// A key belongs there.
    ghost IsSeat: { Self → SlotTableState (Pair K V) → K → Self.Seat → Type 0 };

    /// The setup that the index was made of.
    ghost setup_of: { Self → Self.Setup };

    /// Returns the setup that the index was made of.
    fn setup(&self) -> &Self::Setup
        ensures { result.now ≡ setup_of self.now };

    /// Returns where `key` belongs.
    fn seat<M: Storage<Pair<K, V>>>(
        &self,
        pairs: &MetaSlotTable<Pair<K, V>, M>,
        key: &K,
    ) -> Self::Seat
        requires { Self.PairIndex.Fits self.now pairs.now }
        ensures seat { IsSeat self.now pairs.now key.now result }
        // The equal key, if there is one, belongs there too.
        ensures equal { IfSome (map_entry K.eq pairs.now key.now) (λ entry.
            IsSeat self.now pairs.now entry.1.key result) };

    /// Returns the slot of the key that equals `key`, and the pair there, or `None` if there is none. `key` belongs at `seat`.
    fn find<'a, M: Storage<Pair<K, V>>>(
        &self,
        pairs: &'a MetaSlotTable<Pair<K, V>, M>,
        seat: Self::Seat,
        key: &K,
    ) -> Option<(SlotTableKey, &'a Pair<K, V>)>
        requires fits { Self.PairIndex.Fits self.now pairs.now }
        requires distinct { HasDistinctKeys K.eq pairs.now }
        requires seat { IsSeat self.now pairs.now key.now seat }
        ensures { option_map (λ entry. (entry.0, entry.1.now)) result
            ≡ map_entry K.eq pairs.now key.now };

    /// The condition on keys that are found by these bytes of theirs, beside the condition that keys are equal exactly if their
    /// bytes are.
    ghost AreFoundBy: { (K → List ℕ) → Type 0 };

    /// Returns the slot of the key with these bytes, and the pair there, or `None` if there is none.
    fn find_bytes<'a, M: Storage<Pair<K, V>>>(
        &self,
        pairs: &'a MetaSlotTable<Pair<K, V>, M>,
        bytes: &[u8],
    ) -> Option<(SlotTableKey, &'a Pair<K, V>)>
    where
        K: AsSlice<u8>,
        requires fits { Self.PairIndex.Fits self.now pairs.now }
        requires distinct { HasDistinctKeys K.eq pairs.now }
        requires equal { AreEqualByBytes K.eq K.items }
        requires found { AreFoundBy K.items }
        ensures { option_map (λ entry. (entry.0, entry.1.now)) result
            ≡ map_entry (has_bytes K.items) pairs.now bytes.now };

    /// Inserts `pair` in the first free slot. Its key belongs at `seat`, and none of the pairs has it. Returns `pair` as the error
    /// if no slot is free.
    fn insert<M: Storage<Pair<K, V>>>(
        &mut self,
        pairs: &mut MetaSlotTable<Pair<K, V>, M>,
        seat: Self::Seat,
        pair: Pair<K, V>,
    ) -> Result<SlotTableKey, Pair<K, V>>
        requires fits { Self.PairIndex.Fits self.old pairs.old }
        requires seat { IsSeat self.old pairs.old pair.key seat }
        requires absent { map_entry K.eq pairs.old pair.key ≡ None }
        ensures step { SlotTableInsert pairs.old pair pairs.new (result_ok result) }
        ensures returned { IfErr result (λ refused. refused ≡ pair) }
        ensures fits { Self.PairIndex.Fits self.new pairs.new };

    /// Removes the pair in a slot that has one, and returns it. Its key belongs at `seat`.
    fn remove<M: Storage<Pair<K, V>>>(
        &mut self,
        pairs: &mut MetaSlotTable<Pair<K, V>, M>,
        seat: Self::Seat,
        place: SlotTableKey,
    ) -> Pair<K, V>
        requires fits { Self.PairIndex.Fits self.old pairs.old }
        requires held { IsHeld pairs.old place }
        requires seat { (pair : Pair K V) → value_at pairs.old place ≡ Some pair
            → IsSeat self.old pairs.old pair.key seat }
        ensures step { SlotTableRemove pairs.old place pairs.new (Some result) }
        ensures fits { Self.PairIndex.Fits self.new pairs.new };

    /// Removes all pairs and drops them, in slot order.
    fn clear<M: Storage<Pair<K, V>>>(&mut self, pairs: &mut MetaSlotTable<Pair<K, V>, M>)
        requires { Self.PairIndex.Fits self.old pairs.old }
        ensures pairs { pairs.new ≡ slot_table_clear pairs.old }
        ensures values { pairs.new.values ≡ replicate (length pairs.old.values) None }
        ensures count { held_count pairs.new ≡ 0 }
        ensures room { length pairs.new.free ≡ length pairs.old.values }
        ensures fits { Self.PairIndex.Fits self.new pairs.new };

    /// Returns a bound: no slot from there on has a pair.
    fn bound<M: Storage<Pair<K, V>>>(&self, pairs: &MetaSlotTable<Pair<K, V>, M>) -> usize
        requires { Self.PairIndex.Fits self.now pairs.now }
        ensures { IsBound pairs.now result };

    /// Returns the slot of the key that equals `key`, or `None` if there is none. `key` belongs at `seat`.
    #[inline]
    final fn place<M: Storage<Pair<K, V>>>(
        &self,
        pairs: &MetaSlotTable<Pair<K, V>, M>,
        seat: Self::Seat,
        key: &K,
    ) -> Option<SlotTableKey>
        requires fits { Self.PairIndex.Fits self.now pairs.now }
        requires distinct { HasDistinctKeys K.eq pairs.now }
        requires seat { IsSeat self.now pairs.now key.now seat }
        ensures { result ≡ option_map (λ entry. entry.0) (map_entry K.eq pairs.now key.now) }
    {
        match self.find(pairs, seat, key) {
            Some((place, _)) => Some(place),
            None => None,
        }
    }

    /// An index of pairs is also an index of other pairs whose keys are equal to theirs, in the same slots.
    ghost Fits_equal_keys: { (index : Self) (pairs others : SlotTableState (Pair K V))
        → SlotTableIsClone (λ pair other. K.eq other.key pair.key ≡ true) pairs others
        → Self.PairIndex.Fits index pairs → Self.PairIndex.Fits index others };
}

/// An index of a map that is stored inline, with room for `CAPACITY` keys.
pub trait InlineIndex<K: Eq + Drop, V: Drop, const CAPACITY: usize>: KeyIndex<K, V> {
    /// Creates an index of no pairs. O(`CAPACITY`).
    fn new_inline(setup: Self::Setup) -> Self
        ensures { Self.PairIndex.Fits result (slot_table_new CAPACITY) };

    /// Creates an index of the same pairs, from a copy of the setup that this index was made of. O(`CAPACITY`).
    fn copy_inline(&self, setup: Self::Setup) -> Self
        requires { setup ≡ Self.KeyIndex.setup_of self.now }
        ensures { (pairs : SlotTableState (Pair K V))
            → Self.PairIndex.Fits self.now pairs → Self.PairIndex.Fits result pairs };
}

/// An index of a map whose memory is allocated: [`HeapIndex::In`] is one in memory of `A`.
pub trait HeapIndex<K: Eq + Drop, V: Drop, A: Allocator + Copy>: KeyIndex<K, V> {
    /// The index in memory of `A`.
    type In: PairIndex<Pair<K, V>>;

    /// The maps that are initialised in two phases, one type for each allocator.
    type Family;

    /// The memory of a map, from the memory of its pairs and its capacity.
    ghost memory: { MemorySize → ℕ → MemorySize };

    /// Returns the memory that a map of this capacity allocates, if its pairs take `pairs`.
    fn memory_size(pairs: MemorySize, capacity: usize) -> MemorySize
        ensures value { result ≡ memory pairs capacity }
        ensures monotone { (greater : MemorySize) (more : ℕ) → pairs.bytes ≤ greater.bytes
            → capacity ≤ more → result.bytes ≤ (memory greater more).bytes }
        ensures none { pairs ≡ no_memory → capacity ≡ 0 → result ≡ no_memory };

    /// Creates an index of no pairs, for this capacity. O(`capacity`).
    ///
    /// Returns `AllocError` if an allocation fails. Nothing stays allocated then, and `setup` is dropped.
    fn new_in(alloc: A, capacity: usize, setup: Self::Setup) -> Result<Self::In, AllocError>
        ensures value { IfOk result (λ index. Self.In.PairIndex.Fits index (slot_table_new capacity)) }
        ensures memory { capacity ≡ 0 → IsOk result };

    /// Creates an index of the same pairs in memory of `alloc`, from a copy of the setup that this index was made of. O(its
    /// capacity).
    ///
    /// Returns `AllocError` if an allocation fails. Nothing stays allocated then.
    fn copy_in(&self, alloc: A, setup: Self::Setup) -> Result<Self::In, AllocError>
        requires { setup ≡ Self.KeyIndex.setup_of self.now }
        ensures value { IfOk result (λ made. (pairs : SlotTableState (Pair K V))
            → Self.PairIndex.Fits self.now pairs → Self.In.PairIndex.Fits made pairs) }
        ensures memory { (pairs : SlotTableState (Pair K V)) → Self.PairIndex.Fits self.now pairs
            → length pairs.values ≡ 0 → IsOk result };
}

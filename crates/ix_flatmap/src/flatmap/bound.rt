//! The index of flat maps.
ghost use Rattle.std.specs.Prelude.{◌≡◌, ◌+◌, ◌<◌, ◌≤◌, ⊤, length, replicate, Some, None};
ghost use Rattle.std.specs.Result.{IfErr, result_ok};
ghost use Rattle.ix_slottable.specs.SlotTableState.{held_count};
ghost use Rattle.ix_slottable.specs.SlotTableSteps.{SlotTableInsert, slot_table_clear};
ghost use Rattle.ix_flatmap.specs.MapState.{IsBound};
ghost use Rattle.ix_flatmap.specs.inner.Bounds.{bound_with, bound_without};
ghost use Rattle.ix_flatmap.specs.laws.Bounds.{IsBound-clone};

use crate::flatmap::FlatMapFamily;
use crate::flatmap::search::{find_bytes, find_from, find_in_front};
use crate::map::{HeapIndex, InlineIndex, KeyIndex, Pair, PairIndex};
use ix_slottable::slottable::{MetaSlotTable, SlotTableKey, Storage};
use ix_tables::MemorySize;
use std::alloc::{AllocError, Allocator};
use std::convert::AsSlice;
use std::mem::size_of_val;

/// The index of a flat map: a bound, below which each pair lies. Keys are compared one by one.
///
/// A method that looks for a key compares it with the keys of the map in slot order, up to the equal key. It compares eight keys at
/// a time if no slot below the bound is free and keys take at most eight bytes. So it compares up to seven keys after the equal
/// key. Under the same condition it compares 32 keys at a time if there are 128 keys or more. In any case it compares no key twice.
/// A key that is looked up by its bytes is compared with one key at a time.
#[derive(Debug, Drop)]
pub struct Bound {
    /// Each slot with a pair is below this one.
    place: usize,
}

/// Keys of at most this many bytes are compared several at a time: a few comparisons take less time than a branch that is
/// mispredicted.
const MAX_KEY_SIZE: usize = 8;

impl<P> PairIndex<P> for Bound {
    ghost Fits = { λ index pairs. IsBound pairs index.place };
}

impl<K: Eq + Drop, V: Drop> KeyIndex<K, V> for Bound {
    type Seat = ();

    type Setup = ();

    ghost IsSeat = { λ index pairs key seat. ⊤ };

    ghost setup_of = { λ index. tt };

    #[inline]
    fn setup(&self) -> &() {
        &()
    }

    #[inline]
    fn seat<M: Storage<Pair<K, V>>>(&self, _pairs: &MetaSlotTable<Pair<K, V>, M>, _key: &K) {}

    #[inline(always)]
    fn find<'a, M: Storage<Pair<K, V>>>(
        &self,
        pairs: &'a MetaSlotTable<Pair<K, V>, M>,
        _seat: (),
        key: &K,
    ) -> Option<(SlotTableKey, &'a Pair<K, V>)> {
        // If there are as many keys as slots below the bound, each of these slots has a key.
        if size_of_val(key) <= MAX_KEY_SIZE && pairs.len() == self.place {
            find_in_front(pairs, self.place, key)
        } else {
            find_from(pairs, 0, self.place, key)
        }
    }

    ghost AreFoundBy = { λ bytes. ⊤ };

    #[inline]
    fn find_bytes<'a, M: Storage<Pair<K, V>>>(
        &self,
        pairs: &'a MetaSlotTable<Pair<K, V>, M>,
        bytes: &[u8],
    ) -> Option<(SlotTableKey, &'a Pair<K, V>)>
    where
        K: AsSlice<u8>,
    {
        find_bytes(pairs, self.place, bytes)
    }

    #[inline]
    fn insert<M: Storage<Pair<K, V>>>(
        &mut self,
        pairs: &mut MetaSlotTable<Pair<K, V>, M>,
        _seat: (),
        pair: Pair<K, V>,
    ) -> Result<SlotTableKey, Pair<K, V>>
        requires { IsBound pairs.old self.old.place }
        ensures step { SlotTableInsert pairs.old pair pairs.new (result_ok result) }
        ensures returned { IfErr result (λ refused. refused ≡ pair) }
        ensures fits { IsBound pairs.new self.new.place }
    {
        // So the bound does not overflow.
        prove!(pairs.capacity() <= usize::MAX);
        match pairs.try_insert(pair) {
            Ok(place) => {
                self.place = bound_with(self.place, place.value());
                Ok(place)
            }
            Err(pair) => Err(pair),
        }
    }

    #[inline]
    fn remove<M: Storage<Pair<K, V>>>(
        &mut self,
        pairs: &mut MetaSlotTable<Pair<K, V>, M>,
        _seat: (),
        place: SlotTableKey,
    ) -> Pair<K, V> {
        let pair = pairs.remove_unchecked(place);
        self.place = bound_without(self.place, place.value());
        pair
    }

    #[inline]
    fn clear<M: Storage<Pair<K, V>>>(&mut self, pairs: &mut MetaSlotTable<Pair<K, V>, M>)
        requires { IsBound pairs.old self.old.place }
        ensures pairs { pairs.new ≡ slot_table_clear pairs.old }
        ensures values { pairs.new.values ≡ replicate (length pairs.old.values) None }
        ensures count { held_count pairs.new ≡ 0 }
        ensures room { length pairs.new.free ≡ length pairs.old.values }
        ensures fits { IsBound pairs.new self.new.place }
        // So that a look-up after this visits no slot that was used before.
        ensures bound { self.new.place ≡ 0 }
    {
        pairs.clear();
        self.place = 0;
    }

    #[inline]
    fn bound<M: Storage<Pair<K, V>>>(&self, _pairs: &MetaSlotTable<Pair<K, V>, M>) -> usize {
        self.place
    }

    ghost Fits_equal_keys = { λ index pairs others same fits. IsBound-clone _ pairs others index.place same fits };
}

impl<K: Eq + Drop, V: Drop, const CAPACITY: usize> InlineIndex<K, V, CAPACITY> for Bound {
    #[inline]
    fn new_inline(_setup: ()) -> Self {
        Bound { place: 0 }
    }

    #[inline]
    fn copy_inline(&self, _setup: ()) -> Self {
        Bound { place: self.place }
    }
}

impl<K: Eq + Drop, V: Drop, A: Allocator + Copy> HeapIndex<K, V, A> for Bound {
    type In = Bound;

    type Family = FlatMapFamily<K, V>;

    ghost memory = { λ pairs capacity. pairs };

    #[inline]
    fn memory_size(pairs: MemorySize, _capacity: usize) -> MemorySize {
        pairs
    }

    #[inline]
    fn new_in(_alloc: A, _capacity: usize, _setup: ()) -> Result<Bound, AllocError> {
        Ok(Bound { place: 0 })
    }

    #[inline]
    fn copy_in(&self, _alloc: A, _setup: ()) -> Result<Bound, AllocError> {
        Ok(Bound { place: self.place })
    }
}

/// Returns a bound that is above each slot with a pair, and above this slot too.
#[inline]
fn bound_with(bound: usize, place: usize) -> usize
    requires { place + 1 ≤ 18446744073709551615 }
    ensures { result ≡ bound_with bound place }
{
    if place < bound { bound } else { place + 1 }
}

/// Returns a bound that is above each slot with a pair, except this one, which was below `bound`.
#[inline]
fn bound_without(bound: usize, place: usize) -> usize
    requires { place < bound }
    ensures { result ≡ bound_without bound place }
{
    if place + 1 == bound { place } else { bound }
}

//! The methods of a map that iterate over all of its pairs.
ghost use Rattle.std.specs.Prelude.{◌≡◌, ◌↔◌, ◌+◌, ◌<◌, ◌≤◌, Bool, filter, length, map, option_map, drop, IsTrue, IsSome, Some};
ghost use Rattle.std.specs.Borrow.{MutBor};
ghost use Rattle.std.specs.List.{FoldsTo};
ghost use Rattle.ix_slottable.specs.SlotTableState.{value_at, IsHeld, held_count, entries_from};
ghost use Rattle.ix_slottable.specs.SlotTableSteps.{slot_table_set, SlotTableRemove};
ghost use Rattle.ix_slottable.specs.SlotTableCalls.{CalledOn, IsCallableOnEach, ComputesTest, ComputesValue, ChangesItem, RetainsItem, option_filter};
ghost use Rattle.ix_flatmap.specs.MapState.{HasDistinctKeys, map_value, map_keys, map_items, IsBound};
ghost use Rattle.ix_flatmap.specs.MapSteps.{map_set, map_remove};
ghost use Rattle.ix_flatmap.specs.MapCalls.{CallAtKey, TakesKey};
ghost use Rattle.ix_flatmap.specs.declared.map.pair.Pair.{Pair};

use crate::map::{KeyIndex, MetaMap, Pair};
use ix_slottable::slottable::{SlotTableKey, Storage};

impl<K: Eq + Drop, V: Drop, M: Storage<Pair<K, V>>, I: KeyIndex<K, V>> MetaMap<Pair<K, V>, M, I> {
    /// Calls `f` with each key in slot order and a mutable reference to its value. O(capacity), with one call for each key.
    pub fn for_each_mut<F: FnMut(&K, &mut V)>(&mut self, mut f: F)
        requires { IsCallableOnEach (CallAtKey F.step) (TakesKey F.pre) f (map_items self.old) }
        ensures calls { (last : F) × FoldsTo (ChangesItem (map_set K.eq) (CallAtKey F.step))
            (f, self.old) (map_items self.old) (last, self.new) }
        // If the closure computes a new value and does not change itself, each key has its new value.
        ensures mapped { (change : K × V → K × V)
            → ((key : K) (value left : V) (next : F)
            → CalledOn (CallAtKey F.step) f key value tt left next
            → ((key, left) ≡ change (key, value)) × (next ≡ f))
            → map_items self.new ≡ map change (map_items self.old) }
        // If it computes the new value from the old one alone, a look-up of a key finds its new value.
        ensures values { (change : V → V) → ComputesValue (CallAtKey F.step) f (λ key. change)
            → (key : K) → map_value K.eq self.new key ≡ option_map change (map_value K.eq self.old key) }
        ensures keys { map_keys self.new ≡ map_keys self.old }
        ensures free { self.new.free ≡ self.old.free }
        ensures distinct { HasDistinctKeys K.eq self.new }
        ensures capacity { length self.new.values ≡ length self.old.values }
        ensures known { M.Items.Table.IsLen (length self.old.values) }
    {
        for number in 0..self.bound() {
            let place = SlotTableKey::new(number);
            if !self.has_pair(place) {
                continue;
            }
            self.call_at(place, &mut f);
        }
    }

    /// Keeps the keys for which `f` returns `true`. Removes the other keys, as [`MetaMap::remove`] does, and drops them with their
    /// values. O(capacity), on average in a hash map, with one call for each key.
    ///
    /// Calls `f` with each key in slot order and a mutable reference to its value. A key for which it returns `false` is removed
    /// right after that call.
    pub fn retain<F: FnMut(&K, &mut V) -> bool>(&mut self, mut f: F)
        requires { IsCallableOnEach (CallAtKey F.step) (TakesKey F.pre) f (map_items self.old) }
        ensures calls { (last : F) × FoldsTo (RetainsItem (map_set K.eq) (map_remove K.eq) (CallAtKey F.step))
            (f, self.old) (map_items self.old) (last, self.new) }
        // If the closure computes a test and changes neither the value nor itself, the pairs that pass the test are kept.
        ensures filtered { (test : K × V → Bool)
            → ComputesTest (CallAtKey F.step) f (λ key value. test (key, value))
            → map_items self.new ≡ filter test (map_items self.old) }
        // If it tests the value alone, each key has its value if that value passes the test.
        ensures values { (test : V → Bool) → ComputesTest (CallAtKey F.step) f (λ key. test)
            → (key : K) → map_value K.eq self.new key ≡ option_filter test (map_value K.eq self.old key) }
        // A key that the map has was there before.
        ensures keys { (key : K) → IsSome (map_value K.eq self.new key)
            → IsSome (map_value K.eq self.old key) }
        ensures distinct { HasDistinctKeys K.eq self.new }
        ensures capacity { length self.new.values ≡ length self.old.values }
        ensures count { held_count self.new ≤ held_count self.old }
        // The number of free slots grows by the number of keys that are gone.
        ensures room { held_count self.new + length self.new.free ≡ held_count self.old + length self.old.free }
        ensures known { M.Items.Table.IsLen (length self.old.values) }
    {
        for number in 0..self.bound() {
            let place = SlotTableKey::new(number);
            if !self.has_pair(place) {
                continue;
            }
            if !self.call_at(place, &mut f) {
                drop(self.remove_at(place));
            }
        }
    }

    /// Returns a bound: no slot from there on has a pair.
    #[inline]
    fn bound(&self) -> usize
        ensures bound { IsBound self.now result }
        ensures distinct { HasDistinctKeys K.eq self.now }
        ensures known { M.Items.Table.IsLen (length self.now.values) }
    {
        let bound = self.index.bound(&self.pairs);
        prove!(bound <= self.pairs.capacity());
        bound
    }

    /// Returns `true` if a slot has a pair.
    #[inline]
    fn has_pair(&self, place: SlotTableKey) -> bool
        ensures value { IsTrue result ↔ IsHeld self.now place }
        ensures distinct { HasDistinctKeys K.eq self.now }
    {
        self.pairs.contains(place)
    }

    /// Returns the least slot from `start` on that has a pair. There must be one.
    #[inline]
    pub(crate) fn held_from(&self, start: usize) -> usize
        requires { 0 < length (entries_from start (drop start self.now.values)) }
        ensures held { IsHeld self.now result }
        ensures below { result + 1 ≤ 18446744073709551615 }
        ensures entries { entries_from result (drop result self.now.values)
            ≡ entries_from start (drop start self.now.values) }
    {
        self.pairs.held_from(start)
    }

    /// Calls `f` with the key in a slot that has a pair, and a mutable reference to its value.
    #[inline]
    fn call_at<R, F: FnMut(&K, &mut V) -> R>(&mut self, place: SlotTableKey, f: &mut F) -> R
        requires held { IsHeld self.old place }
        requires callable { (pair : Pair K V) (shown : MutBor V)
            → value_at self.old place ≡ Some pair
            → shown.now ≡ pair.value → TakesKey F.pre f.old pair.key shown }
        ensures called { (pair : Pair K V) → value_at self.old place ≡ Some pair
            → (left : V) × CalledOn (CallAtKey F.step) f.old pair.key pair.value result left f.new
            × (self.new ≡ slot_table_set self.old place (record pair { value = left })) }
        ensures distinct { HasDistinctKeys K.eq self.new }
    {
        let pair = self.pairs.get_unchecked_mut(place);
        f(&pair.key, &mut pair.value)
    }

    /// Removes the pair in a slot that has one, and returns it.
    #[inline]
    pub(crate) fn remove_at(&mut self, place: SlotTableKey) -> Pair<K, V>
        requires { IsHeld self.old place }
        ensures step { SlotTableRemove self.old place self.new (Some result) }
        ensures distinct { HasDistinctKeys K.eq self.new }
    {
        let pair = self.pairs.get_unchecked(place);
        let seat = self.index.seat(&self.pairs, &pair.key);
        self.index.remove(&mut self.pairs, seat, place)
    }
}

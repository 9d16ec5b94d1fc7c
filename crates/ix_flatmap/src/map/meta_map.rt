//! The map over any two tables and any index.
ghost use Rattle.std.specs.Prelude.{◌≡◌, ◌↔◌, ◌+◌, ◌<◌, ◌≤◌, ℕ, [], length, Some, None, IsSome, IsTrue, IsNone, IsOk, IfSome, IfOk, OnErr, option_copied, option_map, replicate, slice_get, false, true};
ghost use Rattle.std.specs.Borrow.{sem, Lends, LendsIf};
ghost use Rattle.std.specs.Option.{option_copied_mut};
ghost use Rattle.std.specs.Map.{keys_of, lookup};
ghost use Rattle.ix_tables.specs.Cloning.{AreEqualClones};
ghost use Rattle.ix_slottable.specs.SlotTableState.{IsWellFormed, IsHeld, value_at, held_count};
ghost use Rattle.ix_slottable.specs.SlotTableSteps.{slot_table_clear};
ghost use Rattle.ix_flatmap.specs.MapState.{AreEqualByBytes, HasDistinctKeys, has_bytes, map_entry, map_value, map_keys, map_values, map_item, map_items};
ghost use Rattle.ix_flatmap.specs.MapSteps.{map_insert_result, map_insert, pair_set, map_set, map_remove, ListsUntilStop};

use crate::map::{
    CallbackProgression, Iter, KeyIndex, Keyed, Keys, MapError, Pair, PairIndex, Values,
};
use ix_slottable::slottable::{MetaSlotTable, SlotTableKey, Storage};
use ix_tables::Table;
use std::alloc::AllocError;
use std::convert::AsSlice;
use std::fmt::{self, Debug, Formatter, Write};
use std::marker::Model;

/// A map from keys to values, with its memory in a storage `M` and an index `I`, by which it finds keys. Keys are
/// compared by their `Eq`. Contracts see a slot table of pairs, in which no two keys are equal.
///
/// A pair stays in its slot until it is removed. A new pair takes the first free slot: the slot vacated last, or else the least
/// slot that was never used. Slot order is the rising order of the slots' numbers.
///
/// A method that looks for a key takes the time of the index. Any other method takes O(1) time unless its docs say otherwise. Only
/// the functions that make a map, and clones of a value, allocate. Dropping a map drops its pairs in slot order, in O(capacity)
/// time.
///
/// Make a map by the name of its kind: `FlatMap` and its like, whose index is [`Bound`](crate::flatmap::Bound), or `HashMap` and
/// its like of `ix_hashmap`.
#[derive(Drop)]
pub struct MetaMap<P: Keyed, M: Storage<P>, I: PairIndex<P>> {
    pub(crate) pairs: MetaSlotTable<P, M>,
    pub(crate) index: I,
}

impl<P: Keyed, M: Storage<P>, I: PairIndex<P>> Model for MetaMap<P, M, I> {
    ghost use Rattle.ix_slottable.specs.SlotTableState.{SlotTableState, slot_table_state_code};
    ghost use Rattle.ix_flatmap.specs.MapState.{AreDistinctBy};

    ghost Value = { SlotTableState P };

    ghost coded = { slot_table_state_code P.code };

    ghost view = { λ map. map.pairs };

    ghost invariant = { λ map. AreDistinctBy P.has_key_of map.pairs × I.Fits map.index map.pairs };
}

impl<K: Eq + Drop, V: Drop, M: Storage<Pair<K, V>>, I: KeyIndex<K, V>> MetaMap<Pair<K, V>, M, I> {
    ghost use Rattle.ix_flatmap.specs.contracts.map.meta_map.MetaMap.{the_row};
    ghost use Rattle.ix_flatmap.specs.contracts.map.pair.Pair as pair;

    /// Inserts `key` with `value`.
    ///
    /// Returns [`MapError::KeyAlreadyExists`] if the map has an equal key, and otherwise [`MapError::IsFull`] if
    /// it is full. `key` and `value` are dropped then.
    pub fn insert(&mut self, key: K, value: V) -> Result<(), MapError>
        ensures value { result ≡ map_insert_result K.eq self.old key }
        ensures map { self.new ≡ map_insert K.eq self.old key value }
        ensures absent { IsOk result → map_value K.eq self.old key ≡ None }
        ensures holds { IsOk result → map_value K.eq self.new key ≡ Some value }
        ensures refused { OnErr result (self.new ≡ self.old) }
        ensures kept { (other : K) → K.eq other key ≡ false
            → map_value K.eq self.new other ≡ map_value K.eq self.old other }
        ensures distinct { HasDistinctKeys K.eq self.new }
        ensures count { IsOk result → held_count self.new ≡ held_count self.old + 1 }
        ensures room { IsOk result → length self.new.free + 1 ≡ length self.old.free }
        ensures known { M.Items.Table.IsLen (length self.old.values) }
    {
        match self.try_insert(key, value) {
            Ok(()) => Ok(()),
            Err((error, _, _)) => Err(error),
        }
    }

    /// Returns a clone of the value of `key`, or `None` if the map has no equal key.
    ///
    /// Returns `AllocError` if cloning the value fails. [`MetaMap::get_ref`] clones nothing.
    #[inline]
    pub fn get(&self, key: &K) -> Result<Option<V>, AllocError>
    where
        V: Clone,
        requires clones { AreEqualClones V.is_clone }
        ensures value { IfOk result (λ value. value ≡ map_value K.eq self.now key.now) }
        ensures memory { IfSome (map_value K.eq self.now key.now) V.is_infallible → IsOk result }
        ensures known { M.Items.Table.IsLen (length self.now.values) }
    {
        match self.get_ref(key) {
            Some(value) => Ok(Some(value.clone()?)),
            None => Ok(None),
        }
    }

    /// Returns a reference to the value of `key`, or `None` if the map has no equal key.
    #[must_use]
    #[inline]
    pub fn get_ref(&self, key: &K) -> Option<&V>
        ensures value { option_copied result ≡ map_value K.eq self.now key.now }
        // The key's value is the value of the one pair whose key equals it.
        ensures found { (place : ℕ) (pair : Pair K V) → value_at self.now place ≡ Some pair
            → K.eq pair.key key.now ≡ true → option_copied result ≡ Some pair.value }
        ensures absent { IsNone result ↔ ((place : ℕ) (pair : Pair K V)
            → value_at self.now place ≡ Some pair → K.eq pair.key key.now ≡ false) }
        ensures known { M.Items.Table.IsLen (length self.now.values) }
    {
        match self.find(key) {
            Some((_, pair)) => Some(&pair.value),
            None => None,
        }
    }

    /// Returns a reference to the value of the key with these bytes, or `None` if the map has none. The bytes are not copied.
    ///
    /// Keys must be equal exactly if their bytes are. The keys of a hash map must feed a hasher their bytes in one write, as
    /// strings do.
    #[must_use]
    #[inline]
    pub fn get_bytes(&self, bytes: &[u8]) -> Option<&V>
    where
        K: AsSlice<u8>,
        requires equal { AreEqualByBytes K.eq K.items }
        requires found { I.AreFoundBy K.items }
        ensures value { option_copied result ≡ map_value (has_bytes K.items) self.now bytes.now }
        // That is the value of each key with these bytes.
        ensures key { (key : K) → K.items key ≡ bytes.now
            → option_copied result ≡ map_value K.eq self.now key }
        ensures known { M.Items.Table.IsLen (length self.now.values) }
    {
        // Names the number of keys, so that the check knows that no two keys are equal.
        let _len = self.len();
        let Some((_, pair)) = self.index.find_bytes(&self.pairs, bytes) else {
            return None;
        };
        Some(&pair.value)
    }

    /// Returns a reference to the value of the key with the bytes of `text`, as [`MetaMap::get_bytes`] does.
    #[must_use]
    #[inline]
    pub fn get_str(&self, text: &str) -> Option<&V>
    where
        K: AsSlice<u8>,
        requires equal { AreEqualByBytes K.eq K.items }
        requires found { I.AreFoundBy K.items }
        ensures value { option_copied result ≡ map_value (has_bytes K.items) self.now text.now }
        // That is the value of each key with these bytes.
        ensures key { (key : K) → K.items key ≡ text.now
            → option_copied result ≡ map_value K.eq self.now key }
        ensures known { M.Items.Table.IsLen (length self.now.values) }
    {
        self.get_bytes(text.as_bytes())
    }

    /// Returns references to the equal key of the map and to its value, or `None` if the map has no equal key.
    #[must_use]
    #[inline]
    pub fn get_key_value(&self, key: &K) -> Option<(&K, &V)>
        ensures value { option_map (λ item. (item.0.now, item.1.now)) result
            ≡ option_map (λ entry. map_item entry) (map_entry K.eq self.now key.now) }
        ensures known { M.Items.Table.IsLen (length self.now.values) }
    {
        match self.find(key) {
            Some((_, pair)) => Some((&pair.key, &pair.value)),
            None => None,
        }
    }

    /// Returns a mutable reference to the value of `key`, or `None` if the map has no equal key.
    #[inline]
    pub fn get_mut_ref(&mut self, key: &K) -> Option<&mut V>
        ensures* writes_back { sem 𝓛
            (LendsIf (the_row (pair.the_row K.row V.row) M.row I.row M.Items.row M.Links.row ⟦<Pair<K, V> as Keyed>⟧ M.Items.Table M.Links.Table I.PairIndex)
            V.row self.entry result (map_set K.eq self.old key.now) self.old) }
        ensures value { option_copied_mut result ≡ map_value K.eq self.old key.now }
        // Whatever value is written, the key has it, and any other key keeps its own.
        ensures holds { (written : V) → IsSome (map_value K.eq self.old key.now)
            → map_value K.eq (map_set K.eq self.old key.now written) key.now ≡ Some written }
        ensures kept { (written : V) (other : K) → K.eq other key.now ≡ false
            → map_value K.eq (map_set K.eq self.old key.now written) other
            ≡ map_value K.eq self.old other }
        ensures known { M.Items.Table.IsLen (length self.old.values) }
    {
        let seat = seat(&self.index, &self.pairs, key);
        match self.index.place(&self.pairs, seat, key) {
            Some(place) => Some(self.value_mut(place)),
            None => None,
        }
    }

    /// Removes `key` and returns its value, or `None` if the map has no equal key. The next new key takes its slot.
    pub fn remove(&mut self, key: &K) -> Option<V>
        ensures value { result ≡ map_value K.eq self.old key.now }
        ensures map { self.new ≡ map_remove K.eq self.old key.now }
        ensures gone { map_value K.eq self.new key.now ≡ None }
        ensures refused { IsNone result → self.new ≡ self.old }
        ensures kept { (other : K) → K.eq other key.now ≡ false
            → map_value K.eq self.new other ≡ map_value K.eq self.old other }
        ensures distinct { HasDistinctKeys K.eq self.new }
        ensures count { IsSome result → held_count self.new + 1 ≡ held_count self.old }
        ensures room { IsSome result → length self.new.free ≡ length self.old.free + 1 }
        ensures known { M.Items.Table.IsLen (length self.old.values) }
    {
        let (_, value) = self.remove_entry(key)?;
        Some(value)
    }

    /// Removes `key` and returns the equal key of the map with its value, or `None` if the map has none. The next new key takes
    /// its slot.
    pub fn remove_entry(&mut self, key: &K) -> Option<(K, V)>
        ensures value { result ≡ option_map (λ entry. map_item entry) (map_entry K.eq self.old key.now) }
        ensures map { self.new ≡ map_remove K.eq self.old key.now }
        ensures gone { map_value K.eq self.new key.now ≡ None }
        ensures refused { IsNone result → self.new ≡ self.old }
        ensures kept { (other : K) → K.eq other key.now ≡ false
            → map_value K.eq self.new other ≡ map_value K.eq self.old other }
        ensures distinct { HasDistinctKeys K.eq self.new }
        ensures count { IsSome result → held_count self.new + 1 ≡ held_count self.old }
        ensures room { IsSome result → length self.new.free ≡ length self.old.free + 1 }
        ensures known { M.Items.Table.IsLen (length self.old.values) }
    {
        let seat = seat(&self.index, &self.pairs, key);
        let place = self.index.place(&self.pairs, seat, key)?;
        let pair = self.index.remove(&mut self.pairs, seat, place);
        Some((pair.key, pair.value))
    }

    /// Removes all keys and drops them with their values, in slot order. O(capacity).
    ///
    /// The free slots are in the same order as if [`MetaMap::remove`] was called with each key in slot order. So the next new key
    /// takes the slot of the last key.
    pub fn clear(&mut self)
        ensures map { self.new ≡ slot_table_clear self.old }
        ensures values { self.new.values ≡ replicate (length self.old.values) None }
        ensures empty { (key : K) → map_value K.eq self.new key ≡ None }
        ensures count { held_count self.new ≡ 0 }
        ensures room { length self.new.free ≡ length self.old.values }
    {
        self.index.clear(&mut self.pairs);
    }

    /// Returns the maximum number of keys. O(1).
    #[must_use]
    #[inline]
    pub fn capacity(&self) -> usize
        ensures value { result ≡ length self.now.values }
        // The type of an inline map fixes its capacity: every method says so.
        ensures known { M.Items.Table.IsLen (length self.now.values) }
    {
        self.pairs.capacity()
    }

    /// Returns `true` if the map has no key. O(1).
    #[must_use]
    #[inline]
    pub fn is_empty(&self) -> bool
        ensures value { IsTrue result ↔ (held_count self.now ≡ 0) }
        ensures known { M.Items.Table.IsLen (length self.now.values) }
    {
        self.pairs.is_empty()
    }

    /// Returns `true` if there is no room for another key. A map of capacity 0 is both empty and full. O(1).
    #[must_use]
    #[inline]
    pub fn is_full(&self) -> bool
        ensures value { IsTrue result ↔ (held_count self.now ≡ length self.now.values) }
        ensures free { IsTrue result ↔ (self.now.free ≡ []) }
        ensures known { M.Items.Table.IsLen (length self.now.values) }
    {
        self.pairs.is_full()
    }

    /// Returns how many more keys there is room for. O(1).
    #[must_use]
    #[inline]
    pub fn remaining_capacity(&self) -> usize
        ensures value { result ≡ length self.now.free }
        ensures full { result ≡ 0 ↔ (self.now.free ≡ []) }
        ensures known { M.Items.Table.IsLen (length self.now.values) }
    {
        self.pairs.remaining_capacity()
    }

    /// Returns `true` if the map has an equal key.
    #[must_use]
    #[inline]
    pub fn contains(&self, key: &K) -> bool
        ensures value { IsTrue result ↔ IsSome (map_value K.eq self.now key.now) }
        ensures known { M.Items.Table.IsLen (length self.now.values) }
    {
        self.find(key).is_some()
    }

    /// Returns the number of keys. O(1).
    #[must_use]
    #[inline]
    pub fn len(&self) -> usize
        ensures value { result ≡ held_count self.now }
        ensures rest { held_count self.now + length self.now.free ≡ length self.now.values }
        // These hold of every map, whatever methods were called.
        ensures formed { IsWellFormed self.now }
        ensures distinct { HasDistinctKeys K.eq self.now }
        ensures known { M.Items.Table.IsLen (length self.now.values) }
    {
        self.pairs.len()
    }

    /// Calls `callback` with each key in slot order, until it returns [`CallbackProgression::Stop`]. O(capacity).
    pub fn list_keys<F: FnMut(&K) -> CallbackProgression>(&self, mut callback: F)
        requires { F.IsAlwaysCallable callback }
        ensures calls { (last : F) × ListsUntilStop F.FnMut callback (map_keys self.now) last }
        ensures known { M.Items.Table.IsLen (length self.now.values) }
    {
        self.list_with(&mut callback);
    }

    /// Does what [`MetaMap::list_keys`] does, and leaves `callback` as its last call left it. O(capacity).
    ///
    /// A caller then knows the changes that the calls made, and that no call came after [`CallbackProgression::Stop`].
    #[inline]
    pub fn list_with<F: FnMut(&K) -> CallbackProgression>(&self, callback: &mut F)
        requires { F.IsAlwaysCallable callback.old }
        ensures calls { ListsUntilStop F.FnMut callback.old (map_keys self.now) callback.new }
        ensures known { M.Items.Table.IsLen (length self.now.values) }
    {
        for key in self.keys() {
            match callback(key) {
                CallbackProgression::Continue => {}
                CallbackProgression::Stop => return,
            }
        }
    }

    /// Returns an iterator over the keys in slot order. O(1), and O(capacity) for all of its items together.
    #[must_use]
    #[inline]
    pub fn keys(&self) -> Keys<'_, K, V, M>
        ensures keys { result ≡ map_keys self.now }
        ensures known { M.Items.Table.IsLen (length self.now.values) }
    {
        Keys::new(self.pairs.iter())
    }

    /// Returns an iterator over the values in slot order of their keys. O(1), and O(capacity) for all of its items together.
    #[must_use]
    #[inline]
    pub fn values(&self) -> Values<'_, K, V, M>
        ensures values { result ≡ map_values self.now }
        ensures known { M.Items.Table.IsLen (length self.now.values) }
    {
        Values::new(self.pairs.iter())
    }

    /// Returns an iterator over the keys in slot order, each with its value. O(1), and O(capacity) for all of its items
    /// together.
    #[must_use]
    #[inline]
    pub fn iter(&self) -> Iter<'_, K, V, M>
        ensures items { result ≡ map_items self.now }
        ensures keys { keys_of result ≡ map_keys self.now }
        ensures distinct { HasDistinctKeys K.eq self.now }
        // A key comes with its value exactly if the map has an equal key.
        ensures exactly { (key : K)
            → lookup (λ other. K.eq other key) result ≡ map_value K.eq self.now key }
        ensures known { M.Items.Table.IsLen (length self.now.values) }
    {
        Iter::new(self.pairs.iter())
    }

    /// Returns the key that [`MetaMap::list_keys`] lists after `n` others, or `None` if there are at most `n` keys. O(capacity).
    #[must_use]
    pub fn nth_key(&self, n: usize) -> Option<&K>
        ensures value { option_copied result ≡ slice_get (map_keys self.now) n }
        ensures known { M.Items.Table.IsLen (length self.now.values) }
    {
        self.keys().nth(n)
    }

    /// Returns the slot of the key that equals `key`, and the pair there.
    #[inline(always)]
    fn find(&self, key: &K) -> Option<(SlotTableKey, &Pair<K, V>)>
        ensures value { option_map (λ entry. (entry.0, entry.1.now)) result
            ≡ map_entry K.eq self.now key.now }
        ensures distinct { HasDistinctKeys K.eq self.now }
        ensures known { M.Items.Table.IsLen (length self.now.values) }
    {
        let seat = seat(&self.index, &self.pairs, key);
        self.index.find(&self.pairs, seat, key)
    }

    /// Returns a mutable reference to the value in a slot that has a pair.
    #[inline]
    pub(crate) fn value_mut(&mut self, place: SlotTableKey) -> &mut V
        requires { IsHeld self.old place }
        ensures* writes_back { sem 𝓛
            (Lends (the_row (pair.the_row K.row V.row) M.row I.row M.Items.row M.Links.row ⟦<Pair<K, V> as Keyed>⟧ M.Items.Table M.Links.Table I.PairIndex)
            V.row self.entry result (pair_set self.old place)) }
        ensures value { option_map (λ pair. pair.value) (value_at self.old place)
            ≡ Some result.now }
    {
        &mut self.pairs.get_unchecked_mut(place).value
    }
}

/// Returns where `key` belongs in a map of these pairs.
#[inline(always)]
pub(crate) fn seat<K: Eq + Drop, V: Drop, M: Storage<Pair<K, V>>, I: KeyIndex<K, V>>(
    index: &I,
    pairs: &MetaSlotTable<Pair<K, V>, M>,
    key: &K,
) -> I::Seat
    requires { I.PairIndex.Fits index.now pairs.now }
    ensures seat { I.IsSeat index.now pairs.now key.now result }
    ensures equal { IfSome (map_entry K.eq pairs.now key.now) (λ entry.
        I.IsSeat index.now pairs.now entry.1.key result) }
    ensures known { M.Items.Table.IsLen (length pairs.now.values) }
{
    // Names the capacity, so that the check knows its contract.
    let _capacity = pairs.capacity();
    index.seat(pairs, key)
}

/// Prints a map from the keys to their values, in slot order. O(capacity).
impl<K: Eq + Debug, V: Debug, M: Storage<Pair<K, V>>, I: PairIndex<Pair<K, V>>> Debug
    for MetaMap<Pair<K, V>, M, I> {
    fn fmt<W: Write>(&self, f: &mut Formatter<W>) -> fmt::Result {
        f.debug_map().entries(Iter::new(self.pairs.iter())).finish()
    }
}

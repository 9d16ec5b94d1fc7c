//! The methods of a slot map that iterate over all of its values.
ghost use Rattle.std.specs.Prelude.{◌≡◌, ◌≢◌, ◌+◌, ◌<◌, ◌≤◌, ◌↔◌, ◌⊎◌, ℕ, length, map, None, IsSome, Bool, option_map};
ghost use Rattle.std.specs.List.{FoldsTo};
ghost use Rattle.std.specs.Map.{keys_of};
ghost use Rattle.ix_slottable.specs.SlotTableState.{value_at};
ghost use Rattle.ix_slotmap.specs.Generations.{SlotKey, generation_at, key_at, place_value, slot_map_value, IsDead, retired_count, slot_map_len, slot_map_entries};
ghost use Rattle.ix_slotmap.specs.SlotMapSteps.{slot_map_set, slot_map_remove, slot_map_clear, SlotMapRemove};
ghost use Rattle.ix_slottable.specs.SlotTableCalls.{IsCallableOnEach, ComputesTest, ComputesValue, ChangesItem, RetainsItem, option_filter};

use crate::slotmap::{Keys, MetaSlotMap, SlotMapKey, SlotMapStorage, Values};
use ix_tables::{MaybeMoved, Touches};

impl<T, M: SlotMapStorage<MaybeMoved<T>>> MetaSlotMap<T, MaybeMoved<T>, M> {
    /// Removes all values and drops them, the value of the least index first. O(capacity).
    ///
    /// The map is as if [`MetaSlotMap::remove`] was called with each held key in turn. Each of these keys is dead. The slot whose
    /// value was dropped last is the first free slot, if it is not retired.
    pub fn clear(&mut self)
    where
        T: Drop,
        ensures map { self.new ≡ slot_map_clear self.old }
        ensures empty { (key : SlotKey) → slot_map_value self.new key ≡ None }
        ensures killed { (key : SlotKey) → IsSome (slot_map_value self.old key) → IsDead self.new key }
        ensures dead { (key : SlotKey) → IsDead self.old key → IsDead self.new key }
        ensures capacity { length self.new.slots.values ≡ length self.old.slots.values }
        ensures count { slot_map_len self.new ≡ 0 }
        // Each slot is free then, or retired.
        ensures room { retired_count self.new + length self.new.slots.free ≡ length self.old.slots.values }
        ensures grows { length self.old.slots.free ≤ length self.new.slots.free }
        ensures known { M.Slots.Items.Table.IsLen (length self.old.slots.values) }
    {
        for place in 0..self.slots.capacity() {
            drop(self.remove_at(place));
        }
        prove!(self.len() == 0);
    }

    /// Returns an iterator over the held keys in rising order of their indexes. O(1), and O(capacity) for all of its items
    /// together.
    #[must_use]
    #[inline]
    pub fn keys(&self) -> Keys<'_, T, M>
        ensures keys { result ≡ keys_of (slot_map_entries self.now) }
        ensures known { M.Slots.Items.Table.IsLen (length self.now.slots.values) }
    {
        Keys::new(self.iter())
    }

    /// Returns an iterator over the values in rising order of the indexes of their keys. O(1), and O(capacity) for all of its
    /// items together.
    #[must_use]
    #[inline]
    pub fn values(&self) -> Values<'_, T, M>
        ensures values { result ≡ map (λ item. item.1) (slot_map_entries self.now) }
        ensures known { M.Slots.Items.Table.IsLen (length self.now.slots.values) }
    {
        Values::new(self.iter())
    }

    /// Calls `f` with each held key in rising order of the indexes and a mutable reference to its value. O(capacity), with one
    /// call for each value.
    pub fn for_each_mut<F: FnMut(SlotMapKey, &mut T)>(&mut self, mut f: F)
        requires { IsCallableOnEach F.step F.pre f (slot_map_entries self.old) }
        ensures calls { (last : F) × FoldsTo (ChangesItem slot_map_set F.step)
            (f, self.old) (slot_map_entries self.old) (last, self.new) }
        // If the closure computes a new value from the old one and does not change itself, each key has its new value.
        ensures mapped { (change : T → T) → ComputesValue F.step f (λ key. change) → (key : SlotKey)
            → slot_map_value self.new key ≡ option_map change (slot_map_value self.old key) }
        ensures keys { (key : SlotKey) →
            IsSome (slot_map_value self.new key) ↔ IsSome (slot_map_value self.old key) }
        ensures free { self.new.slots.free ≡ self.old.slots.free }
        ensures generations { self.new.generations ≡ self.old.generations }
        ensures dead { (key : SlotKey) → IsDead self.old key → IsDead self.new key }
        ensures capacity { length self.new.slots.values ≡ length self.old.slots.values }
        ensures known { M.Slots.Items.Table.IsLen (length self.old.slots.values) }
    {
        for index in 0..self.capacity() {
            if !self.has_value(index, &mut Touches::new()) {
                continue;
            }
            let key = self.key_of(index, &mut Touches::new());
            f(key, self.value_mut(index));
        }
    }

    /// Keeps the keys for which `f` returns `true`. Removes the other keys, as [`MetaSlotMap::remove`] does, and drops their
    /// values. O(capacity), with one call for each value.
    ///
    /// Calls `f` with each held key in rising order of the indexes and a mutable reference to its value. A key for which it returns
    /// `false` is removed right after that call.
    pub fn retain<F: FnMut(SlotMapKey, &mut T) -> bool>(&mut self, mut f: F)
    where
        T: Drop,
        requires { IsCallableOnEach F.step F.pre f (slot_map_entries self.old) }
        ensures calls { (last : F) × FoldsTo (RetainsItem slot_map_set slot_map_remove F.step)
            (f, self.old) (slot_map_entries self.old) (last, self.new) }
        // If the closure computes a test and changes neither the value nor itself, the values that pass the test are kept.
        ensures filtered { (test : T → Bool) → ComputesTest F.step f (λ key. test) → (key : SlotKey)
            → slot_map_value self.new key ≡ option_filter test (slot_map_value self.old key) }
        // A key that was held still is held, or it is dead.
        ensures removed { (key : SlotKey) → IsSome (slot_map_value self.old key)
            → IsSome (slot_map_value self.new key) ⊎ IsDead self.new key }
        ensures dead { (key : SlotKey) → IsDead self.old key → IsDead self.new key }
        ensures capacity { length self.new.slots.values ≡ length self.old.slots.values }
        ensures count { slot_map_len self.new ≤ slot_map_len self.old }
        ensures grows { length self.old.slots.free ≤ length self.new.slots.free }
        ensures known { M.Slots.Items.Table.IsLen (length self.old.slots.values) }
    {
        for index in 0..self.capacity() {
            if !self.has_value(index, &mut Touches::new()) {
                continue;
            }
            let key = self.key_of(index, &mut Touches::new());
            if !f(key, self.value_mut(index)) {
                drop(self.remove_held(index, &mut Touches::new()));
            }
        }
    }

    /// Removes the key of a slot and returns its value, or `None` if no value is there.
    #[inline]
    fn remove_at(&mut self, index: usize) -> Option<T>
        requires within { index < length self.old.slots.values }
        requires fits { length self.old.slots.values ≤ 18446744073709551615 }
        ensures { SlotMapRemove self.old (key_at self.old index) self.new result }
    {
        let mut touches = Touches::new();
        if !self.has_value(index, &mut touches) {
            return None;
        }
        Some(self.remove_held(index, &mut touches))
    }
}

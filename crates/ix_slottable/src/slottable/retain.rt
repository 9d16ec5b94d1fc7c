//! The methods of a slot table that iterate over all of its values.
ghost use Rattle.std.specs.Prelude.{◌≡◌, ◌↔◌, ℕ, ◌+◌, ◌≤◌, length, map, replicate, None, Bool, option_map};
ghost use Rattle.std.specs.List.{FoldsTo};
ghost use Rattle.std.specs.Map.{keys_of};
ghost use Rattle.ix_slottable.specs.SlotTableState.{IsHeld, held_count, entries, value_at};
ghost use Rattle.ix_slottable.specs.SlotTableSteps.{slot_table_set, slot_table_remove, slot_table_clear};
ghost use Rattle.ix_slottable.specs.SlotTableCalls.{IsCallableOnEach, ComputesTest, ComputesValue, ChangesItem, RetainsItem, option_filter};

use crate::slottable::{Keys, MetaSlotTable, SlotTableKey, Storage, Values};

impl<T, M: Storage<T>> MetaSlotTable<T, M> {
    /// Removes all values and drops them, the value of the least key first. Every key is free then. O(capacity).
    ///
    /// The free keys are in the same order as if [`MetaSlotTable::remove`] was called with each key in turn. So the key whose value
    /// was dropped last is the first free key.
    pub fn clear(&mut self)
    where
        T: Drop,
        ensures map { self.new ≡ slot_table_clear self.old }
        ensures values { self.new.values ≡ replicate (length self.old.values) None }
        ensures empty { (key : ℕ) → value_at self.new key ≡ None }
        ensures count { held_count self.new ≡ 0 }
        ensures room { length self.new.free ≡ length self.old.values }
        ensures known { M.Items.Table.IsLen (length self.old.values) }
    {
        for key in 0..self.values.len() {
            drop(self.remove(SlotTableKey::new(key)));
        }
    }

    /// Returns an iterator over the held keys in rising order. O(1), and O(capacity) for all of its items together.
    #[must_use]
    #[inline]
    pub fn keys(&self) -> Keys<'_, T, M>
        ensures keys { result ≡ keys_of (entries self.now) }
        ensures known { M.Items.Table.IsLen (length self.now.values) }
    {
        Keys::new(self.iter())
    }

    /// Returns an iterator over the values in rising order of their keys. O(1), and O(capacity) for all of its items together.
    #[must_use]
    #[inline]
    pub fn values(&self) -> Values<'_, T, M>
        ensures values { result ≡ map (λ item. item.1) (entries self.now) }
        ensures known { M.Items.Table.IsLen (length self.now.values) }
    {
        Values::new(self.iter())
    }

    /// Calls `f` with each held key in rising order and a mutable reference to its value. O(capacity), with one call for each
    /// value.
    pub fn for_each_mut<F: FnMut(SlotTableKey, &mut T)>(&mut self, mut f: F)
        requires { IsCallableOnEach F.step F.pre f (entries self.old) }
        ensures calls { (last : F) × FoldsTo (ChangesItem slot_table_set F.step)
            (f, self.old) (entries self.old) (last, self.new) }
        // If the closure computes a new value from the old one and does not change itself, each key has its new value.
        ensures mapped { (change : T → T) → ComputesValue F.step f (λ key. change) → (key : ℕ)
            → value_at self.new key ≡ option_map change (value_at self.old key) }
        ensures keys { (key : ℕ) → IsHeld self.new key ↔ IsHeld self.old key }
        ensures free { self.new.free ≡ self.old.free }
        ensures capacity { length self.new.values ≡ length self.old.values }
        ensures known { M.Items.Table.IsLen (length self.old.values) }
    {
        for number in 0..self.capacity() {
            let key = SlotTableKey::new(number);
            if !self.contains(key) {
                continue;
            }
            f(key, self.get_unchecked_mut(key));
        }
    }

    /// Keeps the values for which `f` returns `true`, and removes and drops the others. O(capacity), with one call for each value.
    ///
    /// Calls `f` with each held key in rising order and a mutable reference to its value. A value for which it returns `false` is
    /// dropped right after that call.
    pub fn retain<F: FnMut(SlotTableKey, &mut T) -> bool>(&mut self, mut f: F)
    where
        T: Drop,
        requires { IsCallableOnEach F.step F.pre f (entries self.old) }
        ensures calls { (last : F) × FoldsTo (RetainsItem slot_table_set slot_table_remove F.step)
            (f, self.old) (entries self.old) (last, self.new) }
        // If the closure computes a test and changes neither the value nor itself, the values that pass the test are kept.
        ensures filtered { (test : T → Bool) → ComputesTest F.step f (λ key. test) → (key : ℕ)
            → value_at self.new key ≡ option_filter test (value_at self.old key) }
        ensures capacity { length self.new.values ≡ length self.old.values }
        ensures count { held_count self.new ≤ held_count self.old }
        // The number of free keys grows by the number of keys that are no longer held.
        ensures room { held_count self.new + length self.new.free ≡ held_count self.old + length self.old.free }
        ensures known { M.Items.Table.IsLen (length self.old.values) }
    {
        for number in 0..self.capacity() {
            let key = SlotTableKey::new(number);
            if !self.contains(key) {
                continue;
            }
            if !f(key, self.get_unchecked_mut(key)) {
                drop(self.remove(key));
            }
        }
    }
}

//! The methods of a slot table that insert a value, and return the values that they do not keep.
ghost use Rattle.std.specs.Prelude.{◌≡◌, ◌+◌, ◌≤◌, IfOk, Some, length};
ghost use Rattle.std.specs.Result.{IfErr, is_ok, result_ok};
ghost use Rattle.ix_slottable.specs.SlotTableState.{value_at, IsHeld, held_count};
ghost use Rattle.ix_slottable.specs.SlotTableSteps.{slot_table_fill, SlotTableInsert, SlotTableInsertAt};

use crate::slottable::{MetaSlotTable, SlotTableKey, Storage};
use ix_tables::Touches;
use std::mem;

impl<T, M: Storage<T>> MetaSlotTable<T, M> {
    /// Inserts `value` at the first free key and returns that key. Drops nothing.
    ///
    /// Returns `value` as the error if the table is full.
    #[inline]
    pub fn try_insert(&mut self, value: T) -> Result<SlotTableKey, T>
        ensures step { SlotTableInsert self.old value self.new (result_ok result) }
        ensures returned { IfErr result (λ refused. refused ≡ value) }
        ensures known { M.Items.Table.IsLen (length self.old.values) }
    {
        self.try_insert_counted(value, &mut Touches::new())
    }

    /// Does what [`MetaSlotTable::try_insert`] does, and raises `touches` by at most 16, whatever the capacity.
    #[doc(hidden)]
    #[inline]
    pub fn try_insert_counted(&mut self, value: T, touches: &mut Touches) -> Result<SlotTableKey, T>
        ensures step { SlotTableInsert self.old value self.new (result_ok result) }
        ensures returned { IfErr result (λ refused. refused ≡ value) }
        ensures touches { touches.new ≤ touches.old + 16 }
        ensures rises { touches.old ≤ touches.new }
        ensures known { M.Items.Table.IsLen (length self.old.values) }
    {
        if self.is_full() {
            return Err(value);
        }
        let key = self.first;
        self.fill_first(value, touches);
        Ok(SlotTableKey::new(key))
    }

    /// Inserts `value` at `key` and returns the value that was there, or `None` if `key` was free. Returns `value` as the
    /// error if `key` is out of range. Drops nothing.
    #[inline]
    pub fn try_insert_at(&mut self, key: SlotTableKey, value: T) -> Result<Option<T>, T>
        ensures step { SlotTableInsertAt self.old key value self.new (is_ok result) }
        ensures replaced { IfOk result (λ replaced. replaced ≡ value_at self.old key) }
        ensures returned { IfErr result (λ refused. refused ≡ value) }
        ensures known { M.Items.Table.IsLen (length self.old.values) }
    {
        let mut touches = Touches::new();
        let key = key.value();
        if key >= self.capacity() {
            return Err(value);
        }
        let link = self.link_of(key, &mut touches);
        if link.is_free(key) {
            self.fill(key, link, value, &mut touches);
            Ok(None)
        } else {
            Ok(Some(self.exchange(key, value, &mut touches)))
        }
    }

    /// Replaces the value at a held key and returns the old one.
    #[inline]
    fn exchange(&mut self, key: usize, value: T, touches: &mut Touches) -> T
        requires { IsHeld self.old key }
        ensures value { value_at self.old key ≡ Some result }
        ensures map { self.new ≡ slot_table_fill self.old key value }
        ensures count { held_count self.new ≡ held_count self.old }
        ensures free { self.new.free ≡ self.old.free }
        ensures touches { touches.new ≡ touches.old + 2 }
    {
        mem::replace(self.values.get_mut(key, touches), value)
    }
}

//! The slot table in any storage.
ghost use Rattle.std.specs.Prelude.{◌≡◌, ◌≢◌, ℕ, nat_eq, ◌+◌, ◌<◌, ◌≤◌, ◌↔◌, [], length, drop, replicate, slice_get, Some, None, IsTrue, IsNone, IfSome, option_copied, true, false};
ghost use Rattle.std.specs.List.Sorted.{IsStrictlyIncreasing};
ghost use Rattle.std.specs.Map.{keys_of, lookup};
ghost use Rattle.std.specs.Borrow.{sem, Lends, LendsIf};
ghost use Rattle.std.specs.Option.{option_copied_mut};
ghost use Rattle.ix_tables.specs.Places.{IsVacant};
ghost use Rattle.ix_slottable.specs.SlotTableState.{value_at, IsHeld, IsKey, IsFree, IsWellFormed, slot_table_new, held_count, entries, entries_from};
ghost use Rattle.ix_slottable.specs.SlotTableSteps.{slot_table_set, slot_table_fill, slot_table_insert, SlotTableInsert, SlotTableInsertAt, SlotTableRemove};
ghost use Rattle.ix_slottable.specs.inner.FreeList.{no_key, IsLinkOf, MatchesLinks};

use crate::slottable::free_list::{
    first_after_remove, insert_first, link_all, remove, remove_first,
};
use crate::slottable::link::NO_KEY;
use crate::slottable::{Iter, Link, SlotTableKey, Storage};
use ix_tables::{Counted, Table, Touches};
use std::fmt::{self, Debug, Formatter, Write};
use std::marker::{Model, PhantomData};

/// A table from keys that it chooses itself to values, with its memory in a storage `M`. Contracts see an optional value for each
/// key, and the free keys in their order.
///
/// The keys are the numbers from 0 to one below the capacity. A key that has a value is held, any other key is free. The free keys
/// are a list, in rising order at first. [`MetaSlotTable::insert`] removes the first key of the list, and [`MetaSlotTable::remove`]
/// makes a key the first. A key out of range, up to `usize::MAX`, is an ordinary case: methods return `false`, `None` or `Err` for
/// it.
///
/// Each method takes O(1) time unless its docs say otherwise. Only the functions that make a table allocate. Dropping a table drops
/// its values, the value of the least key first, in O(capacity) time.
///
/// This is `MetaSlotMap` of iceoryx2-bb-container, whose keys have no generation.
pub struct MetaSlotTable<T, M: Storage<T>> {
    pub(crate) values: Counted<M::Items>,
    pub(crate) links: Counted<M::Links>,
    pub(crate) first: usize,
    pub(crate) len: usize,
    pub(crate) of: PhantomData<T>,
}

impl<T, M: Storage<T>> Model for MetaSlotTable<T, M> {
    ghost use Rattle.ix_slottable.specs.SlotTableState.{SlotTableState, slot_table_state_code};
    ghost use Rattle.ix_slottable.specs.inner.FreeList.{slots_of, Represents};

    ghost Value = { SlotTableState T };

    ghost coded = { slot_table_state_code T.code };

    ghost view = { λ map. slots_of (M.Items.Table.places map.values) (M.Links.Table.places map.links) map.first };

    ghost invariant = { λ map.
        Represents (slots_of (M.Items.Table.places map.values) (M.Links.Table.places map.links) map.first)
        (M.Links.Table.places map.links) map.first map.len };
}

impl<T, S: Table<T>, L: Table<Link>> MetaSlotTable<T, (S, L)> {
    /// Creates an empty table over two tables of the same length, which is the capacity. O(capacity).
    ///
    /// Every slot of both tables must be empty. The tables can be of any kind, also of your own.
    pub fn from_tables(values: S, links: L) -> Self
        requires values { IsVacant (S.places values) }
        requires links { L.places links ≡ replicate (length (S.places values)) None }
        ensures { result ≡ slot_table_new (length (S.places values)) }
    {
        MetaSlotTable::over(values, links)
    }
}

impl<T, M: Storage<T>> MetaSlotTable<T, M> {
    ghost use Rattle.ix_slottable.specs.contracts.slottable.meta_slot_table.MetaSlotTable.{the_row};

    /// Creates an empty table over two empty tables of the same length.
    pub(crate) fn over(values: M::Items, links: M::Links) -> Self
        requires values { IsVacant (M.Items.Table.places values) }
        requires links { M.Links.Table.places links ≡ replicate (length (M.Items.Table.places values)) None }
        ensures { result ≡ slot_table_new (length (M.Items.Table.places values)) }
    {
        let values = Counted::new(values);
        let mut links = Counted::new(links);
        let first = link_all(&mut links, values.len());
        MetaSlotTable {
            values,
            links,
            first,
            len: 0,
            of: PhantomData,
        }
    }

    /// Returns the number of keys, held and free: the maximum number of values.
    #[must_use]
    #[inline]
    pub fn capacity(&self) -> usize
        ensures value { result ≡ length self.now.values }
        // The type of an inline table fixes its capacity: every method says so.
        ensures known { M.Items.Table.IsLen (length self.now.values) }
    {
        self.values.len()
    }

    /// Returns the number of values.
    #[must_use]
    #[inline]
    pub fn len(&self) -> usize
        ensures value { result ≡ held_count self.now }
        ensures rest { held_count self.now + length self.now.free ≡ length self.now.values }
        // This holds of every table, whatever methods were called.
        ensures formed { IsWellFormed self.now }
        ensures known { M.Items.Table.IsLen (length self.now.values) }
    {
        // Names the capacity, so that the check knows its contract.
        let _capacity = self.values.len();
        self.len
    }

    /// Returns `true` if no key has a value.
    #[must_use]
    #[inline]
    pub fn is_empty(&self) -> bool
        ensures value { IsTrue result ↔ (held_count self.now ≡ 0) }
        ensures known { M.Items.Table.IsLen (length self.now.values) }
    {
        self.len() == 0
    }

    /// Returns `true` if every key has a value. A table of capacity 0 is both empty and full.
    #[must_use]
    #[inline]
    pub fn is_full(&self) -> bool
        ensures value { IsTrue result ↔ (held_count self.now ≡ length self.now.values) }
        ensures free { IsTrue result ↔ (self.now.free ≡ []) }
        ensures known { M.Items.Table.IsLen (length self.now.values) }
    {
        self.len == self.values.len()
    }

    /// Returns how many more values there is room for.
    #[must_use]
    #[inline]
    pub fn remaining_capacity(&self) -> usize
        ensures value { result ≡ length self.now.free }
        ensures full { result ≡ 0 ↔ (self.now.free ≡ []) }
        ensures known { M.Items.Table.IsLen (length self.now.values) }
    {
        self.capacity() - self.len()
    }

    /// Returns the key that the next [`MetaSlotTable::insert`] will return, or `None` if the table is full.
    #[must_use]
    #[inline]
    pub fn next_free_key(&self) -> Option<SlotTableKey>
        ensures value { result ≡ slice_get self.now.free 0 }
        ensures free { IfSome result (IsFree self.now) }
        ensures full { IsNone result ↔ (held_count self.now ≡ length self.now.values) }
    {
        if self.first == NO_KEY {
            None
        } else {
            Some(SlotTableKey::new(self.first))
        }
    }

    /// Returns `true` if `key` has a value, and `false` if it is free or out of range.
    #[must_use]
    #[inline]
    pub fn contains(&self, key: SlotTableKey) -> bool
        ensures value { IsTrue result ↔ IsHeld self.now key }
        ensures known { M.Items.Table.IsLen (length self.now.values) }
    {
        self.contains_counted(key, &mut Touches::new())
    }

    /// Returns a reference to the value at `key`, or `None` if `key` is free or out of range.
    #[must_use]
    #[inline]
    pub fn get(&self, key: SlotTableKey) -> Option<&T>
        ensures value { option_copied result ≡ value_at self.now key }
        ensures known { M.Items.Table.IsLen (length self.now.values) }
    {
        self.get_counted(key, &mut Touches::new())
    }

    /// Returns a reference to the value at `key`, which must be held.
    #[must_use]
    #[inline]
    pub fn get_unchecked(&self, key: SlotTableKey) -> &T
        requires { IsHeld self.now key }
        ensures { value_at self.now key ≡ Some result.now }
    {
        self.values.get(key.value(), &mut Touches::new())
    }

    /// Returns a mutable reference to the value at `key`, or `None` if `key` is free or out of range.
    #[inline]
    pub fn get_mut(&mut self, key: SlotTableKey) -> Option<&mut T>
        ensures* writes_back { sem 𝓛 (LendsIf (the_row T.row M.row M.Items.row M.Links.row M.Items.Table M.Links.Table)
            T.row self.entry result (slot_table_set self.old key) self.old) }
        ensures value { option_copied_mut result ≡ value_at self.old key }
        // Whatever value is written, the key has it, and any other key keeps its own.
        ensures holds { (written : T) → IsHeld self.old key
            → value_at (slot_table_set self.old key written) key ≡ Some written }
        ensures kept { (written : T) (other : ℕ) → other ≢ key
            → value_at (slot_table_set self.old key written) other ≡ value_at self.old other }
        ensures known { M.Items.Table.IsLen (length self.old.values) }
    {
        self.get_mut_counted(key, &mut Touches::new())
    }

    /// Returns a mutable reference to the value at `key`, which must be held.
    #[inline]
    pub fn get_unchecked_mut(&mut self, key: SlotTableKey) -> &mut T
        requires { IsHeld self.old key }
        ensures* writes_back { sem 𝓛 (Lends (the_row T.row M.row M.Items.row M.Links.row M.Items.Table M.Links.Table)
            T.row self.entry result (slot_table_set self.old key)) }
        ensures value { value_at self.old key ≡ Some result.now }
    {
        self.get_unchecked_mut_counted(key, &mut Touches::new())
    }

    /// Returns an iterator over the held keys in rising order, each with its value. O(1), and O(capacity) for all of
    /// its items together.
    #[must_use]
    #[inline]
    pub fn iter(&self) -> Iter<'_, T, M>
        ensures entries { result ≡ entries self.now }
        ensures rising { IsStrictlyIncreasing (keys_of result) }
        ensures exactly { (key : ℕ) → lookup (nat_eq key) result ≡ value_at self.now key }
        ensures known { M.Items.Table.IsLen (length self.now.values) }
    {
        Iter::new(self)
    }

    /// Inserts `value` at the first free key and returns that key. Drops `value` and returns `None` if the table is full.
    #[must_use]
    #[inline]
    pub fn insert(&mut self, value: T) -> Option<SlotTableKey>
    where
        T: Drop,
        ensures step { SlotTableInsert self.old value self.new result }
        ensures known { M.Items.Table.IsLen (length self.old.values) }
    {
        self.insert_counted(value, &mut Touches::new())
    }

    /// Inserts `value` at `key` and returns `true`. A value that is there already is dropped. Drops `value` and returns `false` if
    /// `key` is out of range.
    #[must_use]
    #[inline]
    pub fn insert_at(&mut self, key: SlotTableKey, value: T) -> bool
    where
        T: Drop,
        ensures step { SlotTableInsertAt self.old key value self.new result }
        ensures known { M.Items.Table.IsLen (length self.old.values) }
    {
        self.insert_at_counted(key, value, &mut Touches::new())
    }

    /// Inserts `value` at `key`, which must be free.
    #[inline]
    pub fn insert_at_unchecked(&mut self, key: SlotTableKey, value: T)
        requires { IsFree self.old key }
        ensures step { SlotTableInsertAt self.old key value self.new true }
    {
        self.insert_at_unchecked_counted(key, value, &mut Touches::new())
    }

    /// Removes the value at `key` and returns it, or `None` if `key` is free or out of range. The key becomes the
    /// first free key.
    #[inline]
    pub fn remove(&mut self, key: SlotTableKey) -> Option<T>
        ensures step { SlotTableRemove self.old key self.new result }
        ensures known { M.Items.Table.IsLen (length self.old.values) }
    {
        self.remove_counted(key, &mut Touches::new())
    }

    /// Removes the value at `key`, which must be held, and returns it. The key becomes the first free key.
    #[inline]
    pub fn remove_unchecked(&mut self, key: SlotTableKey) -> T
        requires { IsHeld self.old key }
        ensures step { SlotTableRemove self.old key self.new (Some result) }
    {
        self.remove_unchecked_counted(key, &mut Touches::new())
    }

    /// Does what [`MetaSlotTable::contains`] does, and raises `touches` by 1 or 2 if `key` is in range.
    #[must_use]
    #[inline]
    pub fn contains_counted(&self, key: SlotTableKey, touches: &mut Touches) -> bool
        ensures value { IsTrue result ↔ IsHeld self.now key }
        ensures touches { touches.new ≤ touches.old + 2 }
        ensures rises { touches.old ≤ touches.new }
        ensures counted { IsKey self.now key → touches.old < touches.new }
        ensures known { M.Items.Table.IsLen (length self.now.values) }
    {
        let key = key.value();
        key < self.capacity() && !self.is_free(key, touches)
    }

    /// Does what [`MetaSlotTable::get`] does, and raises `touches` by 1 to 3 if `key` is in range.
    #[must_use]
    #[inline]
    pub fn get_counted(&self, key: SlotTableKey, touches: &mut Touches) -> Option<&T>
        ensures value { option_copied result ≡ value_at self.now key }
        ensures touches { touches.new ≤ touches.old + 3 }
        ensures rises { touches.old ≤ touches.new }
        ensures counted { IsKey self.now key → touches.old < touches.new }
        ensures known { M.Items.Table.IsLen (length self.now.values) }
    {
        let key = key.value();
        if key >= self.capacity() {
            return None;
        }
        // A full table has no free key, so that its links need not be looked at.
        if self.first != NO_KEY && self.is_free(key, touches) {
            return None;
        }
        Some(self.values.get(key, touches))
    }

    /// Does what [`MetaSlotTable::get_mut`] does, and raises `touches` by 1 to 4 if `key` is in range.
    #[inline]
    pub fn get_mut_counted(&mut self, key: SlotTableKey, touches: &mut Touches) -> Option<&mut T>
        ensures* writes_back { sem 𝓛 (LendsIf (the_row T.row M.row M.Items.row M.Links.row M.Items.Table M.Links.Table)
            T.row self.entry result (slot_table_set self.old key) self.old) }
        ensures value { option_copied_mut result ≡ value_at self.old key }
        ensures holds { (written : T) → IsHeld self.old key
            → value_at (slot_table_set self.old key written) key ≡ Some written }
        ensures kept { (written : T) (other : ℕ) → other ≢ key
            → value_at (slot_table_set self.old key written) other ≡ value_at self.old other }
        ensures touches { touches.new ≤ touches.old + 4 }
        ensures rises { touches.old ≤ touches.new }
        ensures counted { IsKey self.old key → touches.old < touches.new }
        ensures known { M.Items.Table.IsLen (length self.old.values) }
    {
        if self.contains_counted(key, touches) {
            Some(self.get_unchecked_mut_counted(key, touches))
        } else {
            None
        }
    }

    /// Does what [`MetaSlotTable::get_unchecked_mut`] does, and raises `touches` by 2.
    #[inline]
    pub fn get_unchecked_mut_counted(&mut self, key: SlotTableKey, touches: &mut Touches) -> &mut T
        requires { IsHeld self.old key }
        ensures* writes_back { sem 𝓛 (Lends (the_row T.row M.row M.Items.row M.Links.row M.Items.Table M.Links.Table)
            T.row self.entry result (slot_table_set self.old key)) }
        ensures value { value_at self.old key ≡ Some result.now }
        ensures touches { touches.new ≡ touches.old + 2 }
    {
        self.values.get_mut(key.value(), touches)
    }

    /// Does what [`MetaSlotTable::insert`] does, and raises `touches` by at most 16, whatever the capacity.
    #[must_use]
    #[inline]
    pub fn insert_counted(&mut self, value: T, touches: &mut Touches) -> Option<SlotTableKey>
    where
        T: Drop,
        ensures step { SlotTableInsert self.old value self.new result }
        ensures touches { touches.new ≤ touches.old + 16 }
        ensures rises { touches.old ≤ touches.new }
        ensures known { M.Items.Table.IsLen (length self.old.values) }
    {
        self.try_insert_counted(value, touches).ok()
    }

    /// Does what [`MetaSlotTable::insert_at`] does, and raises `touches` by 1 to 16 if `key` is in range, whatever the capacity.
    #[must_use]
    #[inline]
    pub fn insert_at_counted(&mut self, key: SlotTableKey, value: T, touches: &mut Touches) -> bool
    where
        T: Drop,
        ensures step { SlotTableInsertAt self.old key value self.new result }
        ensures touches { touches.new ≤ touches.old + 16 }
        ensures rises { touches.old ≤ touches.new }
        ensures counted { IsKey self.old key → touches.old < touches.new }
        ensures known { M.Items.Table.IsLen (length self.old.values) }
    {
        let key = key.value();
        if key >= self.capacity() {
            return false;
        }
        let link = self.link_of(key, touches);
        if link.is_free(key) {
            self.fill(key, link, value, touches);
        } else {
            self.replace(key, value, touches);
        }
        true
    }

    /// Does what [`MetaSlotTable::insert_at_unchecked`] does, and raises `touches` by at most 9, whatever the capacity.
    #[inline]
    pub fn insert_at_unchecked_counted(
        &mut self,
        key: SlotTableKey,
        value: T,
        touches: &mut Touches,
    )
        requires { IsFree self.old key }
        ensures step { SlotTableInsertAt self.old key value self.new true }
        ensures touches { touches.new ≤ touches.old + 9 }
        ensures rises { touches.old ≤ touches.new }
    {
        let link = self.link_of(key.value(), touches);
        self.fill(key.value(), link, value, touches);
    }

    /// Does what [`MetaSlotTable::remove`] does, and raises `touches` by 1 to 16 if `key` is in range, whatever the capacity.
    #[inline]
    pub fn remove_counted(&mut self, key: SlotTableKey, touches: &mut Touches) -> Option<T>
        ensures step { SlotTableRemove self.old key self.new result }
        ensures touches { touches.new ≤ touches.old + 16 }
        ensures rises { touches.old ≤ touches.new }
        ensures counted { IsKey self.old key → touches.old < touches.new }
        ensures known { M.Items.Table.IsLen (length self.old.values) }
    {
        if self.contains_counted(key, touches) {
            Some(self.remove_unchecked_counted(key, touches))
        } else {
            None
        }
    }

    /// Does what [`MetaSlotTable::remove_unchecked`] does, and raises `touches` by at most 5, whatever the capacity.
    #[inline]
    pub fn remove_unchecked_counted(&mut self, key: SlotTableKey, touches: &mut Touches) -> T
        requires { IsHeld self.old key }
        ensures step { SlotTableRemove self.old key self.new (Some result) }
        ensures touches { touches.new ≤ touches.old + 5 }
        ensures rises { touches.old ≤ touches.new }
    {
        let key = key.value();
        // Writes the link first, because the caller has just read it.
        insert_first(&mut self.links, key, self.first, touches);
        let value = self.values.take(key, touches);
        self.first = key;
        self.len -= 1;
        value
    }
}

/// Empties both tables, and drops the values in rising order of their keys. O(capacity).
fn drop_all<T: Drop, S: Table<T>, L: Table<Link>>(values: &mut Counted<S>, links: &mut Counted<L>)
    requires { MatchesLinks (S.places values.old) (L.places links.old) }
    ensures values { IsVacant (S.places values.new) }
    ensures links { IsVacant (L.places links.new) }
{
    let mut touches = Touches::new();
    for key in 0..links.len() {
        let link = links.take(key, &mut touches);
        if !link.is_free(key) {
            drop(values.take(key, &mut touches));
        }
    }
}

/// Drops the values, the value of the least key first.
impl<T: Drop, M: Storage<T>> Drop for MetaSlotTable<T, M> {
    fn drop(self) {
        let MetaSlotTable {
            mut values,
            mut links,
            first: _,
            len: _,
            of: _,
        } = self;
        drop_all(&mut values, &mut links);
        values.end();
        links.end();
    }
}

/// Prints a table from the numbers of the held keys to their values, in rising order. O(capacity).
impl<T: Debug, M: Storage<T>> Debug for MetaSlotTable<T, M> {
    fn fmt<W: Write>(&self, f: &mut Formatter<W>) -> fmt::Result {
        let mut map = f.debug_map();
        for (key, value) in self.iter() {
            map.entry(&key.value(), value);
        }
        map.finish()
    }
}

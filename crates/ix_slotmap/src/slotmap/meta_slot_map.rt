//! The slot map in any storage.
ghost use Rattle.std.specs.Prelude.{◌≡◌, ◌≢◌, false, ◌+◌, ◌<◌, ◌≤◌, ◌↔◌, [], length, Some, None, IsTrue, IsSome, IsNone, IfSome, option_copied, option_map, slice_get};
ghost use Rattle.std.specs.Borrow.{sem, LendsIf};
ghost use Rattle.std.specs.Map.{lookup};
ghost use Rattle.std.specs.Option.{option_copied_mut};
ghost use Rattle.ix_tables.specs.contracts.cells.maybe_moved.MaybeMoved as moved;
ghost use Rattle.ix_slottable.specs.SlotTableState.{IsFree};
ghost use Rattle.ix_slotmap.specs.Generations.{SlotKey, SlotMapState, key_at, slot_key_eq, slot_map_value, IsDead, retired_count, slot_map_len, slot_map_entries, IsSlotMapFormed, DeadAreNotHeld, KeysRise, ListsExactly};
ghost use Rattle.ix_slotmap.specs.SlotMapSteps.{slot_map_set, slot_map_clear, SlotMapInsert, SlotMapInsertAt, SlotMapRemove};

use crate::slotmap::{Content, Iter, SlotMapKey, SlotMapStorage, WordTable, drop_values};
use ix_slottable::slottable::MetaSlotTable;
use ix_tables::{MaybeMoved, Table, Touches};
use std::marker::{Model, PhantomData};

/// A map from keys that it chooses itself to values `T`, with its memory in a storage `M`. Contracts see the content of each slot,
/// the free slots in their order, and the generations.
///
/// A map has as many slots as its capacity, with indexes from 0. A slot is free, holds a value, or is retired, and it has a
/// generation. A key is the index of a slot and a generation. The key is held while a value is in its slot and the slot has its
/// generation. When a key is removed, or its value replaced by [`MetaSlotMap::insert_at`], its slot gets the next generation. The
/// key is dead then: it is never held again, whatever is called later. A slot whose key has the generation `u32::MAX` is retired
/// when that key is removed: it is not used again.
///
/// The free slots are a list, in rising order at first. [`MetaSlotMap::insert`] takes the first slot of the list, and
/// [`MetaSlotMap::remove`] makes a slot the first. A key or an index out of range, up to the greatest numbers, is an ordinary case:
/// methods return `false`, `None` or `Err` for it.
///
/// A slot takes the bytes of a value, as a [`MaybeMoved`] (`C`), of its mark or tag, of a link and of a word. The word has the
/// generation, and says whether a value is in the slot. A retired slot has the bytes of its last value.
///
/// Each method takes O(1) time unless its docs say otherwise. Dropping a map takes O(capacity) time. Only the functions that make a
/// map allocate.
///
/// This is `MetaSlotMap` of iceoryx2-bb-container, whose keys have no generation: that map is [`MetaSlotTable`] here.
pub struct MetaSlotMap<T, C: Content<T>, M: SlotMapStorage<C>> {
    pub(crate) slots: MetaSlotTable<C, M::Slots>,
    pub(crate) words: WordTable<M::Words>,
    pub(crate) retired: usize,
    pub(crate) of: PhantomData<T>,
}

impl<T, C: Content<T>, M: SlotMapStorage<C>> Model for MetaSlotMap<T, C, M> {
    ghost use Rattle.ix_slotmap.specs.Generations.{GenerationState, generation_state_code};
    ghost use Rattle.ix_slotmap.specs.inner.Words.{word_generations, HasWords};

    ghost Value = { GenerationState C };

    ghost coded = { generation_state_code C.code };

    ghost view = { λ map. record { slots = map.slots; generations = word_generations map.words } };

    ghost invariant = { λ map. HasWords C.is_retired map.slots map.words map.retired };
}

impl<T, M: SlotMapStorage<MaybeMoved<T>>> MetaSlotMap<T, MaybeMoved<T>, M> {
    ghost use Rattle.ix_slotmap.specs.contracts.slotmap.meta_slot_map.MetaSlotMap.{the_row};

    /// Returns the number of slots, free, held and retired.
    #[must_use]
    #[inline]
    pub fn capacity(&self) -> usize
        ensures value { result ≡ length self.now.slots.values }
        // The type of an inline map fixes its capacity: every method says so.
        ensures known { M.Slots.Items.Table.IsLen (length self.now.slots.values) }
    {
        self.slots.capacity()
    }

    /// Returns the number of retired slots.
    #[must_use]
    #[inline]
    pub fn retired(&self) -> usize
        ensures value { result ≡ retired_count self.now }
    {
        self.retired
    }

    /// Returns the number of values, which is the number of held keys.
    #[must_use]
    #[inline]
    pub fn len(&self) -> usize
        ensures value { result ≡ slot_map_len self.now }
        ensures rest { slot_map_len self.now + retired_count self.now + length self.now.slots.free
            ≡ length self.now.slots.values }
        // These hold of every map, whatever methods were called.
        ensures formed { IsSlotMapFormed self.now }
        ensures known { M.Slots.Items.Table.IsLen (length self.now.slots.values) }
    {
        self.slots.len() - self.retired
    }

    /// Returns `true` if no key is held.
    #[must_use]
    #[inline]
    pub fn is_empty(&self) -> bool
        ensures value { IsTrue result ↔ (slot_map_len self.now ≡ 0) }
        ensures known { M.Slots.Items.Table.IsLen (length self.now.slots.values) }
    {
        self.len() == 0
    }

    /// Returns `true` if no slot is free. A map of capacity 0, and one whose slots are all retired, is both empty and full.
    #[must_use]
    #[inline]
    pub fn is_full(&self) -> bool
        ensures value { IsTrue result ↔ (self.now.slots.free ≡ []) }
        ensures known { M.Slots.Items.Table.IsLen (length self.now.slots.values) }
    {
        self.slots.is_full()
    }

    /// Returns the number of free slots, which is how many more values there is room for.
    #[must_use]
    #[inline]
    pub fn remaining_capacity(&self) -> usize
        ensures value { result ≡ length self.now.slots.free }
        ensures full { result ≡ 0 ↔ (self.now.slots.free ≡ []) }
        ensures known { M.Slots.Items.Table.IsLen (length self.now.slots.values) }
    {
        self.slots.remaining_capacity()
    }

    /// Returns the key that the next [`MetaSlotMap::insert`] will return, or `None` if no slot is free.
    #[must_use]
    #[inline]
    pub fn next_free_key(&self) -> Option<SlotMapKey>
        ensures value { result ≡ option_map (key_at self.now) (slice_get self.now.slots.free 0) }
        ensures free { IfSome result (λ key. IsFree self.now.slots key.index) }
        ensures full { IsNone result ↔ (self.now.slots.free ≡ []) }
        ensures alive { IfSome result (λ key. IsDead self.now key → ⊥) }
    {
        let place = self.slots.next_free_key()?;
        Some(self.key_of(place.value(), &mut Touches::new()))
    }

    /// Returns `true` if `key` is held.
    #[must_use]
    #[inline]
    pub fn contains(&self, key: SlotMapKey) -> bool
        ensures value { IsTrue result ↔ IsSome (slot_map_value self.now key) }
        ensures dead { IsDead self.now key → result ≡ false }
        ensures known { M.Slots.Items.Table.IsLen (length self.now.slots.values) }
    {
        self.is_held(key, &mut Touches::new())
    }

    /// Returns a reference to the value of `key`, or `None` if `key` is not held.
    #[must_use]
    #[inline]
    pub fn get(&self, key: SlotMapKey) -> Option<&T>
        ensures value { option_copied result ≡ slot_map_value self.now key }
        ensures dead { IsDead self.now key → IsNone result }
        ensures known { M.Slots.Items.Table.IsLen (length self.now.slots.values) }
    {
        if !self.is_held(key, &mut Touches::new()) {
            return None;
        }
        Some(self.value_at(key.index()))
    }

    /// Returns a mutable reference to the value of `key`, or `None` if `key` is not held.
    #[inline]
    pub fn get_mut(&mut self, key: SlotMapKey) -> Option<&mut T>
        ensures* writes_back { sem 𝓛
            (LendsIf (the_row T.row (moved.the_row T.row) M.row M.Slots.row M.Words.row M.Slots.Items.row M.Slots.Links.row ⟦<MaybeMoved<T> as Content<T>>⟧ M.Slots.Items.Table M.Slots.Links.Table M.Words.Array)
            T.row self.entry result (slot_map_set self.old key) self.old) }
        ensures value { option_copied_mut result ≡ slot_map_value self.old key }
        // Whatever value is written, the key has it, any other key keeps its own, and a dead key stays dead.
        ensures holds { (written : T) → IsSome (slot_map_value self.old key)
            → slot_map_value (slot_map_set self.old key written) key ≡ Some written }
        ensures kept { (written : T) (other : SlotKey) → IsSome (slot_map_value self.old key)
            → other ≢ key → slot_map_value (slot_map_set self.old key written) other ≡ slot_map_value self.old other }
        ensures dead { (written : T) (other : SlotKey) → IsSome (slot_map_value self.old key)
            → IsDead self.old other → IsDead (slot_map_set self.old key written) other }
        ensures not_held { IsDead self.old key → IsNone result }
        ensures known { M.Slots.Items.Table.IsLen (length self.old.slots.values) }
    {
        if self.contains(key) {
            Some(self.value_mut(key.index()))
        } else {
            None
        }
    }

    /// Returns an iterator over the held keys in rising order of their indexes, each with its value. O(1), and O(capacity)
    /// for all of its items together.
    #[must_use]
    #[inline]
    pub fn iter(&self) -> Iter<'_, T, M>
        ensures entries { result ≡ slot_map_entries self.now }
        ensures rising { KeysRise result }
        ensures exactly { ListsExactly result self.now }
        ensures dead { (key : SlotKey) → IsDead self.now key
            → lookup (slot_key_eq key) result ≡ None }
        ensures known { M.Slots.Items.Table.IsLen (length self.now.slots.values) }
    {
        Iter::new(self)
    }

    /// Inserts `value` in the first free slot and returns the key of that slot. Drops `value` and returns `None` if no slot is
    /// free.
    #[must_use]
    #[inline]
    pub fn insert(&mut self, value: T) -> Option<SlotMapKey>
    where
        T: Drop,
        ensures step { SlotMapInsert self.old value self.new result }
        ensures known { M.Slots.Items.Table.IsLen (length self.old.slots.values) }
    {
        self.insert_counted(value, &mut Touches::new())
    }

    /// Inserts `value` in the slot `index` and returns its key.
    ///
    /// If the slot holds a value already, that value is dropped, its key is dead, and the new key has the next generation. Drops
    /// `value` and returns `None` if `index` is out of range, the slot is retired, or it holds a value with the generation
    /// `u32::MAX`.
    #[must_use]
    #[inline]
    pub fn insert_at(&mut self, index: usize, value: T) -> Option<SlotMapKey>
    where
        T: Drop,
        ensures step { SlotMapInsertAt self.old index value self.new result }
        ensures known { M.Slots.Items.Table.IsLen (length self.old.slots.values) }
    {
        self.insert_at_counted(index, value, &mut Touches::new())
    }

    /// Removes `key` and returns its value, or `None` if `key` is not held.
    ///
    /// A key that was removed is dead. Its slot gets the next generation and is the first free slot. A slot with the generation
    /// `u32::MAX` is retired instead.
    #[inline]
    pub fn remove(&mut self, key: SlotMapKey) -> Option<T>
        ensures step { SlotMapRemove self.old key self.new result }
        ensures known { M.Slots.Items.Table.IsLen (length self.old.slots.values) }
    {
        self.remove_counted(key, &mut Touches::new())
    }

    /// Does what [`MetaSlotMap::insert`] does, and raises `touches` by at most 20, whatever the capacity.
    #[must_use]
    #[inline]
    pub fn insert_counted(&mut self, value: T, touches: &mut Touches) -> Option<SlotMapKey>
    where
        T: Drop,
        ensures step { SlotMapInsert self.old value self.new result }
        ensures touches { touches.new ≤ touches.old + 20 }
        ensures rises { touches.old ≤ touches.new }
        ensures known { M.Slots.Items.Table.IsLen (length self.old.slots.values) }
    {
        let (place, generation) = self.fill_first(value, touches).ok()?;
        Some(SlotMapKey::new(place.value(), generation))
    }

    /// Does what [`MetaSlotMap::insert_at`] does, and raises `touches` by at most 20, whatever the capacity.
    #[must_use]
    #[inline]
    pub fn insert_at_counted(
        &mut self,
        index: usize,
        value: T,
        touches: &mut Touches,
    ) -> Option<SlotMapKey>
    where
        T: Drop,
        ensures step { SlotMapInsertAt self.old index value self.new result }
        ensures touches { touches.new ≤ touches.old + 20 }
        ensures rises { touches.old ≤ touches.new }
        ensures known { M.Slots.Items.Table.IsLen (length self.old.slots.values) }
    {
        let (key, _replaced) = self.try_insert_at_counted(index, value, touches).ok()?;
        Some(key)
    }

    /// Does what [`MetaSlotMap::remove`] does, and raises `touches` by 1 to 20 if the index of `key` is in range, whatever the
    /// capacity.
    #[inline]
    pub fn remove_counted(&mut self, key: SlotMapKey, touches: &mut Touches) -> Option<T>
        ensures step { SlotMapRemove self.old key self.new result }
        ensures touches { touches.new ≤ touches.old + 20 }
        ensures rises { touches.old ≤ touches.new }
        ensures counted { key.index < length self.old.slots.values → touches.old < touches.new }
        ensures known { M.Slots.Items.Table.IsLen (length self.old.slots.values) }
    {
        if !self.is_held(key, touches) {
            return None;
        }
        Some(self.remove_held(key.index(), touches))
    }
}

/// Drops the values, the value of the least index first. O(capacity).
impl<T: Drop, C: Content<T> + Drop, M: SlotMapStorage<C>> Drop for MetaSlotMap<T, C, M> {
    fn drop(self) {
        let MetaSlotMap {
            mut slots,
            words,
            retired: _,
            of: _,
        } = self;
        let capacity = slots.capacity();
        drop_values(&mut slots, &words, capacity);
    }
}

/// A dead key is not held, whatever the map. This function does nothing: its contract is the law.
pub fn dead_keys_law<T>()
    ensures { (map : SlotMapState T) → DeadAreNotHeld map }
{}

/// A key that was held is dead once its map was cleared or drained, and a dead key stays dead, whatever the map. This function does
/// nothing: its contract is the law.
pub fn cleared_keys_law<T>()
    ensures killed { (map : SlotMapState T) (key : SlotKey) → IsSlotMapFormed map
        → IsSome (slot_map_value map key) → IsDead (slot_map_clear map) key }
    ensures dead { (map : SlotMapState T) (key : SlotKey) → IsSlotMapFormed map
        → IsDead map key → IsDead (slot_map_clear map) key }
{}

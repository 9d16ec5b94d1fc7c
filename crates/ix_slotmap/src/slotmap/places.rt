//! The slots of a slot map: the content of each, and its word.
ghost use Rattle.std.specs.Prelude.{◌≡◌, ◌+◌, ◌<◌, ◌≤◌, ◌↔◌, length, take, drop, Some, None, IsTrue, IsSome, IfOk, option_map};
ghost use Rattle.std.specs.Borrow.{sem, Lends};
ghost use Rattle.std.specs.Result.{IfErr, result_ok};
ghost use Rattle.ix_tables.specs.contracts.cells.maybe_moved.MaybeMoved as moved;
ghost use Rattle.ix_slottable.specs.SlotTableState.{IsFree, entries_from};
ghost use Rattle.ix_slottable.specs.SlotTableSteps.{SlotTableInsert};
ghost use Rattle.ix_slotmap.specs.Generations.{generation_at, key_at, place_value, slot_map_value, IsRetired, slot_map_len, held_entries};
ghost use Rattle.ix_slotmap.specs.SlotMapSteps.{slot_map_set_at, slot_map_fill, SlotMapRemove};

use crate::slotmap::{Content, MetaSlotMap, RETIRED, SlotMapKey, SlotMapStorage};
use ix_slottable::slottable::SlotTableKey;
use ix_tables::{MaybeMoved, Table, Touches};

impl<T, M: SlotMapStorage<MaybeMoved<T>>> MetaSlotMap<T, MaybeMoved<T>, M> {
    ghost use Rattle.ix_slotmap.specs.contracts.slotmap.meta_slot_map.MetaSlotMap.{the_row};

    /// Returns the key of a slot that is not retired.
    #[inline]
    pub(crate) fn key_of(&self, index: usize, touches: &mut Touches) -> SlotMapKey
        requires within { index < length self.now.slots.values }
        requires in_use { IsRetired self.now index → ⊥ }
        ensures value { result ≡ key_at self.now index }
        ensures touches { touches.new ≡ touches.old + 1 }
    {
        SlotMapKey::new(index, self.generation(index, touches))
    }

    /// Returns the generation of a slot that is not retired.
    #[inline]
    pub(crate) fn generation(&self, index: usize, touches: &mut Touches) -> u32
        requires within { index < length self.now.slots.values }
        requires in_use { IsRetired self.now index → ⊥ }
        ensures value { result ≡ generation_at self.now index }
        ensures touches { touches.new ≡ touches.old + 1 }
    {
        (self.words.get(index, touches) / 2) as u32
    }

    /// Returns `true` if `key` is held.
    #[inline]
    pub(crate) fn is_held(&self, key: SlotMapKey, touches: &mut Touches) -> bool
        ensures value { IsTrue result ↔ IsSome (slot_map_value self.now key) }
        ensures most { length self.now.slots.values ≤ 18446744073709551615 }
        ensures known { M.Slots.Items.Table.IsLen (length self.now.slots.values) }
        ensures touches { touches.new ≤ touches.old + 1 }
        ensures rises { touches.old ≤ touches.new }
        ensures counted { key.index < length self.now.slots.values → touches.old < touches.new }
    {
        let index = key.index();
        index < self.capacity() && self.words.get(index, touches) == 2 * key.generation() as u64 + 1
    }

    /// Returns `true` if a value is in a slot.
    #[inline]
    pub(crate) fn has_value(&self, index: usize, touches: &mut Touches) -> bool
        requires within { index < length self.now.slots.values }
        ensures value { IsTrue result ↔ IsSome (place_value self.now index) }
        ensures touches { touches.new ≡ touches.old + 1 }
    {
        self.words.get(index, touches) % 2 == 1
    }

    /// Returns `true` if a slot is free.
    #[inline]
    pub(crate) fn is_free(&self, index: usize, touches: &mut Touches) -> bool
        requires within { index < length self.now.slots.values }
        ensures value { IsTrue result ↔ IsFree self.now.slots index }
        ensures touches { touches.new ≡ touches.old + 1 }
    {
        let word = self.words.get(index, touches);
        word % 2 == 0 && word < RETIRED
    }

    /// Returns `true` if a slot is retired.
    #[inline]
    pub(crate) fn is_retired(&self, index: usize, touches: &mut Touches) -> bool
        requires within { index < length self.now.slots.values }
        ensures value { IsTrue result ↔ IsRetired self.now index }
        ensures touches { touches.new ≡ touches.old + 1 }
    {
        self.words.get(index, touches) == RETIRED
    }

    /// Returns the least slot from `start` on that has a value. There must be one.
    #[inline]
    pub(crate) fn held_from(&self, start: usize) -> usize
        requires { 0 < length (held_entries self.now (entries_from start (drop start self.now.slots.values))) }
        ensures held { IsSome (place_value self.now result) }
        ensures fits { result + 1 ≤ 18446744073709551615 }
        ensures most { length self.now.slots.values ≤ 18446744073709551615 }
        ensures entries { held_entries self.now (entries_from result (drop result self.now.slots.values))
            ≡ held_entries self.now (entries_from start (drop start self.now.slots.values)) }
    {
        prove!(start < self.capacity());
        let mut touches = Touches::new();
        // Asked once before the loop, as a slot table does.
        if self.has_value(start, &mut touches) {
            return start;
        }
        let mut index = start + 1;
        while !self.has_value(index, &mut touches) {
            index += 1;
        }
        index
    }

    /// Returns the greatest slot before `end` that has a value. There must be one.
    #[inline]
    pub(crate) fn held_before(&self, end: usize) -> usize
        requires within { end ≤ length self.now.slots.values }
        requires some { 0 < length (held_entries self.now (entries_from 0 (take end self.now.slots.values))) }
        ensures held { IsSome (place_value self.now result) }
        ensures below { result < end }
        ensures entries { held_entries self.now (entries_from 0 (take (result + 1) self.now.slots.values))
            ≡ held_entries self.now (entries_from 0 (take end self.now.slots.values)) }
    {
        let mut touches = Touches::new();
        let last = end - 1;
        // Asked once before the loop, as a slot table does.
        if self.has_value(last, &mut touches) {
            return last;
        }
        let mut place = last - 1;
        while !self.has_value(place, &mut touches) {
            place -= 1;
        }
        place
    }

    /// Returns the value in a slot.
    #[inline]
    pub(crate) fn value_at(&self, index: usize) -> &T
        requires { IsSome (place_value self.now index) }
        ensures { place_value self.now index ≡ Some result.now }
    {
        self.slots.get_unchecked(SlotTableKey::new(index)).get()
    }

    /// Inserts a value in the first free slot and returns that slot with its generation. Returns `value` as the error if no slot is
    /// free.
    #[inline]
    pub(crate) fn fill_first(
        &mut self,
        value: T,
        touches: &mut Touches,
    ) -> Result<(SlotTableKey, u32), T>
        ensures slots { SlotTableInsert self.old.slots (Some value) self.new.slots
            (option_map (λ both. both.0) (result_ok result)) }
        ensures returned { IfErr result (λ refused. refused ≡ value) }
        ensures generation { IfOk result (λ both. both.1 ≡ generation_at self.old both.0) }
        ensures generations { self.new.generations ≡ self.old.generations }
        ensures touches { touches.new ≤ touches.old + 18 }
        ensures rises { touches.old ≤ touches.new }
        ensures known { M.Slots.Items.Table.IsLen (length self.old.slots.values) }
    {
        match self
            .slots
            .try_insert_counted(MaybeMoved::new(value), touches)
        {
            Ok(place) => {
                let word = self.words.raise(place.value(), 1, touches);
                Ok((place, (word / 2) as u32))
            }
            Err(content) => Err(content.into_item()),
        }
    }

    /// Inserts a value in a free slot, and returns the generation of that slot.
    #[inline]
    pub(crate) fn fill(&mut self, index: usize, value: T, touches: &mut Touches) -> u32
        requires { IsFree self.old.slots index }
        ensures generation { result ≡ generation_at self.old index }
        ensures map { self.new ≡ slot_map_fill self.old index value }
        ensures count { slot_map_len self.new ≡ slot_map_len self.old + 1 }
        ensures room { length self.new.slots.free + 1 ≡ length self.old.slots.free }
        ensures touches { touches.new ≤ touches.old + 11 }
        ensures rises { touches.old ≤ touches.new }
    {
        let place = SlotTableKey::new(index);
        self.slots
            .insert_at_unchecked_counted(place, MaybeMoved::new(value), touches);
        (self.words.raise(index, 1, touches) / 2) as u32
    }

    /// Removes the key of a slot that holds a value, and returns the value.
    #[inline]
    pub(crate) fn remove_held(&mut self, index: usize, touches: &mut Touches) -> T
        requires held { IsSome (place_value self.old index) }
        // Each slot is retired once, so that the number of retired slots fits.
        requires fits { length self.old.slots.values ≤ 18446744073709551615 }
        ensures step { SlotMapRemove self.old (key_at self.old index) self.new (Some result) }
        ensures value { place_value self.old index ≡ Some result }
        ensures gone { place_value self.new index ≡ None }
        ensures touches { touches.new ≤ touches.old + 7 }
        ensures rises { touches.old ≤ touches.new }
    {
        let place = SlotTableKey::new(index);
        // Raised first, so that the generation is compared once: after the greatest one comes the word of a retired slot.
        if self.words.raise(index, 1, touches) == RETIRED {
            self.retired += 1;
            return self.slots.get_unchecked_mut_counted(place, touches).take();
        }
        self.slots
            .remove_unchecked_counted(place, touches)
            .into_item()
    }

    /// Returns a mutable reference to the value in a slot.
    #[inline]
    pub(crate) fn value_mut(&mut self, index: usize) -> &mut T
        requires { IsSome (place_value self.old index) }
        ensures* writes_back { sem 𝓛
            (Lends (the_row T.row (moved.the_row T.row) M.row M.Slots.row M.Words.row M.Slots.Items.row M.Slots.Links.row ⟦<MaybeMoved<T> as Content<T>>⟧ M.Slots.Items.Table M.Slots.Links.Table M.Words.Array)
            T.row self.entry result (slot_map_set_at self.old index)) }
        ensures value { place_value self.old index ≡ Some result.now }
    {
        let place = SlotTableKey::new(index);
        self.slots.get_unchecked_mut(place).get_mut()
    }
}

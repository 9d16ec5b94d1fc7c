//! The methods of a slot map that insert a value, and return the values that they do not keep.
ghost use Rattle.std.specs.Prelude.{◌≡◌, ◌+◌, ◌<◌, ◌≤◌, IfOk, IsSome, length, option_map};
ghost use Rattle.std.specs.Result.{IfErr, result_ok};
ghost use Rattle.ix_slotmap.specs.Generations.{greatest_generation, generation_at, place_value, slot_map_len};
ghost use Rattle.ix_slotmap.specs.SlotMapSteps.{slot_map_replace, SlotMapInsert, SlotMapInsertAt};

use crate::slotmap::{MetaSlotMap, SlotMapKey, SlotMapStorage};
use ix_slottable::slottable::SlotTableKey;
use ix_tables::{MaybeMoved, Touches};
use std::mem;

impl<T, M: SlotMapStorage<MaybeMoved<T>>> MetaSlotMap<T, MaybeMoved<T>, M> {
    /// Inserts `value` in the first free slot and returns the key of that slot. Drops nothing.
    ///
    /// Returns `value` as the error if no slot is free.
    #[inline]
    pub fn try_insert(&mut self, value: T) -> Result<SlotMapKey, T>
        ensures step { SlotMapInsert self.old value self.new (result_ok result) }
        ensures returned { IfErr result (λ refused. refused ≡ value) }
        ensures known { M.Slots.Items.Table.IsLen (length self.old.slots.values) }
    {
        let (place, generation) = self.fill_first(value, &mut Touches::new())?;
        Ok(SlotMapKey::new(place.value(), generation))
    }

    /// Inserts `value` in the slot `index` and returns its key, and the value that was there, or `None` if the slot was free.
    ///
    /// If a value was there, its key is dead, and the new key has the next generation. Returns `value` as the error if `index` is
    /// out of range, the slot is retired, or it holds a value with the generation `u32::MAX`. Drops nothing.
    #[inline]
    pub fn try_insert_at(&mut self, index: usize, value: T) -> Result<(SlotMapKey, Option<T>), T>
        ensures step { SlotMapInsertAt self.old index value self.new
            (option_map (λ both. both.0) (result_ok result)) }
        ensures replaced { IfOk result (λ both. both.1 ≡ place_value self.old index) }
        ensures returned { IfErr result (λ refused. refused ≡ value) }
        ensures known { M.Slots.Items.Table.IsLen (length self.old.slots.values) }
    {
        self.try_insert_at_counted(index, value, &mut Touches::new())
    }

    /// Does what [`MetaSlotMap::try_insert_at`] does, and raises `touches` by at most 20, whatever the capacity.
    #[inline]
    pub(crate) fn try_insert_at_counted(
        &mut self,
        index: usize,
        value: T,
        touches: &mut Touches,
    ) -> Result<(SlotMapKey, Option<T>), T>
        ensures step { SlotMapInsertAt self.old index value self.new
            (option_map (λ both. both.0) (result_ok result)) }
        ensures replaced { IfOk result (λ both. both.1 ≡ place_value self.old index) }
        ensures returned { IfErr result (λ refused. refused ≡ value) }
        ensures touches { touches.new ≤ touches.old + 20 }
        ensures rises { touches.old ≤ touches.new }
        ensures known { M.Slots.Items.Table.IsLen (length self.old.slots.values) }
    {
        if index >= self.capacity() {
            return Err(value);
        }
        if self.is_free(index, touches) {
            let generation = self.fill(index, value, touches);
            return Ok((SlotMapKey::new(index, generation), None));
        }
        if self.is_retired(index, touches) || self.generation(index, touches) == u32::MAX {
            return Err(value);
        }
        let (generation, replaced) = self.replace(index, value, touches);
        Ok((SlotMapKey::new(index, generation), Some(replaced)))
    }

    /// Replaces the value in a slot, whose generation is less than the greatest. Returns the next generation, which the slot has
    /// then, and the old value.
    #[inline]
    fn replace(&mut self, index: usize, value: T, touches: &mut Touches) -> (u32, T)
        requires held { IsSome (place_value self.old index) }
        requires generation { generation_at self.old index < greatest_generation }
        ensures generation { result.0 ≡ generation_at self.old index + 1 }
        ensures value { place_value self.old index ≡ Some result.1 }
        ensures map { self.new ≡ slot_map_replace self.old index value }
        ensures count { slot_map_len self.new ≡ slot_map_len self.old }
        ensures raised { generation_at self.new index ≡ generation_at self.old index + 1 }
        ensures touches { touches.new ≡ touches.old + 4 }
    {
        let place = SlotTableKey::new(index);
        let replaced = mem::replace(
            self.slots.get_unchecked_mut_counted(place, touches),
            MaybeMoved::new(value),
        );
        let word = self.words.raise(index, 2, touches);
        ((word / 2) as u32, replaced.into_item())
    }
}

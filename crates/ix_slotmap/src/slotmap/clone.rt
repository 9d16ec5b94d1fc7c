//! Clones of slot maps.
ghost use Rattle.std.specs.Prelude.{◌≡◌, ℕ, ◌<◌, length, replicate, None, IsOk, IfOk, OnOk};
ghost use Rattle.ix_tables.specs.Cloning.{AreEqualClones};
ghost use Rattle.ix_slottable.specs.SlotTableState.{value_at};
ghost use Rattle.ix_slottable.specs.SlotTableCopies.{IsCloneAt, SlotTableIsClone};
ghost use Rattle.ix_slotmap.specs.SlotMapCopies.{SlotMapIsClone, SlotMapIsInfallible};

use crate::slotmap::{
    FixedSizeSlotMap, MetaSlotMap, SlotMap, SlotMapStorage, WordTable, drop_values,
};
use ix_slottable::slottable::{
    FixedSizeSlotTable, MetaSlotTable, SlotTable, SlotTableKey, Storage,
};
use ix_tables::{HeapArray, InlineArray, MaybeMoved, Touches};
use std::alloc::{AllocError, Allocator};
use std::marker::PhantomData;

impl<T: Clone, M: SlotMapStorage<MaybeMoved<T>>> MetaSlotMap<T, MaybeMoved<T>, M> {
    /// Inserts clones of the values in the same slots of an empty table of the same capacity. A retired slot is held there too, and
    /// the free slots are in the same order. Returns the error of the first clone that fails, and drops the clones already made.
    fn clone_contents<N: Storage<MaybeMoved<T>>>(
        &self,
        slots: &mut MetaSlotTable<MaybeMoved<T>, N>,
    ) -> Result<(), AllocError>
        requires { slots.old.values ≡ replicate (length self.now.slots.values) None }
        ensures clones { OnOk result (SlotTableIsClone (IsCloneAt T.is_clone) self.now.slots slots.new) }
        ensures memory { SlotMapIsInfallible T.is_infallible self.now → IsOk result }
    {
        self.put_contents(slots)?;
        slots.copy_free_keys(&self.slots);
        Ok(())
    }

    /// Does what [`MetaSlotMap::clone_contents`] does, except for the order of the free slots.
    fn put_contents<N: Storage<MaybeMoved<T>>>(
        &self,
        slots: &mut MetaSlotTable<MaybeMoved<T>, N>,
    ) -> Result<(), AllocError>
        requires { slots.old.values ≡ replicate (length self.now.slots.values) None }
        ensures capacity { OnOk result (length slots.new.values ≡ length self.now.slots.values) }
        ensures values { OnOk result ((place : ℕ) → IsCloneAt (IsCloneAt T.is_clone)
            (value_at self.now.slots place) (value_at slots.new place)) }
        ensures memory { SlotMapIsInfallible T.is_infallible self.now → IsOk result }
    {
        for index in 0..self.capacity() {
            match self.clone_content(index) {
                Ok(Some(content)) => {
                    slots.insert_at_unchecked(SlotTableKey::new(index), content);
                }
                Ok(None) => {}
                Err(error) => {
                    drop_values(slots, &self.words, index);
                    return Err(error);
                }
            }
        }
        Ok(())
    }

    /// Returns a clone of the value in a slot, the bytes of a retired slot, or `None` if the slot is free.
    fn clone_content(&self, index: usize) -> Result<Option<MaybeMoved<T>>, AllocError>
        requires { index < length self.now.slots.values }
        ensures value { IfOk result (IsCloneAt (IsCloneAt T.is_clone) (value_at self.now.slots index)) }
        ensures memory { SlotMapIsInfallible T.is_infallible self.now → IsOk result }
    {
        if self.has_value(index, &mut Touches::new()) {
            let copy = self.value_at(index).clone()?;
            return Ok(Some(MaybeMoved::new(copy)));
        }
        if self.is_retired(index, &mut Touches::new()) {
            let place = SlotTableKey::new(index);
            return Ok(Some(self.slots.get_unchecked(place).copy_moved()));
        }
        Ok(None)
    }
}

impl<T: Clone, const CAPACITY: usize> Clone for FixedSizeSlotMap<T, CAPACITY> {
    ghost is_clone = { SlotMapIsClone T.is_clone };

    ghost is_infallible = { SlotMapIsInfallible T.is_infallible };

    /// Creates a map that holds clones of the values in the same slots, with the same keys, generations and free slots.
    /// O(`CAPACITY`).
    ///
    /// Returns the error of the first clone that fails, and drops the clones already made.
    fn clone(&self) -> Result<Self, AllocError> {
        prove!(self.slots.capacity() == CAPACITY);
        let words = WordTable::copy_of(InlineArray::new(0), &self.words);
        let mut slots = FixedSizeSlotTable::<MaybeMoved<T>, CAPACITY>::default();
        self.clone_contents(&mut slots)?;
        Ok(MetaSlotMap {
            slots,
            words,
            retired: self.retired,
            of: PhantomData,
        })
    }
}

impl<T: Clone, A: Allocator + Copy> SlotMap<T, A> {
    /// Creates a map of the same capacity in memory of `alloc`, which holds clones of the values in the same slots. It has the same
    /// keys, generations and free slots.
    ///
    /// O(`capacity`), with at most four allocations and `len` clones. Returns `AllocError` if an allocation or a clone fails.
    /// Nothing stays allocated then.
    pub fn try_clone_in<B: Allocator + Copy>(&self, alloc: B) -> Result<SlotMap<T, B>, AllocError>
        requires { AreEqualClones T.is_clone }
        ensures value { IfOk result (λ map. map ≡ self.now) }
        ensures memory { length self.now.slots.values ≡ 0 → IsOk result }
    {
        let mut slots = SlotTable::new(alloc, self.capacity())?;
        let words = HeapArray::new(alloc, self.capacity(), 0)?;
        let words = WordTable::copy_of(words, &self.words);
        self.clone_contents(&mut slots)?;
        Ok(MetaSlotMap {
            slots,
            words,
            retired: self.retired,
            of: PhantomData,
        })
    }
}

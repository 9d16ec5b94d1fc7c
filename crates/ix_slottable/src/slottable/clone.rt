//! Clones of slot tables.
ghost use Rattle.std.specs.Prelude.{◌≡◌, ◌↔◌, ℕ, length, replicate, None, IsOk, IfOk, OnOk};
ghost use Rattle.ix_tables.specs.Cloning.{AreEqualClones};
ghost use Rattle.ix_slottable.specs.SlotTableState.{value_at, IsHeld};
ghost use Rattle.ix_slottable.specs.SlotTableCopies.{IsCloneAt, SlotTableIsClone, SlotTableIsInfallible};

use crate::slottable::free_list::copy_links;
use crate::slottable::{FixedSizeSlotTable, MetaSlotTable, SlotTable, SlotTableKey, Storage};
use std::alloc::{AllocError, Allocator};

impl<T, M: Storage<T>> MetaSlotTable<T, M> {
    /// Inserts clones of the values of `other` at their keys in an empty table of the same capacity. The free keys are then the
    /// free keys of `other`, in the same order. Returns the error of the first clone that fails, and keeps the clones already made.
    fn fill_with_clones<N: Storage<T>>(
        &mut self,
        other: &MetaSlotTable<T, N>,
    ) -> Result<(), AllocError>
    where
        T: Clone,
        requires { self.old.values ≡ replicate (length other.now.values) None }
        ensures clones { OnOk result (SlotTableIsClone T.is_clone other.now self.new) }
        ensures memory { SlotTableIsInfallible T.is_infallible other.now → IsOk result }
    {
        self.put_clones(other)?;
        self.copy_free_keys(other);
        Ok(())
    }

    /// Does what [`MetaSlotTable::fill_with_clones`] does, except for the order of the free keys.
    fn put_clones<N: Storage<T>>(&mut self, other: &MetaSlotTable<T, N>) -> Result<(), AllocError>
    where
        T: Clone,
        requires { self.old.values ≡ replicate (length other.now.values) None }
        ensures capacity { length self.new.values ≡ length other.now.values }
        ensures values { OnOk result
            ((key : ℕ) → IsCloneAt T.is_clone (value_at other.now key) (value_at self.new key)) }
        ensures memory { SlotTableIsInfallible T.is_infallible other.now → IsOk result }
    {
        for number in 0..other.capacity() {
            let key = SlotTableKey::new(number);
            let Some(value) = other.get(key) else {
                continue;
            };
            let copy = value.clone()?;
            self.insert_at_unchecked(key, copy);
        }
        Ok(())
    }

    /// Copies the order of the free keys of `other`, which has the same free keys. O(capacity).
    #[doc(hidden)]
    pub fn copy_free_keys<N: Storage<T>>(&mut self, other: &MetaSlotTable<T, N>)
        requires capacity { length self.old.values ≡ length other.now.values }
        requires keys { (key : ℕ) → IsHeld self.old key ↔ IsHeld other.now key }
        ensures values { self.new.values ≡ self.old.values }
        ensures free { self.new.free ≡ other.now.free }
    {
        copy_links(&mut self.links, &other.links);
        self.first = other.first;
        self.len = other.len;
    }
}

impl<T: Clone, const CAPACITY: usize> Clone for FixedSizeSlotTable<T, CAPACITY> {
    ghost is_clone = { SlotTableIsClone T.is_clone };

    ghost is_infallible = { SlotTableIsInfallible T.is_infallible };

    /// Creates a table that holds clones of the values at the same keys, and has the same free keys in the same order.
    /// O(`CAPACITY`).
    ///
    /// Returns the error of the first clone that fails, and drops the clones already made.
    fn clone(&self) -> Result<Self, AllocError> {
        prove!(self.capacity() == CAPACITY);
        let mut copy = FixedSizeSlotTable::<T, CAPACITY>::default();
        copy.fill_with_clones(self)?;
        Ok(copy)
    }
}

impl<T: Clone, A: Allocator + Copy> SlotTable<T, A> {
    /// Creates a table of the same capacity in memory of `alloc`, which holds clones of the values at the same keys. It has the
    /// same free keys in the same order.
    ///
    /// O(`capacity`), with at most three allocations and `len` clones. Returns `AllocError` if an allocation or a clone fails.
    /// Nothing stays allocated then.
    pub fn try_clone_in<B: Allocator + Copy>(&self, alloc: B) -> Result<SlotTable<T, B>, AllocError>
        requires { AreEqualClones T.is_clone }
        ensures value { IfOk result (λ map. map ≡ self.now) }
        ensures memory { length self.now.values ≡ 0 → IsOk result }
    {
        let mut copy = SlotTable::new(alloc, self.capacity())?;
        copy.fill_with_clones(self)?;
        Ok(copy)
    }
}

//! Values of a slot table by their keys.
ghost use Rattle.std.specs.Prelude.{◌≡◌, Some};
ghost use Rattle.ix_slottable.specs.SlotTableState.{IsHeld, value_at};

use crate::slottable::{MetaSlotTable, SlotTableKey, Storage};
use std::ops::Index;

/// `table[key]` is the value at `key`, which has to have one. [`MetaSlotTable::get`] accepts any key. O(1).
impl<T, M: Storage<T>> Index<SlotTableKey> for MetaSlotTable<T, M> {
    type Output = T;

    ghost can_index = { λ table key. IsHeld table key };

    ghost index_gives = { λ table key value. value_at table key ≡ Some value };

    #[inline]
    fn index(&self, key: SlotTableKey) -> &T {
        self.get_unchecked(key)
    }
}

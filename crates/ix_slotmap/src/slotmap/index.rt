//! Values of a slot map by their keys.
ghost use Rattle.std.specs.Prelude.{◌≡◌, IsSome, Some};
ghost use Rattle.ix_slotmap.specs.Generations.{slot_map_value};

use crate::slotmap::{MetaSlotMap, SlotMapKey, SlotMapStorage};
use ix_tables::MaybeMoved;
use std::ops::Index;

/// `map[key]` is the value of `key`, which has to be held. [`MetaSlotMap::get`] accepts any key. O(1).
impl<T, M: SlotMapStorage<MaybeMoved<T>>> Index<SlotMapKey> for MetaSlotMap<T, MaybeMoved<T>, M> {
    type Output = T;

    ghost can_index = { λ map key. IsSome (slot_map_value map key) };

    ghost index_gives = { λ map key value. slot_map_value map key ≡ Some value };

    #[inline]
    fn index(&self, key: SlotMapKey) -> &T {
        self.value_at(key.index())
    }
}

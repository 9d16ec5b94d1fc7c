//! How the values of a slot map are dropped with it.
ghost use Rattle.ix_slotmap.specs.inner.Words.{MatchesWords, HasNoValues};

use crate::slotmap::{Content, WordTable};
use ix_slottable::slottable::{MetaSlotTable, SlotTableKey, Storage};
use ix_tables::{Array, Touches};

/// Drops the values in the slots before `end`, the value of the least index first. O(`end`).
pub(crate) fn drop_values<T: Drop, C: Content<T>, M: Storage<C>, G: Array<u64>>(
    slots: &mut MetaSlotTable<C, M>,
    words: &WordTable<G>,
    end: usize,
)
    requires { MatchesWords C.is_retired slots.old words.now end }
    ensures { HasNoValues C.is_retired slots.new words.now end }
{
    for index in 0..end {
        if words.get(index, &mut Touches::new()) % 2 == 1 {
            let place = SlotTableKey::new(index);
            drop(slots.get_unchecked_mut(place).take_value());
        }
    }
}

//! How slot maps are printed.

use crate::slotmap::{MetaSlotMap, SlotMapStorage};
use ix_tables::MaybeMoved;
use std::fmt::{self, Debug, Formatter, Write};

/// Prints a map from the held keys, each as its index and its generation, to their values, in rising order. O(capacity).
impl<T: Debug, M: SlotMapStorage<MaybeMoved<T>>> Debug for MetaSlotMap<T, MaybeMoved<T>, M> {
    fn fmt<W: Write>(&self, f: &mut Formatter<W>) -> fmt::Result {
        let mut map = f.debug_map();
        for (key, value) in self.iter() {
            map.entry(&(key.index(), key.generation()), value);
        }
        map.finish()
    }
}

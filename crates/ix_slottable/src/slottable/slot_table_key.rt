//! The keys of slot tables.
ghost use Rattle.std.specs.Prelude.{◌≡◌, ◌≤◌, length, Some, None};
ghost use Rattle.std.specs.Fmt.{decimal};
ghost use Rattle.ix_slottable.specs.SlotTableState.{value_at};

use crate::slottable::{MetaSlotTable, Storage};
use std::fmt;
use std::marker::Model;

/// A key of a slot table. Contracts see its number.
///
/// A key can have any number. The keys of a table are those with a number less than its capacity.
///
/// This is `SlotMapKey` of iceoryx2-bb-container, whose keys are plain numbers.
#[derive(Clone, Copy, Debug, PartialEq, Eq, PartialOrd, Ord, Hash)]
pub struct SlotTableKey {
    number: usize,
}

impl Model for SlotTableKey {
    ghost use Rattle.std.specs.Prelude.{ℕ};

    ghost Value = { ℕ };

    ghost view = { λ key. key.number };

    ghost inverse = { λ number. record { number = number } };
}

impl SlotTableKey {
    /// Creates a key with the number `value`. O(1).
    #[inline]
    pub fn new(value: usize) -> Self
        ensures { result ≡ value }
    {
        SlotTableKey { number: value }
    }

    /// Returns the number of the key. O(1).
    #[inline]
    pub fn value(&self) -> usize
        ensures { result ≡ self.now }
    {
        self.number
    }
}

/// The key with the greatest number, `usize::MAX`, which is out of range in every table, as [`default_key_law`] says.
impl Default for SlotTableKey {
    ghost is_default = { λ key. key ≡ 18446744073709551615 };

    #[inline]
    fn default() -> Self {
        SlotTableKey::new(usize::MAX)
    }
}

/// Writes the number of the key.
impl fmt::Display for SlotTableKey {
    ghost output = { λ key. Some (decimal key) };

    fn fmt<W: fmt::Write>(&self, f: &mut fmt::Formatter<W>) -> fmt::Result {
        self.value().fmt(f)
    }
}

/// The default key is out of range, whatever the table. This function does nothing: its contract is the law. O(1).
pub fn default_key_law<T, M: Storage<T>>(map: &MetaSlotTable<T, M>)
    ensures past { length map.now.values ≤ 18446744073709551615 }
    ensures free { value_at map.now 18446744073709551615 ≡ None }
{
    prove!(map.capacity() <= usize::MAX);
}

//! The keys of slot maps.
ghost use Rattle.std.specs.Prelude.{◌≡◌, ◌<◌, ◌⊎◌, ◌↔◌, ◌++◌, IsTrue, Some, codes};
ghost use Rattle.std.specs.Fmt.{decimal};
ghost use Rattle.ix_slotmap.specs.Generations.{IsDead, null_key};

use crate::slotmap::{MetaSlotMap, SlotMapStorage};
use ix_tables::MaybeMoved;
use std::fmt;
use std::marker::Model;

/// A key of a slot map: the index of a slot and a generation. Contracts see both numbers.
///
/// A key can have any two numbers. A map has a value for those of its keys that are held. Keys are ordered by their index,
/// and then by their generation.
///
/// This is `SlotMapKey` of iceoryx2-bb-container, with a generation beside its number.
#[derive(Clone, Copy, Debug, PartialEq, Eq, PartialOrd, Ord, Hash)]
pub struct SlotMapKey {
    index: usize,
    generation: u32,
}

impl Model for SlotMapKey {
    ghost use Rattle.ix_slotmap.specs.Generations.{SlotKey, slot_key_code};

    ghost Value = { SlotKey };

    ghost coded = { slot_key_code };

    ghost view = { λ key. record { index = key.index; generation = key.generation } };

    ghost inverse = { λ key. record { index = key.index; generation = key.generation } };
}

impl SlotMapKey {
    /// Creates a key of the slot `index` with this generation. O(1).
    #[inline]
    pub fn new(index: usize, generation: u32) -> Self
        ensures { result ≡ record { index = index; generation = generation } }
    {
        SlotMapKey { index, generation }
    }

    /// Returns the index of the slot, from 0. O(1).
    #[inline]
    pub fn index(&self) -> usize
        ensures { result ≡ self.now.index }
    {
        self.index
    }

    /// Returns the generation. O(1).
    #[inline]
    pub fn generation(&self) -> u32
        ensures { result ≡ self.now.generation }
    {
        self.generation
    }
}

/// Returns `key < other`. Keys are ordered by their index, and then by their generation: that is the contract of this function.
/// O(1).
pub fn key_order_law(key: SlotMapKey, other: SlotMapKey) -> bool
    ensures { IsTrue result ↔ ((key.index < other.index)
        ⊎ ((key.index ≡ other.index) × (key.generation < other.generation))) }
{
    key < other
}

/// The key with the index `usize::MAX` and the generation 0. It is dead in every map, as [`default_key_law`] says.
impl Default for SlotMapKey {
    ghost is_default = { λ key. key ≡ null_key };

    #[inline]
    fn default() -> Self {
        SlotMapKey::new(usize::MAX, 0)
    }
}

/// Writes the index, `v` and the generation, as `3v1`.
impl fmt::Display for SlotMapKey {
    ghost output = { λ key. Some (decimal key.index ++ (codes "v" ++ decimal key.generation)) };

    fn fmt<W: fmt::Write>(&self, f: &mut fmt::Formatter<W>) -> fmt::Result {
        write!(f, "{}v{}", self.index, self.generation)
    }
}

/// The default key is dead, whatever the map. This function does nothing: its contract is the law. O(1).
pub fn default_key_law<T, M: SlotMapStorage<MaybeMoved<T>>>(map: &MetaSlotMap<T, MaybeMoved<T>, M>)
    ensures { IsDead map.now null_key }
{
    prove!(map.capacity() <= usize::MAX);
}

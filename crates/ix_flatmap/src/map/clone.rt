//! Clones of maps.
ghost use Rattle.std.specs.Prelude.{◌≡◌, length, IsOk, IfOk};
ghost use Rattle.ix_tables.specs.Cloning.{AreEqualClones};
ghost use Rattle.ix_slottable.specs.SlotTableCopies.{SlotTableIsClone, SlotTableIsInfallible};
ghost use Rattle.ix_flatmap.specs.MapCopies.{PairIsClone, PairIsInfallible};

use crate::map::{HeapIndex, HeapMap, InlineIndex, InlineMap, MetaMap, Pair, PairIndex};
use std::alloc::{AllocError, Allocator};

impl<K: Eq + Clone, V: Clone> Clone for Pair<K, V> {
    ghost is_clone = { PairIsClone K.eq K.is_clone V.is_clone };

    ghost is_infallible = { PairIsInfallible K.eq K.is_clone K.is_infallible V.is_infallible };

    /// Creates a pair of clones of the key and of the value.
    ///
    /// Returns `AllocError` if a clone fails, or if the clone of the key is not equal to the key. In a map the two have to be
    /// equal.
    fn clone(&self) -> Result<Self, AllocError> {
        let key = self.key.clone()?;
        if key != self.key {
            return Err(AllocError);
        }
        let value = self.value.clone()?;
        Ok(Pair { key, value })
    }
}

impl<K: Eq + Clone, V: Clone, const CAPACITY: usize, I: InlineIndex<K, V, CAPACITY> + Drop> Clone
    for InlineMap<K, V, CAPACITY, I>
where
    I::Setup: Copy,
{
    ghost is_clone = { SlotTableIsClone (PairIsClone K.eq K.is_clone V.is_clone) };

    ghost is_infallible = { SlotTableIsInfallible
        (PairIsInfallible K.eq K.is_clone K.is_infallible V.is_infallible) };

    /// Creates a map that holds clones of the keys and values in the same slots. It has the same free slots in the same order, and
    /// finds keys as this map does. O(`CAPACITY`).
    ///
    /// Returns `AllocError` if a clone fails, or if the clone of a key is not equal to the key. The clones already made are dropped
    /// then.
    fn clone(&self) -> Result<Self, AllocError> {
        match self.pairs.clone() {
            Ok(pairs) => Ok(MetaMap {
                pairs,
                index: self.index.copy_inline(*self.index.setup()),
            }),
            Err(error) => Err(error),
        }
    }
}

impl<K: Eq + Clone, V: Clone, A: Allocator + Copy, I: PairIndex<Pair<K, V>>> HeapMap<K, V, A, I> {
    /// Creates a map of the same capacity in memory of `alloc`, which holds clones of the keys and values in the same slots. It has
    /// the same free slots in the same order, and finds keys as this map does.
    ///
    /// O(`capacity`), with at most as many allocations as it took to make the map, and `len` clones of keys and of values. Returns
    /// `AllocError` if an allocation or a clone fails. Nothing stays allocated then.
    ///
    /// The hash builder of a hash map has to be `Copy`.
    pub fn try_clone_in<D: Allocator + Copy>(
        &self,
        alloc: D,
    ) -> Result<HeapMap<K, V, D, <I as HeapIndex<K, V, D>>::In>, AllocError>
    where
        I: HeapIndex<K, V, D>,
        I::Setup: Copy,
        requires keys { AreEqualClones K.is_clone }
        requires values { AreEqualClones V.is_clone }
        ensures value { IfOk result (λ map. map ≡ self.now) }
        ensures memory { length self.now.values ≡ 0 → IsOk result }
    {
        let pairs = self.pairs.try_clone_in(alloc)?;
        let index = self.index.copy_in(alloc, *self.index.setup())?;
        Ok(MetaMap { pairs, index })
    }
}

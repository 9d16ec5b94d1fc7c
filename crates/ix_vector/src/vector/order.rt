//! The order of vectors, and their hash.
ghost use Rattle.std.specs.Cmp.{on_po, on_total};
ghost use Rattle.std.specs.Cmp.Lexicographic.{slice_cmp, slice_partial_cmp, lists_po, lists_total, lists_agrees, lists_ties};
ghost use Rattle.std.specs.Hash as fed;
ghost use Rattle.std.specs.Hash.{on_Alike, items_Alike};

use crate::vector::{PolymorphicVec, StaticVec};
use std::alloc::Allocator;
use std::cmp::Ordering;
use std::hash::{Hash, Hasher};

/// Vectors are compared by the first elements that are not equal, and otherwise the shorter one is less.
impl<T: Default + PartialOrd, const CAPACITY: usize> PartialOrd for StaticVec<T, CAPACITY> {
    ghost partial_cmp = { slice_partial_cmp T.partial_cmp };

    ghost laws = { lists_po T.PartialOrd.laws };

    /// Compares the vectors. O(`len`).
    fn partial_cmp(&self, other: &Self) -> Option<Ordering> {
        self.items().partial_cmp(&other.items())
    }
}

/// Vectors are compared by the first elements that are not equal, and otherwise the shorter one is less.
impl<T: Default + Ord, const CAPACITY: usize> Ord for StaticVec<T, CAPACITY> {
    ghost cmp = { slice_cmp T.cmp };

    ghost total = { lists_total T.total };

    ghost matches_partial_cmp = { lists_agrees T.matches_partial_cmp };

    ghost matches_eq = { lists_ties T.cmp T.matches_eq };

    /// Compares the vectors. O(`len`).
    fn cmp(&self, other: &Self) -> Ordering {
        self.items().cmp(&other.items())
    }
}

/// Feeds the hasher the same as a slice of the elements does: their number, and then each element. Equal vectors feed the same.
impl<T: Default + Hash, const CAPACITY: usize> Hash for StaticVec<T, CAPACITY> {
    ghost hash_input = { fed.slice T.hash_input };

    ghost respects_eq = { (items_Alike (record { fed = T.respects_eq })).fed };

    /// Feeds the vector to `state`. O(`len`).
    fn hash<H: Hasher>(&self, state: &mut H) {
        self.items().hash(state);
    }
}

/// Vectors are compared by the first elements that are not equal, and otherwise the shorter one is less. Their capacities do
/// not matter.
impl<T: PartialOrd, A: Allocator> PartialOrd for PolymorphicVec<T, A> {
    ghost partial_cmp = { λ vector other.
        slice_partial_cmp T.partial_cmp vector.items other.items };

    ghost laws = { on_po (λ vector. vector.items) (lists_po T.PartialOrd.laws) };

    /// Compares the vectors. O(`len`).
    fn partial_cmp(&self, other: &Self) -> Option<Ordering> {
        self.items.partial_cmp(&other.items)
    }
}

/// Vectors are compared by the first elements that are not equal, and otherwise the shorter one is less. Their capacities do
/// not matter.
impl<T: Ord, A: Allocator> Ord for PolymorphicVec<T, A> {
    ghost cmp = { λ vector other. slice_cmp T.cmp vector.items other.items };

    ghost total = { on_total (λ vector. vector.items) (lists_total T.total) };

    ghost matches_partial_cmp = { λ vector other.
        lists_agrees T.matches_partial_cmp vector.items other.items };

    ghost matches_eq = { λ vector other. lists_ties T.cmp T.matches_eq vector.items other.items };

    /// Compares the vectors. O(`len`).
    fn cmp(&self, other: &Self) -> Ordering {
        self.items.cmp(&other.items)
    }
}

/// Feeds the hasher the same as a slice of the elements does: their number, and then each element. Equal vectors feed the same,
/// whatever their capacities.
impl<T: Hash, A: Allocator> Hash for PolymorphicVec<T, A> {
    ghost hash_input = { λ vector. fed.slice T.hash_input vector.items };

    ghost respects_eq = { (on_Alike (λ vector. vector.items)
        (items_Alike (record { fed = T.respects_eq }))).fed };

    /// Feeds the vector to `state`. O(`len`).
    fn hash<H: Hasher>(&self, state: &mut H) {
        self.items.hash(state);
    }
}

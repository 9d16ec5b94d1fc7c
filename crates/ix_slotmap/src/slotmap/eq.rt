//! Equality of slot maps.
ghost use Rattle.std.specs.Prelude.{nat_eq, ◌&&◌};
ghost use Rattle.std.specs.Cmp.{and_per, on_per, on_equiv, partial_equiv_from_equiv};
ghost use Rattle.std.proofs.lemmas.Cmp.{and_equiv, nat_eq_equiv};
ghost use Rattle.std.specs.Cmp.Lexicographic.{pointwise, lists_per, lists_equiv};
ghost use Rattle.ix_slotmap.specs.Generations.{slot_map_entries};

use crate::slotmap::{MetaSlotMap, SlotMapStorage};
use ix_tables::MaybeMoved;

/// Maps are equal if they have the same held keys, including their generations, with equal values. Their capacities do not matter,
/// nor do the generations and the order of their free slots.
impl<T: PartialEq, M: SlotMapStorage<MaybeMoved<T>>> PartialEq
    for MetaSlotMap<T, MaybeMoved<T>, M> {
    ghost eq = { λ map other. pointwise
        (λ p q. (nat_eq p.0.index q.0.index && nat_eq p.0.generation q.0.generation) && T.eq p.1 q.1)
        (slot_map_entries map) (slot_map_entries other) };

    ghost laws = { on_per slot_map_entries (lists_per (and_per
        (and_per (on_per (λ p. p.0.index) (partial_equiv_from_equiv nat_eq_equiv))
        (on_per (λ p. p.0.generation) (partial_equiv_from_equiv nat_eq_equiv)))
        (on_per (λ p. p.1) T.laws))) };

    /// Returns `true` if the maps are equal. O(capacity).
    fn eq(&self, other: &Self) -> bool {
        let mut others = other.iter();
        for (key, value) in self.iter() {
            match others.next() {
                Some((other_key, other_value)) => {
                    if key != other_key {
                        return false;
                    }
                    if value != other_value {
                        return false;
                    }
                }
                None => return false,
            }
        }
        others.len() == 0
    }
}

impl<T: Eq, M: SlotMapStorage<MaybeMoved<T>>> Eq for MetaSlotMap<T, MaybeMoved<T>, M> {
    ghost laws = { on_equiv slot_map_entries (lists_equiv (and_equiv
        (and_equiv (on_equiv (λ p. p.0.index) nat_eq_equiv)
        (on_equiv (λ p. p.0.generation) nat_eq_equiv))
        (on_equiv (λ p. p.1) T.Eq.laws))) };
}

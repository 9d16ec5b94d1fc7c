//! Equality of slot tables.
ghost use Rattle.std.specs.Prelude.{nat_eq, ◌&&◌};
ghost use Rattle.std.specs.Cmp.{and_per, on_per, on_equiv, partial_equiv_from_equiv};
ghost use Rattle.std.proofs.lemmas.Cmp.{and_equiv, nat_eq_equiv};
ghost use Rattle.std.specs.Cmp.Lexicographic.{pointwise, lists_per, lists_equiv};
ghost use Rattle.ix_slottable.specs.SlotTableState.{entries};

use crate::slottable::{MetaSlotTable, Storage};

/// Tables are equal if they have the same held keys with equal values. Their capacities and the order of their free keys do not
/// matter.
impl<T: PartialEq, M: Storage<T>> PartialEq for MetaSlotTable<T, M> {
    ghost eq = { λ map other.
        pointwise (λ p q. nat_eq p.0 q.0 && T.eq p.1 q.1) (entries map) (entries other) };

    ghost laws = { on_per entries (lists_per (and_per
        (on_per (λ p. p.0) (partial_equiv_from_equiv nat_eq_equiv)) (on_per (λ p. p.1) T.laws))) };

    /// Returns `true` if the tables are equal. O(capacity).
    fn eq(&self, other: &Self) -> bool {
        let mut others = other.iter();
        for (key, value) in self.iter() {
            match others.next() {
                Some((other_key, other_value)) => {
                    if key != other_key {
                        return false;
                    }
                    if value != other_value {
                        return false;
                    }
                }
                None => return false,
            }
        }
        others.len() == 0
    }
}

impl<T: Eq, M: Storage<T>> Eq for MetaSlotTable<T, M> {
    ghost laws = { on_equiv entries (lists_equiv (and_equiv
        (on_equiv (λ p. p.0) nat_eq_equiv) (on_equiv (λ p. p.1) T.Eq.laws))) };
}

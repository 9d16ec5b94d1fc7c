//! The order of queues, and their hash.
ghost use Rattle.std.specs.Cmp.{on_po, on_total};
ghost use Rattle.std.specs.Cmp.Lexicographic.{slice_cmp, slice_partial_cmp, lists_po, lists_total, lists_agrees, lists_ties};
ghost use Rattle.std.specs.Hash as fed;
ghost use Rattle.std.specs.Hash.{on_Alike, items_Alike};

use crate::queue::MetaQueue;
use ix_tables::Table;
use std::cmp::Ordering;
use std::hash::{Hash, Hasher};

/// Queues are compared by the first elements that are not equal, from the front on, and otherwise the shorter one is less.
/// Their capacities do not matter.
impl<T: PartialOrd, S: Table<T>> PartialOrd for MetaQueue<T, S> {
    ghost partial_cmp = { λ queue other.
        slice_partial_cmp T.partial_cmp queue.items other.items };

    ghost laws = { on_po (λ queue. queue.items) (lists_po T.PartialOrd.laws) };

    /// Compares the queues. O(`len`).
    fn partial_cmp(&self, other: &Self) -> Option<Ordering> {
        self.iter().partial_cmp(other.iter())
    }
}

/// Queues are compared by the first elements that are not equal, from the front on, and otherwise the shorter one is less.
/// Their capacities do not matter.
impl<T: Ord, S: Table<T>> Ord for MetaQueue<T, S> {
    ghost cmp = { λ queue other. slice_cmp T.cmp queue.items other.items };

    ghost total = { on_total (λ queue. queue.items) (lists_total T.total) };

    ghost matches_partial_cmp = { λ queue other.
        lists_agrees T.matches_partial_cmp queue.items other.items };

    ghost matches_eq = { λ queue other. lists_ties T.cmp T.matches_eq queue.items other.items };

    /// Compares the queues. O(`len`).
    fn cmp(&self, other: &Self) -> Ordering {
        self.iter().cmp(other.iter())
    }
}

/// Feeds the hasher the number of elements, and then each element, the front element first. Equal queues feed the same.
impl<T: Hash, S: Table<T>> Hash for MetaQueue<T, S> {
    ghost hash_input = { λ queue. fed.slice T.hash_input queue.items };

    ghost respects_eq = { (on_Alike (λ queue. queue.items)
        (items_Alike (record { fed = T.respects_eq }))).fed };

    /// Feeds the queue to `state`. O(`len`).
    fn hash<H: Hasher>(&self, state: &mut H) {
        state.write_usize(self.len());
        for item in self.iter() {
            item.hash(state);
        }
    }
}

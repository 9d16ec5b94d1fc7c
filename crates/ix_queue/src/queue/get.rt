//! References to the elements of a queue.
ghost use Rattle.std.specs.Prelude.{◌≡◌, ◌<◌, ◌↔◌, [], IsSome, IsNone, length, option_copied, slice_get};
ghost use Rattle.std.specs.Borrow.{sem, LendsIf};
ghost use Rattle.std.specs.List.{list_any};
ghost use Rattle.std.specs.Option.{option_copied_mut};
ghost use Rattle.ix_tables.specs.Bounded.{vec_last};
ghost use Rattle.ix_queue.specs.QueueSteps.{queue_set, queue_set_back};

use crate::queue::MetaQueue;
use ix_tables::Table;

impl<T, S: Table<T>> MetaQueue<T, S> {
    ghost use Rattle.ix_queue.specs.contracts.queue.meta_queue.MetaQueue.{the_row};

    /// Returns a reference to the back element, which is the newest, or `None` if the queue is empty.
    #[must_use]
    #[inline]
    pub fn back(&self) -> Option<&T>
        ensures value { option_copied result ≡ vec_last self.now }
        ensures empty { IsNone result ↔ (self.now.items ≡ []) }
        ensures known { S.IsLen self.now.capacity }
    {
        let len = self.len();
        if len == 0 {
            return None;
        }
        Some(self.item_at(len - 1))
    }

    /// Returns a mutable reference to the back element, or `None` if the queue is empty.
    #[inline]
    pub fn back_mut(&mut self) -> Option<&mut T>
        ensures* writes_back { sem 𝓛 (LendsIf (the_row T.row S.row S.Table)
            T.row self.entry result (queue_set_back self.old) self.old) }
        ensures value { option_copied_mut result ≡ vec_last self.old }
        ensures empty { IsNone result ↔ (self.old.items ≡ []) }
        ensures known { S.IsLen self.old.capacity }
    {
        let len = self.len();
        if len == 0 {
            None
        } else {
            Some(self.item_at_mut(len - 1))
        }
    }

    /// Returns a reference to the element at `index`, where 0 is the front, or `None` if `index` is out of bounds.
    #[must_use]
    #[inline]
    pub fn get_ref(&self, index: usize) -> Option<&T>
        ensures value { option_copied result ≡ slice_get self.now.items index }
        ensures within { IsSome result ↔ (index < length self.now.items) }
        ensures known { S.IsLen self.now.capacity }
    {
        if index < self.len() {
            Some(self.item_at(index))
        } else {
            None
        }
    }

    /// Returns a mutable reference to the element at `index`, where 0 is the front, or `None` if `index` is out of bounds.
    #[inline]
    pub fn get_mut_ref(&mut self, index: usize) -> Option<&mut T>
        ensures* writes_back { sem 𝓛 (LendsIf (the_row T.row S.row S.Table)
            T.row self.entry result (queue_set self.old index) self.old) }
        ensures value { option_copied_mut result ≡ slice_get self.old.items index }
        ensures within { IsSome result ↔ (index < length self.old.items) }
        ensures known { S.IsLen self.old.capacity }
    {
        if index < self.len() {
            Some(self.item_at_mut(index))
        } else {
            None
        }
    }

    /// Returns `true` if the queue has an element that equals `item`. O(`len`).
    #[must_use]
    pub fn contains(&self, item: &T) -> bool
    where
        T: PartialEq,
        ensures value { result ≡ list_any (λ other. T.eq other item.now) self.now.items }
        ensures known { S.IsLen self.now.capacity }
    {
        self.iter().any(|other| other == item)
    }
}

//! The method that removes an element by its index.
ghost use Rattle.std.specs.Prelude.{◌≡◌, ◌-◌, ◌<◌, ◌≤◌, Some, length, slice_get};
ghost use Rattle.ix_queue.specs.QueueSteps.{queue_remove};

use crate::queue::MetaQueue;
use ix_tables::Table;
use std::mem;

impl<T, S: Table<T>> MetaQueue<T, S> {
    /// Removes the element at `index`, where 0 is the front, and returns it. The other elements keep their order. Returns `None` if
    /// `index` is out of bounds. O(min(`index`, `len - index`)).
    pub fn remove(&mut self, index: usize) -> Option<T>
        ensures value { result ≡ slice_get self.old.items index }
        ensures queue { self.new ≡ queue_remove self.old index }
        ensures refused { length self.old.items ≤ index → self.new ≡ self.old }
        ensures known { S.IsLen self.old.capacity }
    {
        let len = self.len();
        if index >= len {
            return None;
        }
        let later = len - 1 - index;
        if index < later {
            self.remove_by_front(index)
        } else {
            self.remove_by_back(later)
        }
    }

    /// Removes the element that has `index` elements before it. These move by one towards the back.
    fn remove_by_front(&mut self, index: usize) -> Option<T>
        requires { index < length self.old.items }
        ensures value { result ≡ slice_get self.old.items index }
        ensures queue { self.new ≡ queue_remove self.old index }
    {
        let mut moved = self.pop()?;
        for i in 0..index {
            moved = mem::replace(self.item_at_mut(i), moved);
        }
        Some(moved)
    }

    /// Removes the element that has `later` elements after it. These move by one towards the front.
    fn remove_by_back(&mut self, later: usize) -> Option<T>
        requires { later < length self.old.items }
        ensures value { result ≡ slice_get self.old.items (length self.old.items - 1 - later) }
        ensures queue { self.new ≡ queue_remove self.old (length self.old.items - 1 - later) }
    {
        let mut moved = self.pop_back()?;
        let last = self.len();
        for i in 0..later {
            moved = mem::replace(self.item_at_mut(last - 1 - i), moved);
        }
        Some(moved)
    }
}

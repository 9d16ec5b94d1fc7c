//! Methods that iterate over a queue and change, keep or drop its elements.
ghost use Rattle.std.specs.Prelude.{◌≡◌, ◌≤◌, length, Bool, filter, map};
ghost use Rattle.std.specs.Fn.{CalledAt, CalledAtMut};
ghost use Rattle.std.specs.List.Retain.{IsFiltered};
ghost use Rattle.ix_tables.specs.Bounded.{IsWithin, vec_truncate};
ghost use Rattle.ix_tables.specs.Calls.{Computes, IsCallableOnEach};
ghost use Rattle.ix_queue.specs.QueueCalls.{ChangesInTurn, IsCallableOnEachMut};

use crate::queue::MetaQueue;
use ix_tables::Table;

impl<T, S: Table<T>> MetaQueue<T, S> {
    /// Keeps the first `len` elements, and drops the others, the back element first. Does nothing if there are at most `len`
    /// elements. O(the number of dropped elements).
    pub fn truncate(&mut self, len: usize)
    where
        T: Drop,
        ensures queue { self.new ≡ vec_truncate self.old len }
        ensures known { S.IsLen self.old.capacity }
    {
        while self.len() > len {
            drop(self.pop_back());
        }
    }

    /// Calls `f` with a mutable reference to each element, the front element first. O(`len`).
    ///
    /// There is no `iter_mut`, since a table can lend only one element at a time.
    pub fn for_each_mut<F: FnMut(&mut T)>(&mut self, mut f: F)
        requires { IsCallableOnEachMut F.FnMut self.old.items f }
        ensures items { (last : F) × ChangesInTurn F.FnMut f self.old.items self.new.items last }
        // If `f` changes each element to `change` of it, and stays as it was, the new elements are `change` of the old ones.
        ensures mapped { (change : T → T)
            → Computes (λ g item left next. CalledAtMut F.FnMut g item tt next left) f change
            → self.new.items ≡ map change self.old.items }
        ensures capacity { self.new.capacity ≡ self.old.capacity }
        ensures known { S.IsLen self.old.capacity }
    {
        for i in 0..self.len() {
            f(self.item_at_mut(i));
        }
    }

    /// Keeps the elements for which `f` returns `true`, in their order, and drops the others. O(`len`).
    ///
    /// Calls `f` with each element, the front element first. An element for which it returns `false` is dropped right after that
    /// call.
    pub fn retain<F: FnMut(&T) -> bool>(&mut self, mut f: F)
    where
        T: Drop,
        requires { IsCallableOnEach F.FnMut self.old.items f }
        ensures items { IsFiltered (CalledAt F.FnMut) f self.old.items self.new.items }
        ensures count { length self.new.items ≤ length self.old.items }
        // If `f` computes `test` and stays as it was, the elements that pass `test` are kept.
        ensures filtered { (test : T → Bool) → Computes (CalledAt F.FnMut) f test
            → self.new.items ≡ filter test self.old.items }
        ensures capacity { self.new.capacity ≡ self.old.capacity }
        // So there is room for as many elements as were dropped.
        ensures within { IsWithin self.old }
        ensures known { S.IsLen self.old.capacity }
    {
        let capacity = self.capacity();
        // The ring turns once: the kept elements go from the front to the back.
        for i in 0..self.len() {
            if let Some(item) = self.pop() {
                if f(&item) {
                    self.append(item, capacity);
                }
            }
        }
    }
}

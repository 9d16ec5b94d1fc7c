//! Clones of queues.
ghost use Rattle.std.specs.Prelude.{◌≡◌, ◌≤◌, [], IsOk, IfOk, OnOk};
ghost use Rattle.std.specs.List.{AllZip};
ghost use Rattle.ix_tables.specs.Bounded.{IsWithin};
ghost use Rattle.ix_tables.specs.Cloning.{AreEqualClones, AreInfallible};
ghost use Rattle.ix_queue.specs.QueueCopies.{QueueIsClone};

use crate::queue::{FixedSizeQueue, MetaQueue, Queue};
use ix_tables::Table;
use std::alloc::{AllocError, Allocator};

impl<T: Clone, S: Table<T>> MetaQueue<T, S> {
    /// Appends clones of the elements of `other` to an empty queue whose capacity is not less. Returns the error of the first clone
    /// that fails, and keeps the clones already made.
    fn fill_with_clones<R: Table<T>>(&mut self, other: &MetaQueue<T, R>) -> Result<(), AllocError>
        requires empty { self.old.items ≡ [] }
        requires room { other.now.capacity ≤ self.old.capacity }
        ensures items { OnOk result (AllZip T.is_clone other.now.items self.new.items) }
        ensures capacity { self.new.capacity ≡ self.old.capacity }
        ensures memory { AreInfallible T.is_infallible other.now.items → IsOk result }
        ensures within { IsWithin other.now }
    {
        let capacity = self.capacity();
        for i in 0..other.len() {
            let item = other.item_at(i).clone()?;
            self.append(item, capacity);
        }
        Ok(())
    }
}

impl<T: Clone, const CAPACITY: usize> Clone for FixedSizeQueue<T, CAPACITY> {
    ghost is_clone = { QueueIsClone T.is_clone };

    ghost is_infallible = { λ queue. AreInfallible T.is_infallible queue.items };

    /// Creates a queue that holds clones of the elements. O(`CAPACITY`).
    ///
    /// Returns the error of the first clone that fails, and drops the clones already made.
    fn clone(&self) -> Result<Self, AllocError> {
        prove!(self.capacity() == CAPACITY);
        let mut copy = FixedSizeQueue::<T, CAPACITY>::default();
        copy.fill_with_clones(self)?;
        Ok(copy)
    }
}

impl<T: Clone, A: Allocator> Queue<T, A> {
    /// Creates a queue of the same capacity that holds clones of the elements, in memory of `alloc`.
    ///
    /// O(`capacity`), with at most two allocations and `len` clones. Returns `AllocError` if an allocation or a clone fails.
    /// Nothing stays allocated then.
    pub fn try_clone_in<B: Allocator>(&self, alloc: B) -> Result<Queue<T, B>, AllocError>
        requires { AreEqualClones T.is_clone }
        ensures value { IfOk result (λ queue. queue ≡ self.now) }
        ensures memory { self.now.capacity ≡ 0 → IsOk result }
    {
        let mut copy = Queue::new(alloc, self.capacity())?;
        copy.fill_with_clones(self)?;
        Ok(copy)
    }
}

//! Functions over any queue, as a user would write them, proved from the contracts of queues alone.
ghost use Rattle.std.specs.Prelude.{◌≡◌, ◌≤◌, not, nat_lt, filter, map, slice_get};
ghost use Rattle.ix_tables.specs.Bounded.{bounded_new};
ghost use Rattle.ix_vector.specs.VectorSteps.{vec_last};
ghost use Rattle.ix_queue.specs.QueueSteps.{queue_front, queue_set, queue_set_back, queue_set_front};

use ix_queue::MetaQueue;
use ix_tables::Table;
use std::mem;

/// Replaces the front element by `item` and returns the old one, or drops `item` and returns `None` if the queue is empty.
pub fn replace_front<T: Drop, S: Table<T>>(queue: &mut MetaQueue<T, S>, item: T) -> Option<T>
    ensures value { result ≡ queue_front queue.old }
    ensures queue { queue.new ≡ queue_set_front queue.old item }
{
    match queue.peek_mut() {
        Some(front) => Some(mem::replace(front, item)),
        None => None,
    }
}

/// Does the same as [`replace_front`], with the back element.
pub fn replace_back<T: Drop, S: Table<T>>(queue: &mut MetaQueue<T, S>, item: T) -> Option<T>
    ensures value { result ≡ vec_last queue.old }
    ensures queue { queue.new ≡ queue_set_back queue.old item }
{
    match queue.back_mut() {
        Some(back) => Some(mem::replace(back, item)),
        None => None,
    }
}

/// Does the same as [`replace_front`], with the element at `index`.
pub fn replace_at<T: Drop, S: Table<T>>(
    queue: &mut MetaQueue<T, S>,
    index: usize,
    item: T,
) -> Option<T>
    ensures value { result ≡ slice_get queue.old.items index }
    ensures queue { queue.new ≡ queue_set queue.old index item }
{
    match queue.get_mut_ref(index) {
        Some(old) => Some(mem::replace(old, item)),
        None => None,
    }
}

/// Drops the numbers that are less than `least`.
pub fn drop_below<S: Table<u64>>(queue: &mut MetaQueue<u64, S>, least: u64)
    ensures capacity { queue.new.capacity ≡ queue.old.capacity }
    ensures items { queue.new.items ≡ filter (λ n. not (nat_lt n least)) queue.old.items }
{
    queue.retain(|n| *n >= least);
}

/// Keeps the elements that pass a test of the caller.
pub fn keep_passing<T: Drop, S: Table<T>, F: FnMut(&T) -> bool>(
    queue: &mut MetaQueue<T, S>,
    test: F,
)
    requires { F.IsAlwaysCallable test }
    ensures { queue.new.capacity ≡ queue.old.capacity }
{
    queue.retain(test);
}

/// Changes each element in a way of the caller.
pub fn change_each<T, S: Table<T>, F: FnMut(&mut T)>(queue: &mut MetaQueue<T, S>, change: F)
    requires { F.IsAlwaysCallable change }
    ensures { queue.new.capacity ≡ queue.old.capacity }
{
    queue.for_each_mut(change);
}

/// Sets each number to 0.
pub fn set_to_zero<S: Table<u64>>(queue: &mut MetaQueue<u64, S>)
    ensures capacity { queue.new.capacity ≡ queue.old.capacity }
    ensures items { queue.new.items ≡ map (λ _. 0) queue.old.items }
{
    queue.for_each_mut(|n| *n = 0);
}

/// Removes all elements, and returns how many there were.
pub fn drain_all<T: Drop, S: Table<T>>(queue: &mut MetaQueue<T, S>) -> usize
    ensures { queue.new ≡ bounded_new queue.old.capacity }
{
    let mut count = 0usize;
    for item in queue.drain() {
        drop(item);
        count = count.wrapping_add(1);
    }
    count
}

/// Removes the front element through a drain, and all others with it.
pub fn drain_one<T: Drop, S: Table<T>>(queue: &mut MetaQueue<T, S>) -> Option<T>
    ensures value { result ≡ queue_front queue.old }
    ensures queue { queue.new ≡ bounded_new queue.old.capacity }
{
    queue.drain().next()
}

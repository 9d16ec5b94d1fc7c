//! The capacity of an inline queue that is passed in: each method tells it, so no function here has a line for the checker.
ghost use Rattle.std.specs.Prelude.{◌≡◌, ◌<◌, ◌≤◌, ◌↔◌, length, IsTrue, IsSome, IsErr};

use ix_queue::FixedSizeQueue;

type Samples = FixedSizeQueue<u64, 3>;

pub fn push(samples: &mut Samples) -> bool
    ensures { IsTrue result ↔ (length samples.old.items < 3) }
{
    samples.push(1)
}

pub fn try_push(samples: &mut Samples) -> Result<(), u64>
    ensures { IsErr result ↔ (length samples.old.items ≡ 3) }
{
    samples.try_push(1)
}

pub fn push_with_overflow(samples: &mut Samples) -> Option<u64>
    ensures { IsSome result ↔ (length samples.old.items ≡ 3) }
{
    samples.push_with_overflow(1)
}

pub fn pop(samples: &mut Samples) -> Option<u64>
    ensures { IsSome result → length samples.new.items < 3 }
{
    samples.pop()
}

pub fn pop_back(samples: &mut Samples) -> Option<u64>
    ensures { IsSome result → length samples.new.items < 3 }
{
    samples.pop_back()
}

pub fn remove(samples: &mut Samples) -> Option<u64>
    ensures { samples.new.capacity ≡ 3 }
{
    samples.remove(1)
}

pub fn clear(samples: &mut Samples)
    ensures { samples.new.capacity ≡ 3 }
{
    samples.clear();
}

pub fn truncate(samples: &mut Samples)
    ensures { samples.new.capacity ≡ 3 }
{
    samples.truncate(1);
}

pub fn retain(samples: &mut Samples)
    ensures { samples.new.capacity ≡ 3 }
{
    samples.retain(|sample| *sample != 7);
}

pub fn for_each_mut(samples: &mut Samples)
    ensures { samples.new.capacity ≡ 3 }
{
    samples.for_each_mut(|sample| *sample = 7);
}

pub fn drain(samples: &mut Samples)
    ensures { samples.new.capacity ≡ 3 }
{
    samples.drain();
}

pub fn len(samples: &Samples) -> usize
    ensures { result ≤ 3 }
{
    samples.len()
}

pub fn capacity(samples: &Samples) -> usize
    ensures { result ≡ 3 }
{
    samples.capacity()
}

pub fn remaining_capacity(samples: &Samples) -> usize
    ensures { result ≤ 3 }
{
    samples.remaining_capacity()
}

pub fn is_empty(samples: &Samples) -> bool
    ensures { samples.now.capacity ≡ 3 }
{
    samples.is_empty()
}

pub fn is_full(samples: &Samples) -> bool
    ensures { IsTrue result ↔ (length samples.now.items ≡ 3) }
{
    samples.is_full()
}

pub fn peek(samples: &Samples) -> Option<&u64>
    ensures { samples.now.capacity ≡ 3 }
{
    samples.peek()
}

pub fn back(samples: &Samples) -> Option<&u64>
    ensures { samples.now.capacity ≡ 3 }
{
    samples.back()
}

pub fn get_ref(samples: &Samples) -> Option<&u64>
    ensures { samples.now.capacity ≡ 3 }
{
    samples.get_ref(1)
}

pub fn get(samples: &Samples) -> u64
    requires { 0 < length samples.now.items }
    ensures { samples.now.capacity ≡ 3 }
{
    samples.get(0)
}

pub fn contains(samples: &Samples) -> bool
    ensures { samples.now.capacity ≡ 3 }
{
    samples.contains(&7)
}

pub fn set_front(samples: &mut Samples)
    ensures { samples.new.capacity ≡ 3 }
{
    if let Some(front) = samples.peek_mut() {
        *front = 7;
    }
}

pub fn set_back(samples: &mut Samples)
    ensures { samples.new.capacity ≡ 3 }
{
    if let Some(back) = samples.back_mut() {
        *back = 7;
    }
}

pub fn set(samples: &mut Samples, index: usize)
    ensures { samples.new.capacity ≡ 3 }
{
    if let Some(sample) = samples.get_mut_ref(index) {
        *sample = 7;
    }
}

pub fn count_above(samples: &Samples, bound: u64) -> usize
    ensures { samples.now.capacity ≡ 3 }
{
    samples.iter().filter(|sample| **sample > bound).count()
}

/// Of any capacity, as the type says it.
pub fn push_of<const N: usize>(samples: &mut FixedSizeQueue<u64, N>) -> bool
    ensures { IsTrue result ↔ (length samples.old.items < N) }
{
    samples.push(1)
}

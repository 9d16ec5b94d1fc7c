//! Vectors: elements that are changed in place, and the maximum number of elements. Each function is proved from the contracts of
//! its calls, the loops with an invariant.
ghost use Rattle.std.specs.Prelude.{◌≡◌, ◌-◌, ◌<◌, ◌≤◌, ◌↔◌, [], IsTrue, length, slice_get, slice_set};
ghost use Rattle.std.specs.Bool.{OnFalse};
ghost use Rattle.ix_tables.specs.Bounded.{with_items};

use ix_vector::{PolymorphicVec, StaticVec, Vector};

type Samples = StaticVec<u32, 4>;

// The maximum number of elements, by a call that lends them.

pub fn slice_len(samples: &Samples) -> usize
    ensures { result ≤ 4 }
{
    samples.as_slice().len()
}

pub fn slice_len_of<const N: usize>(samples: &StaticVec<u32, N>) -> usize
    ensures { result ≤ N }
{
    samples.as_slice().len()
}

pub fn mut_slice_len(samples: &mut Samples) -> usize
    ensures { result ≤ 4 }
{
    samples.as_mut_slice().len()
}

pub fn deref_len(samples: &Samples) -> usize
    ensures { result ≤ 4 }
{
    let items: &[u32] = samples;
    items.len()
}

pub fn iter_count(samples: &Samples) -> usize
    ensures { result ≤ 4 }
{
    samples.iter().count()
}

pub fn count_twice(samples: &Samples) -> u8
    ensures { result ≤ 8 }
{
    2 * samples.as_slice().len() as u8
}

pub fn total(samples: &Samples) -> u64 {
    let mut total = 0;
    for sample in samples {
        total += u64::from(*sample);
    }
    total
}

pub fn total_of_slice(samples: &Samples) -> u64 {
    let mut total = 0;
    for sample in samples.as_slice() {
        total += u64::from(*sample);
    }
    total
}

pub fn is_small(samples: &Samples) -> bool
    ensures { IsTrue result → length samples.now ≤ 3 }
{
    !samples.is_full()
}

pub fn push_len(samples: &mut Samples, sample: u32)
    ensures { length samples.new ≤ 4 }
{
    let _ = samples.push(sample);
}

pub fn remove_len(samples: &mut Samples, index: usize) -> Option<u32>
    ensures { length samples.new ≤ 4 }
{
    samples.remove(index)
}

// Elements by their indexes, and elements that are changed in place.

pub fn replace(samples: &mut Samples, index: usize, sample: u32) -> bool
    ensures value { IsTrue result ↔ (index < length samples.old) }
    ensures samples { samples.new ≡ slice_set samples.old index sample }
    ensures refused { OnFalse result (samples.new ≡ samples.old) }
{
    match samples.get_mut(index) {
        Some(place) => {
            *place = sample;
            true
        }
        None => false,
    }
}

pub fn replace_if(samples: &mut Samples, index: usize, sample: u32)
    ensures { samples.new ≡ slice_set samples.old index sample }
{
    if let Some(place) = samples.get_mut(index) {
        *place = sample;
    }
}

pub fn replace_allocated(samples: &mut PolymorphicVec<u32>, index: usize, sample: u32) -> bool
    ensures value { IsTrue result ↔ (index < length samples.old.items) }
    ensures samples { samples.new
        ≡ with_items samples.old (slice_set samples.old.items index sample) }
    ensures refused { OnFalse result (samples.new ≡ samples.old) }
{
    match samples.get_mut(index) {
        Some(place) => {
            *place = sample;
            true
        }
        None => false,
    }
}

pub fn replace_in<V: Vector<u32>>(samples: &mut V, index: usize, sample: u32) -> bool
    ensures value { IsTrue result ↔ (index < length (V.bounded samples.old).items) }
    ensures samples { V.bounded samples.new
        ≡ with_items (V.bounded samples.old) (slice_set (V.bounded samples.old).items index sample) }
    ensures refused { OnFalse result (samples.new ≡ samples.old) }
{
    match samples.get_mut(index) {
        Some(place) => {
            *place = sample;
            true
        }
        None => false,
    }
}

pub fn sample_at(samples: &Samples, index: usize) -> Option<u32>
    ensures { result ≡ slice_get samples.now index }
{
    samples.get(index).copied()
}

pub fn oldest(samples: &Samples) -> Option<u32>
    ensures { result ≡ slice_get samples.now 0 }
{
    samples.first().copied()
}

pub fn newest(samples: &Samples) -> Option<u32>
    ensures { result ≡ slice_get samples.now (length samples.now - 1) }
{
    samples.last().copied()
}

pub fn replace_oldest(samples: &mut Samples, sample: u32) -> bool
    ensures samples { samples.new ≡ slice_set samples.old 0 sample }
    ensures refused { OnFalse result (samples.old ≡ []) }
{
    match samples.first_mut() {
        Some(place) => {
            *place = sample;
            true
        }
        None => false,
    }
}

pub fn replace_newest(samples: &mut Samples, sample: u32) -> bool
    ensures samples { samples.new ≡ slice_set samples.old (length samples.old - 1) sample }
    ensures refused { OnFalse result (samples.old ≡ []) }
{
    match samples.last_mut() {
        Some(place) => {
            *place = sample;
            true
        }
        None => false,
    }
}

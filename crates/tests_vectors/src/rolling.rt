//! Functions over any vector, proved from the contract of its trait.
ghost use Rattle.std.specs.Prelude.{◌≡◌, ◌<◌, ◌↔◌, Some, None, length, IsOk, IfOk, IfErr, OnOk, OnErr, if◌then◌else◌, slice_get, slice_set};
ghost use Rattle.ix_tables.specs.Bounded.{has_room, with_items, bounded_push};
ghost use Rattle.ix_vector.specs.VectorSteps.{vec_remove};

use ix_vector::Vector;
use std::mem;

/// Appends `item`. If the vector is full, removes the first element before and returns it. A vector of capacity 0 drops `item`.
pub fn push_over<T: Drop, V: Vector<T>>(vector: &mut V, item: T) -> Option<T>
    ensures value { result ≡ (if has_room (V.bounded vector.old) then None else slice_get
        (V.bounded vector.old).items 0) }
    ensures vector { V.bounded vector.new ≡ bounded_push (if has_room
        (V.bounded vector.old) then V.bounded vector.old else vec_remove
        (V.bounded vector.old) 0) item }
{
    if vector.len() < vector.capacity() {
        vector.push_unchecked(item);
        return None;
    }
    let oldest = vector.remove(0);
    let _ = vector.push(item);
    oldest
}

/// Replaces the element at `index` and returns the old one, or returns `item` as the error if `index` is out of bounds.
pub fn replace_at<T: Drop, V: Vector<T>>(vector: &mut V, index: usize, item: T) -> Result<T, T>
    ensures found { IsOk result ↔ (index < length (V.bounded vector.old).items) }
    ensures value { IfOk result (λ held. slice_get (V.bounded vector.old).items index ≡ Some held) }
    ensures vector { OnOk result (V.bounded vector.new
        ≡ with_items (V.bounded vector.old) (slice_set (V.bounded vector.old).items index item)) }
    ensures refused { OnErr result (V.bounded vector.new ≡ V.bounded vector.old) }
    ensures back { IfErr result (λ refused. refused ≡ item) }
{
    if index < vector.len() {
        let items = vector.as_mut_slice();
        return Ok(mem::replace(&mut items[index], item));
    }
    Err(item)
}

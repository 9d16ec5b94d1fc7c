//! Elements that move from one vector to another.
ghost use Rattle.std.specs.Prelude.{◌≡◌, ◌-◌, ◌≤◌, ◌++◌, length, take, drop, reverse};
ghost use Rattle.ix_vector.specs.VectorSteps.{HasRoomFor, vec_extend, vec_truncate};

use crate::vector::Vector;

/// Moves the elements of `from` from index `at` on to the end of `to`, in their order. Moves each of them twice.
pub(crate) fn move_tail<T: Drop, V: Vector<T>, W: Vector<T>>(from: &mut V, at: usize, to: &mut W)
    requires at { at ≤ length (V.bounded from.old).items }
    requires room { HasRoomFor (length (V.bounded from.old).items - at) (W.bounded to.old) }
    ensures from { V.bounded from.new ≡ vec_truncate (V.bounded from.old) at }
    ensures to { W.bounded to.new
        ≡ vec_extend (W.bounded to.old) (drop at (V.bounded from.old).items) }
{
    reverse_from(from.as_mut_slice(), at);
    pop_into(from, at, to);
}

/// Moves the elements of `from` from index `at` on to the end of `to`, the last one first.
fn pop_into<T: Drop, V: Vector<T>, W: Vector<T>>(from: &mut V, at: usize, to: &mut W)
    requires at { at ≤ length (V.bounded from.old).items }
    requires room { HasRoomFor (length (V.bounded from.old).items - at) (W.bounded to.old) }
    ensures from { V.bounded from.new ≡ vec_truncate (V.bounded from.old) at }
    ensures to { W.bounded to.new
        ≡ vec_extend (W.bounded to.old) (reverse (drop at (V.bounded from.old).items)) }
{
    while from.len() > at {
        if let Some(item) = from.pop() {
            to.push_unchecked(item);
        }
    }
}

/// Reverses the elements from index `at` on.
#[inline]
pub(crate) fn reverse_from<T>(items: &mut [T], at: usize)
    requires { at ≤ length items.old }
    ensures { items.new ≡ take at items.old ++ reverse (drop at items.old) }
{
    items[at..].reverse();
}

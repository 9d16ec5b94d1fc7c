//! The iterator that drains a vector.
ghost use Rattle.std.specs.Prelude.{◌≡◌, length, Some, IfSome};
ghost use Rattle.std.specs.Iterator.{UpTo, at_most, item_count};
ghost use Rattle.std.specs.Iterator.SizeHint.{IsWithinCount};
ghost use Rattle.ix_tables.specs.Bounded.{bounded_new};
ghost use Rattle.ix_vector.specs.VectorDrain.{drain_items, drain_capacity, DrainSteps};

use crate::vector::Vector;
use std::fmt::{self, Debug, Formatter, Write};
use std::iter::FusedIterator;
use std::marker::PhantomData;

/// An iterator that removes the elements of a vector, from the first to the last, as [`Vector::drain`] returns it.
///
/// Dropping it drops the elements that are still to come, the next one first. The vector is empty then.
// The vector holds the elements in reverse order, so that the next one can be popped.
pub struct Drain<'a, T: Drop, V: Vector<T>> {
    vector: &'a mut V,
    of: PhantomData<T>,
}

impl<'a, T: Drop, V: Vector<T>> Drain<'a, T, V> {
    ghost use Rattle.ix_vector.specs.VectorDrain.{drain_lender, DrainKeepsAlong};

    /// Returns an iterator that removes all elements of `vector`, from the first to the last.
    #[inline]
    pub(crate) fn new(vector: &'a mut V) -> Self
        ensures items { drain_items V.bounded result ≡ (V.bounded vector.old).items }
        ensures capacity { drain_capacity V.bounded result ≡ (V.bounded vector.old).capacity }
        ensures same_reference { drain_lender V.bounded result ≡ vector.entry.ghost_name }
        ensures stays { DrainKeepsAlong V.bounded result }
    {
        vector.as_mut_slice().reverse();
        Drain {
            vector,
            of: PhantomData,
        }
    }
}

/// Drops the elements that are still to come, the next one first. The vector is empty then. O(the number of elements).
impl<T: Drop, V: Vector<T>> Drop for Drain<'_, T, V> {
    fn drop(self)
        ensures { V.bounded self.exit.0.now ≡ bounded_new (drain_capacity V.bounded self.entry) }
    {
        let Drain { vector, of: _ } = self;
        vector.clear();
    }
}

impl<T: Drop, V: Vector<T>> Iterator for Drain<'_, T, V> {
    type Item = T;

    ghost next_gives = { DrainSteps V.bounded };

    ghost remaining = { item_count (drain_items V.bounded) };

    /// Removes the first element and returns it, or `None` if there is none. O(1).
    #[inline]
    fn next(&mut self) -> Option<T> {
        self.vector.pop()
    }

    /// Returns the number of elements that are still to come, as both bounds. O(1).
    #[inline]
    fn size_hint(&self) -> (usize, Option<usize>)
        ensures value { result
            ≡ (length (drain_items V.bounded self.now), Some (length (drain_items V.bounded self.now))) }
        ensures lower { IsWithinCount result.0 (at_most (length (drain_items V.bounded self.now))) }
        ensures upper { IfSome result.1 (UpTo (at_most (length (drain_items V.bounded self.now)))) }
    {
        let len = self.vector.len();
        (len, Some(len))
    }
}

impl<T: Drop, V: Vector<T>> ExactSizeIterator for Drain<'_, T, V> {
    /// Returns the number of elements that are still to come. O(1).
    #[inline]
    fn len(&self) -> usize {
        self.vector.len()
    }
}

impl<T: Drop, V: Vector<T>> FusedIterator for Drain<'_, T, V> {}

/// Prints a list of the elements that are still to come. O(the number of elements).
impl<T: Drop + Debug, V: Vector<T>> Debug for Drain<'_, T, V> {
    fn fmt<W: Write>(&self, f: &mut Formatter<W>) -> fmt::Result {
        f.debug_list().entries(self.vector.iter().rev()).finish()
    }
}

//! The iterator over the values of slot tables, or over a part of each.
ghost use Rattle.std.specs.Prelude.{◌≡◌, length, map, Some, IfSome, ⊤};
ghost use Rattle.std.specs.Iterator.{YieldsFirstBy, YieldsLastBy, UpTo, at_most, item_count};
ghost use Rattle.std.specs.Iterator.SizeHint.{IsWithinCount};

use crate::slottable::{Iter, Part, Storage, Whole};
use std::alloc::AllocError;
use std::fmt::{self, Debug, Formatter, Write};
use std::iter::FusedIterator;
use std::marker::{Model, PhantomData};

/// An iterator over the values of a slot table in rising order of their keys, as
/// [`MetaSlotTable::values`](crate::MetaSlotTable::values) returns it. Contracts see the values that are still to come.
///
/// Its items are `&'a T`.
pub type Values<'a, T, M> = Parts<'a, T, M, Whole>;

/// An iterator over the part `P` of each value of a slot table in rising order of their keys. Contracts see the parts that
/// are still to come.
#[derive(Drop)]
pub struct Parts<'a, T, M: Storage<T>, P: Part<T>>
where
    P::Of: 'a,
{
    items: Iter<'a, T, M>,
    part: PhantomData<P>,
}

impl<'a, T, M: Storage<T>, P: Part<T>> Model for Parts<'a, T, M, P>
where
    P::Of: 'a,
{
    ghost use Rattle.std.specs.Prelude.{List, map};

    ghost Value = { List P.Of };

    ghost view = { λ parts. map (λ item. P.part item.1) parts.items };
}

impl<'a, T, M: Storage<T>, P: Part<T>> Parts<'a, T, M, P>
where
    P::Of: 'a,
{
    /// Returns an iterator over the part of each value of entries. O(1).
    #[doc(hidden)]
    #[inline]
    pub fn new(items: Iter<'a, T, M>) -> Self
        ensures { result ≡ map (λ item. P.part item.1) items.entry }
    {
        Parts {
            items,
            part: PhantomData,
        }
    }
}

impl<'a, T, M: Storage<T>, P: Part<T>> Iterator for Parts<'a, T, M, P>
where
    P::Of: 'a,
{
    type Item = &'a P::Of;

    ghost next_gives = { YieldsFirstBy (λ part. part.now) (λ rest. rest) };

    ghost remaining = { item_count (λ rest. rest) };

    /// Returns the part of the next value, or `None` after the last one. O(the number of free keys before it).
    #[inline]
    fn next(&mut self) -> Option<&'a P::Of> {
        match self.items.next() {
            Some((_, value)) => Some(P::of(value)),
            None => None,
        }
    }

    /// Returns the number of parts that are still to come, as both bounds. O(1).
    #[inline]
    fn size_hint(&self) -> (usize, Option<usize>)
        ensures value { result ≡ (length self.now, Some (length self.now)) }
        ensures lower { IsWithinCount result.0 (at_most (length self.now)) }
        ensures upper { IfSome result.1 (UpTo (at_most (length self.now))) }
    {
        self.items.size_hint()
    }
}

impl<'a, T, M: Storage<T>, P: Part<T>> DoubleEndedIterator for Parts<'a, T, M, P>
where
    P::Of: 'a,
{
    ghost next_back_gives = { YieldsLastBy (λ part. part.now) (λ rest. rest) };

    /// Returns the part of the last value that is still to come, or `None` if there is none. O(the number of free keys after
    /// it).
    #[inline]
    fn next_back(&mut self) -> Option<&'a P::Of> {
        match self.items.next_back() {
            Some((_, value)) => Some(P::of(value)),
            None => None,
        }
    }
}

impl<'a, T, M: Storage<T>, P: Part<T>> ExactSizeIterator for Parts<'a, T, M, P>
where
    P::Of: 'a,
{
    /// Returns the number of parts that are still to come. O(1).
    #[inline]
    fn len(&self) -> usize {
        self.items.len()
    }
}

impl<'a, T, M: Storage<T>, P: Part<T>> FusedIterator for Parts<'a, T, M, P>
where
    P::Of: 'a,
{}

impl<'a, T, M: Storage<T>, P: Part<T>> Clone for Parts<'a, T, M, P>
where
    P::Of: 'a,
{
    ghost is_clone = { λ iter clone. clone ≡ iter };

    ghost is_infallible = { λ _. ⊤ };

    /// Returns an iterator over the parts that are still to come. O(1). Never fails.
    #[inline]
    fn clone(&self) -> Result<Self, AllocError> {
        Ok(Parts {
            items: self.items.rest(),
            part: PhantomData,
        })
    }
}

/// Prints a list of the parts that are still to come. O(capacity).
impl<'a, T, M: Storage<T>, P: Part<T>> Debug for Parts<'a, T, M, P>
where
    P::Of: Debug + 'a,
{
    fn fmt<W: Write>(&self, f: &mut Formatter<W>) -> fmt::Result {
        let mut list = f.debug_list();
        for (_, value) in self.items.rest() {
            list.entry(P::of(value));
        }
        list.finish()
    }
}

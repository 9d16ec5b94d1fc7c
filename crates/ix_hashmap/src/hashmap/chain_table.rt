//! An array of links, which are chains of slots.
ghost use Rattle.std.specs.Prelude.{◌≡◌, ◌≢◌, ◌*◌, ◌<◌, ◌≤◌, length, replicate};
ghost use Rattle.ix_hashmap.specs.inner.HashChains.{no_place, no_link, head_at, next_at, links_set_head, links_set_next, links_insert_first, IsChainFrom, IsOnChain, IsBefore, IsUnlinked};

use crate::hashmap::ChainLink;
use crate::hashmap::chain_link::NO_LINK;
use ix_tables::Array;
use std::marker::Model;

/// A link for each slot of a map. Contracts see the list of links.
#[derive(Drop)]
pub(crate) struct ChainTable<C: Array<ChainLink>> {
    links: C,
}

impl<C: Array<ChainLink>> Model for ChainTable<C> {
    ghost use Rattle.std.specs.Prelude.{List};
    ghost use Rattle.ix_hashmap.specs.declared.hashmap.chain_link.ChainLink.{ChainLink};

    ghost Value = { List ChainLink };

    ghost view = { λ table. C.items table.links };
}

impl<C: Array<ChainLink>> ChainTable<C> {
    /// Wraps an array. O(1).
    #[inline]
    pub(crate) fn new(links: C) -> Self
        ensures { result ≡ C.items links }
    {
        ChainTable { links }
    }

    /// Overwrites an array of as many slots with the links of `other`, and wraps it. O(the number of slots).
    pub(crate) fn copy_of<D: Array<ChainLink>>(mut array: C, other: &ChainTable<D>) -> Self
        requires { length (C.items array) ≡ length other.now }
        ensures { result ≡ other.now }
    {
        for place in 0..array.len() {
            *array.get_mut(place) = *other.links.get(place);
        }
        ChainTable::new(array)
    }

    /// Returns the number of slots, which is a quarter of the number of buckets.
    #[inline]
    pub(crate) fn len(&self) -> usize
        ensures value { result ≡ length self.now }
        ensures known { C.IsLen (length self.now) }
    {
        self.links.len()
    }

    /// Returns the first slot in the chain of a bucket, or the number for no slot.
    #[inline]
    pub(crate) fn head(&self, bucket: u128) -> u32
        requires bucket { bucket < 4 * length self.now }
        requires fits { length self.now ≤ 18446744073709551615 }
        ensures { result ≡ head_at self.now bucket }
    {
        self.links.get((bucket / 4) as usize).head(bucket)
    }

    /// Returns the next slot of a slot in its chain, or the number for no slot.
    #[inline]
    pub(crate) fn next(&self, place: usize) -> u32
        requires { place < length self.now }
        ensures { result ≡ next_at self.now place }
    {
        self.links.get(place).next
    }

    /// Makes `place` the first slot in the chain of a bucket, before the slots that are in it. The first of these is `first`.
    #[inline]
    pub(crate) fn insert_first(&mut self, bucket: u128, first: u32, place: usize)
        requires bucket { bucket < 4 * length self.old }
        requires first { first ≡ head_at self.old bucket }
        requires place { place < length self.old }
        requires fits { length self.old ≤ no_place }
        ensures links { self.new ≡ links_insert_first self.old bucket place }
        ensures head { head_at self.new bucket ≡ place }
    {
        self.set_next(place, first);
        self.set_head(bucket, place as u32);
    }

    /// Removes a slot from the chain of a bucket, which begins at `first`. O(the number of slots before it).
    #[inline]
    pub(crate) fn remove(&mut self, bucket: u128, first: u32, place: usize)
        requires bucket { bucket < 4 * length self.old }
        requires first { first ≡ head_at self.old bucket }
        requires chain { IsChainFrom self.old (head_at self.old bucket) }
        requires has { IsOnChain self.old (head_at self.old bucket) place }
        ensures { IsUnlinked self.old bucket place self.new }
    {
        let next = self.next(place);
        if first as usize == place {
            self.set_head(bucket, next);
            return;
        }
        let previous = self.before(first as usize, place);
        self.set_next(previous, next);
    }

    /// Makes all chains empty. O(the number of slots).
    pub(crate) fn clear(&mut self)
        ensures { self.new ≡ replicate (length self.old) no_link }
    {
        for number in 0..self.links.len() {
            *self.links.get_mut(number) = NO_LINK;
        }
    }

    /// Returns the slot before another one, on the chain that begins at `first`.
    #[inline]
    fn before(&self, first: usize, place: usize) -> usize
        requires chain { IsChainFrom self.now first }
        requires has { IsOnChain self.now first place }
        requires later { first ≢ place }
        ensures { IsBefore self.now first result place }
    {
        let mut previous = first;
        let mut next = self.next(first) as usize;
        while next != place {
            previous = next;
            next = self.next(next) as usize;
        }
        previous
    }

    #[inline]
    fn set_head(&mut self, bucket: u128, place: u32)
        requires bucket { bucket < 4 * length self.old }
        requires fits { length self.old ≤ no_place }
        ensures links { self.new ≡ links_set_head self.old bucket place }
        ensures head { head_at self.new bucket ≡ place }
    {
        self.links
            .get_mut((bucket / 4) as usize)
            .set_head(bucket, place);
    }

    #[inline]
    fn set_next(&mut self, place: usize, next: u32)
        requires { place < length self.old }
        ensures { self.new ≡ links_set_next self.old place next }
    {
        self.links.get_mut(place).next = next;
    }
}

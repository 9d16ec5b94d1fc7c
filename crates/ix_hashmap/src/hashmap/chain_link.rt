//! Links of the chains of a hash map.
ghost use Rattle.std.specs.Prelude.{◌≡◌};

/// The link that a hash map keeps for each of its slots. It has the first slots of four buckets, and the slot after its own slot in
/// the chain. The numbers of the four buckets are four times the number of the slot, and up to three more.
///
/// Only hash maps make links. Name this type to write a function that accepts any [`MetaHashMap`](crate::hashmap::MetaHashMap).
#[derive(Clone, Copy, Debug)]
pub struct ChainLink {
    /// The first slots in the chains of the four buckets, or [`NO_PLACE`] where a chain is empty.
    pub(crate) heads: [u32; 4],
    /// The next slot in the chain of the slot, or [`NO_PLACE`].
    pub(crate) next: u32,
}

/// The number for no slot. No map with chains has a slot of this number.
pub(crate) const NO_PLACE: u32 = 4_294_967_295;

/// The link of four buckets without a slot, and of a slot without a next one.
pub(crate) const NO_LINK: ChainLink = ChainLink {
    heads: [NO_PLACE; 4],
    next: NO_PLACE,
};

impl ChainLink {
    ghost use Rattle.ix_hashmap.specs.inner.HashChains.{link_head, link_set_head};

    /// Returns the first slot of a bucket, of the four that the link has.
    #[inline]
    pub(crate) fn head(&self, bucket: u128) -> u32
        ensures { result ≡ link_head self.now bucket }
    {
        self.heads[(bucket % 4) as usize]
    }

    /// Makes `place` the first slot of a bucket, of the four that the link has.
    #[inline]
    pub(crate) fn set_head(&mut self, bucket: u128, place: u32)
        ensures link { self.new ≡ link_set_head self.old bucket place }
        ensures head { link_head self.new bucket ≡ place }
    {
        let index = (bucket % 4) as usize;
        self.heads[index] = place;
    }
}

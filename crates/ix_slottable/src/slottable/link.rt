//! Links of the list of free keys.
ghost use Rattle.std.specs.Prelude.{◌≡◌, ◌≢◌, true, false};
ghost use Rattle.ix_slottable.specs.inner.FreeList.{held_link};

/// A key's neighbours in the list of free keys of its table.
///
/// Only slot tables make links. Name this type to make a table of links for
/// [`MetaSlotTable::from_tables`](crate::MetaSlotTable::from_tables).
#[derive(Clone, Copy, Debug, Default)]
pub struct Link {
    /// The free key before this one, or [`NO_KEY`]. A held key names itself here.
    pub(crate) previous: usize,
    /// The free key after this one, or [`NO_KEY`].
    pub(crate) next: usize,
}

/// The number for no key. No table has a key of this number.
pub(crate) const NO_KEY: usize = usize::MAX;

impl Link {
    /// Returns the link of `key` while it is held.
    #[inline]
    pub(crate) fn held(key: usize) -> Link
        ensures { result ≡ held_link key }
    {
        Link {
            previous: key,
            next: NO_KEY,
        }
    }

    /// Returns `true` if this link, which is the link of `key`, is the link of a free key.
    #[inline]
    pub(crate) fn is_free(&self, key: usize) -> bool
        ensures free { result ≡ true → self.now.previous ≢ key }
        ensures held { result ≡ false → self.now.previous ≡ key }
    {
        self.previous != key
    }
}

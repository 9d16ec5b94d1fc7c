//! Steps on the table of links, which holds the doubly linked list of free keys.
ghost use Rattle.std.specs.Prelude.{◌≡◌, ◌+◌, ◌<◌, ◌≤◌, length, Some, None, replicate, slice_set};
ghost use Rattle.std.specs.List.{range_with_len};
ghost use Rattle.ix_tables.specs.Places.{IsHeldAt};
ghost use Rattle.ix_slottable.specs.inner.FreeList.{no_key, first_or, IsLinkTable, IsKeyOrNone, IsLinkWithin, IsRisingList, links_set_next, links_set_previous, links_remove, links_remove_first, links_insert_first, first_after_remove};

use crate::slottable::Link;
use crate::slottable::link::NO_KEY;
use ix_tables::{Counted, Table, Touches};

/// Replaces the link of `key`.
#[inline]
fn set_link<L: Table<Link>>(links: &mut Counted<L>, key: usize, link: Link, touches: &mut Touches)
    requires { IsHeldAt (L.places links.old) key }
    ensures links { L.places links.new ≡ slice_set (L.places links.old) key (Some link) }
    ensures touches { touches.new ≡ touches.old + 2 }
{
    *links.get_mut(key, touches) = link;
}

/// Makes `to` the key after `key`. Does nothing if `key` is [`NO_KEY`].
#[inline]
fn set_next<L: Table<Link>>(links: &mut Counted<L>, key: usize, to: usize, touches: &mut Touches)
    requires links { IsLinkTable (L.places links.old) }
    requires key { IsKeyOrNone key (L.places links.old) }
    ensures links { L.places links.new ≡ links_set_next (L.places links.old) key to }
    ensures touches { touches.new ≤ touches.old + 2 }
    ensures rises { touches.old ≤ touches.new }
{
    if key != NO_KEY {
        links.get_mut(key, touches).next = to;
    }
}

/// Makes `to` the key before `key`. Does nothing if `key` is [`NO_KEY`].
#[inline]
fn set_previous<L: Table<Link>>(
    links: &mut Counted<L>,
    key: usize,
    to: usize,
    touches: &mut Touches,
)
    requires links { IsLinkTable (L.places links.old) }
    requires key { IsKeyOrNone key (L.places links.old) }
    ensures links { L.places links.new ≡ links_set_previous (L.places links.old) key to }
    ensures touches { touches.new ≤ touches.old + 2 }
    ensures rises { touches.old ≤ touches.new }
{
    if key != NO_KEY {
        links.get_mut(key, touches).previous = to;
    }
}

/// Removes a free key, which has this link, from the list.
#[inline]
pub(crate) fn remove<L: Table<Link>>(
    links: &mut Counted<L>,
    key: usize,
    link: Link,
    touches: &mut Touches,
)
    requires links { IsLinkTable (L.places links.old) }
    requires key { key < length (L.places links.old) }
    requires link { IsLinkWithin (Some link) (L.places links.old) }
    ensures links { L.places links.new ≡ links_remove (L.places links.old) key link }
    ensures touches { touches.new ≤ touches.old + 6 }
    ensures rises { touches.old ≤ touches.new }
{
    set_link(links, key, Link::held(key), touches);
    set_next(links, link.previous, link.next, touches);
    set_previous(links, link.next, link.previous, touches);
}

/// Removes the first key, which is followed by `next`, from the list.
#[inline]
pub(crate) fn remove_first<L: Table<Link>>(
    links: &mut Counted<L>,
    key: usize,
    next: usize,
    touches: &mut Touches,
)
    requires links { IsLinkTable (L.places links.old) }
    requires key { key < length (L.places links.old) }
    requires next { IsKeyOrNone next (L.places links.old) }
    ensures links { L.places links.new ≡ links_remove_first (L.places links.old) key next }
    ensures touches { touches.new ≤ touches.old + 4 }
    ensures rises { touches.old ≤ touches.new }
{
    set_link(links, key, Link::held(key), touches);
    set_previous(links, next, NO_KEY, touches);
}

/// Inserts a key before `first`, the first of the list.
#[inline]
pub(crate) fn insert_first<L: Table<Link>>(
    links: &mut Counted<L>,
    key: usize,
    first: usize,
    touches: &mut Touches,
)
    requires links { IsLinkTable (L.places links.old) }
    requires key { key < length (L.places links.old) }
    requires first { IsKeyOrNone first (L.places links.old) }
    ensures links { L.places links.new ≡ links_insert_first (L.places links.old) key first }
    ensures touches { touches.new ≤ touches.old + 4 }
    ensures rises { touches.old ≤ touches.new }
{
    let link = Link {
        previous: NO_KEY,
        next: first,
    };
    set_link(links, key, link, touches);
    set_previous(links, first, key, touches);
}

/// Returns the first key of the list after a key that had this link is removed.
#[inline]
pub(crate) fn first_after_remove(first: usize, link: Link) -> usize
    ensures { result ≡ first_after_remove first link }
{
    if link.previous == NO_KEY {
        link.next
    } else {
        first
    }
}

/// Links all `len` keys in rising order, and returns the first of them. O(`len`).
pub(crate) fn link_all<L: Table<Link>>(links: &mut Counted<L>, len: usize) -> usize
    requires { L.places links.old ≡ replicate len None }
    ensures links { IsRisingList len (L.places links.new) }
    ensures first { result ≡ first_or (range_with_len 0 len) no_key }
{
    let mut touches = Touches::new();
    for key in 0..len {
        let link = Link {
            previous: if key == 0 { NO_KEY } else { key - 1 },
            next: if key + 1 == len { NO_KEY } else { key + 1 },
        };
        links.put(key, link, &mut touches);
    }
    if len == 0 { NO_KEY } else { 0 }
}

/// Copies the links of `others`, which has as many links. O(the number of links).
pub(crate) fn copy_links<L: Table<Link>, M: Table<Link>>(
    links: &mut Counted<L>,
    others: &Counted<M>,
)
    requires links { IsLinkTable (L.places links.old) }
    requires others { IsLinkTable (M.places others.now) }
    requires len { length (L.places links.old) ≡ length (M.places others.now) }
    ensures { L.places links.new ≡ M.places others.now }
{
    let mut touches = Touches::new();
    for key in 0..links.len() {
        let link = *others.get(key, &mut touches);
        set_link(links, key, link, &mut touches);
    }
}

//! An item that may have been moved out of its place.
ghost use Rattle.std.specs.Prelude.{◌≡◌, Some, None, IsSome};
ghost use Rattle.std.specs.Borrow.{sem};
ghost use Rattle.ix_tables.specs.HeldItem.{moved_lends};

use std::marker::{Move, Owns, Send, Sync};
use std::mem::ManuallyDrop;

/// An item, or the bytes of an item that was moved out. Nothing at run time says which; its owner knows. Contracts see the item, or
/// nothing.
///
/// It takes as many bytes as an item. Dropping it leaks an item that is still in it, so its owner moves the item out before. Each
/// method is O(1).
// An `Option` would have to be cleared where its item is taken. Here nothing is written.
pub struct MaybeMoved<T> {
    item: T,
}

impl<T> Owns for MaybeMoved<T> {
    ghost use Rattle.std.specs.Prelude.{Option};
    ghost use denote.Memory.{shared_of};
    ghost use denote.RawPtr.{block_of, count_of};
    ghost use Rattle.ix_tables.specs.MaybeMoved.{shares_item, shares_bytes};

    ghost Value = { Option T };

    ghost shr_at = { λ held p κ. shares_item
        (λ x. shared_of Fields (record { item = x }) (block_of p) (count_of p))
        (shares_bytes Fields.mir (λ x vs. Fields.own_val (record { item = x }) vs) (block_of p) (count_of p))
        held κ };
}

impl<T> Move for MaybeMoved<T> {
    ghost use Rattle.ix_tables.specs.MaybeMoved.{owns_item};

    ghost own_val = { λ held vs. owns_item (λ x. Fields.own_val (record { item = x }) vs) held };
}

// SAFETY: it owns an item, which may be sent, or nothing.
unsafe impl<T: Send> Send for MaybeMoved<T> {}

// SAFETY: a `&` to it is a `&` to an item, which may be shared, or to bytes that no one writes.
unsafe impl<T: Sync> Sync for MaybeMoved<T> {}

impl<T> MaybeMoved<T> {
    /// Creates a place that holds `item`.
    #[inline]
    pub fn new(item: T) -> Self
        ensures { result ≡ Some item }
    {
        MaybeMoved { item }
    }

    /// Moves the item out and returns it. Its bytes stay.
    #[inline]
    pub fn take(&mut self) -> T
        requires { IsSome self.old }
        ensures value { self.old ≡ Some result }
        ensures place { self.new ≡ None }
    {
        // SAFETY: the caller sees from now on that there is no item.
        unsafe { (&raw const self.item).read() }
    }

    /// Returns the item.
    #[inline]
    pub fn into_item(self) -> T
        requires { IsSome self }
        ensures { self ≡ Some result }
    {
        let mut place = self;
        let item = place.take();
        // SAFETY: there is no item that could be leaked.
        let _left = unsafe { ManuallyDrop::new_unchecked(place) };
        item
    }

    /// Returns a copy of the bytes of an item that was moved out.
    #[inline]
    pub fn copy_moved(&self) -> Self
        requires { self.now ≡ None }
        ensures { result ≡ None }
    {
        // SAFETY: there is no item that could be duplicated.
        unsafe { (self as *const MaybeMoved<T>).read() }
    }

    /// Returns a reference to the item.
    #[inline]
    pub fn get(&self) -> &T
        requires { IsSome self.now }
        ensures { self.now ≡ Some result.now }
    {
        &self.item
    }

    /// Returns a mutable reference to the item.
    #[inline]
    pub fn get_mut(&mut self) -> &mut T
        requires { IsSome self.old }
        ensures* writes_back { sem 𝓛 (moved_lends T.row self.entry result) }
        ensures value { self.old ≡ Some result.now }
    {
        &mut self.item
    }
}

/// Drops the bytes. An item that was not moved out is leaked.
impl<T: Drop> Drop for MaybeMoved<T> {
    #[inline]
    fn drop(self) {
        // SAFETY: the item may be dropped, so it may be leaked.
        let _leaked = unsafe { ManuallyDrop::new_unchecked(self) };
    }
}

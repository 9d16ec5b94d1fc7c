//! Rows of places in raw memory, as `[MaybeUninit<T>]`: all that touches a raw pointer.
//!
//! A row is three values: where it begins ([`RowPtr`]), the ownership of its places ([`RowOwner`]) and the right to
//! deallocate its block ([`RowGrant`]). The last two have no bytes.
ghost use Rattle.std.specs.Prelude.{◌≡◌, ℕ, ◌*◌, List, Option, Some, None, slice_set, IfOk, ⊤};
ghost use Rattle.std.specs.Borrow.{ftrue, sem};
ghost use Rattle.std.specs.Mem.{type_size};
ghost use Rattle.std.specs.Vec.Ownership.{FitsInBlock};
ghost use denote.RawPtr.{Ptr};
ghost use Rattle.ix_tables.specs.Places.{place_at, IsEmptyAt, IsHeldAt, IsVacant};
ghost use Rattle.ix_tables.specs.inner.RawMemory.{row_owns, row_shares, grant_owns};

use std::alloc::{AllocError, Allocator};
use std::marker::{Model, PhantomData, Send, Sync};
use std::mem::{align_of, size_of};

/// Where a row begins. It owns nothing.
pub struct RowPtr<T> {
    start: *mut T,
}

impl<T> Clone for RowPtr<T> {
    ghost is_clone = { λ ptr copy. copy ≡ ptr };

    ghost is_infallible = { λ _. ⊤ };

    #[inline]
    fn clone(&self) -> Result<RowPtr<T>, AllocError> {
        Ok(*self)
    }
}

impl<T> Copy for RowPtr<T> {}

// SAFETY: an address owns nothing.
unsafe impl<T> Send for RowPtr<T> {}

// SAFETY: as above.
unsafe impl<T> Sync for RowPtr<T> {}

/// Owns the places of a row and their items; it has no bytes. Contracts see how many bytes were allocated for the row.
pub struct RowOwner<T> {
    mark: PhantomData<*const T>,
    ghost start: { Ptr },
    ghost places: { List (Option T) },
    ghost bytes: { ℕ },
}

impl<T> Model for RowOwner<T> {
    ghost also_owns = { λ row. row_owns T.row row.start row.places };

    ghost also_shares = { λ row _ κ. row_shares T.row row.start row.places κ };
}

// SAFETY: it owns items, which may be sent.
unsafe impl<T: Send> Send for RowOwner<T> {}

// SAFETY: a `&` to it is a `&` to items, which may be shared.
unsafe impl<T: Sync> Sync for RowOwner<T> {}

/// The right to deallocate the block of a row from `alloc`, of size zero.
pub struct RowGrant<T, A: Allocator> {
    mark: PhantomData<*const (T, A)>,
    ghost start: { Ptr },
    ghost len: { ℕ },
    ghost alloc: { A },
}

impl<T, A: Allocator> Model for RowGrant<T, A> {
    ghost also_owns = { λ grant. grant_owns T.row
        (A.dealloc_token grant.alloc) grant.start grant.len };

    ghost also_shares = { λ _ _ _. ftrue };
}

// SAFETY: it owns the right to give a block back to an allocator, which may be sent.
unsafe impl<T, A: Allocator + Send> Send for RowGrant<T, A> {}

// SAFETY: a `&` to it owns nothing.
unsafe impl<T, A: Allocator> Sync for RowGrant<T, A> {}

impl<T, A: Allocator> RowGrant<T, A> {
    ghost use Rattle.ix_tables.specs.inner.RawRows.{IsVacantRow, IsGrantFor};

    /// Allocates a row of `len` empty places.
    pub(crate) fn allocate(
        alloc: &A,
        len: usize,
    ) -> Result<(RowPtr<T>, RowOwner<T>, Self), AllocError>
        requires { FitsInBlock T.row len }
        ensures row { IfOk result (λ made. IsVacantRow made.1 made.0.start len) }
        ensures bytes { IfOk result (λ made. made.1.bytes ≡ len * type_size T.row) }
        ensures grant { IfOk result (λ made. IsGrantFor made.2 made.0.start len alloc.now) }
    {
        match alloc.allocate(len * size_of::<T>(), align_of::<T>()) {
            Ok(block) => {
                let ptr = RowPtr {
                    start: block as *mut T,
                };
                Ok((
                    ptr,
                    RowOwner { mark: PhantomData },
                    RowGrant { mark: PhantomData },
                ))
            }
            Err(error) => Err(error),
        }
    }

    /// Deallocates a row of empty places.
    pub(crate) fn deallocate(self, alloc: &A, ptr: RowPtr<T>, len: usize, row: RowOwner<T>)
        requires row { IsVacantRow row ptr.start len }
        requires grant { IsGrantFor self ptr.start len alloc.now }
    {
        let RowGrant { mark: _ } = self;
        let RowOwner { mark: _ } = row;
        // SAFETY: the grant is for this block of `alloc`, and no place of it holds an item.
        unsafe {
            alloc.deallocate(ptr.start as *mut u8, len * size_of::<T>(), align_of::<T>());
        }
    }
}

impl<T> RowOwner<T> {
    ghost use Rattle.ix_tables.specs.inner.RawLending.{row_lends};
    ghost use Rattle.ix_tables.specs.inner.RawRows.{with_places, IsVacantRow};

    /// Returns a row of `len` empty places that have no bytes. Does not allocate.
    // The address is never dereferenced; it has to be aligned and not null.
    #[inline]
    pub(crate) fn without_bytes(len: usize) -> (RowPtr<T>, RowOwner<T>)
        requires { len * type_size T.row ≡ 0 }
        ensures row { IsVacantRow result.1 result.0.start len }
        ensures bytes { result.1.bytes ≡ 0 }
    {
        let mut none: [T; 0] = [];
        let ptr = RowPtr {
            start: &raw mut none as *mut T,
        };
        (ptr, RowOwner { mark: PhantomData })
    }

    /// Writes `item` to the empty place `i`.
    #[inline]
    pub(crate) fn write(&mut self, ptr: RowPtr<T>, i: usize, item: T)
        requires start { ptr.start ≡ self.old.start }
        requires place { IsEmptyAt self.old.places i }
        ensures { self.new ≡ with_places self.old (slice_set self.old.places i (Some item)) }
    {
        // SAFETY: the row owns place `i`, which is room for an item.
        unsafe { ptr.start.add(i).write(item) }
    }

    /// Moves the item out of the held place `i`.
    #[inline]
    pub(crate) fn read(&mut self, ptr: RowPtr<T>, i: usize) -> T
        requires start { ptr.start ≡ self.old.start }
        requires place { IsHeldAt self.old.places i }
        ensures value { place_at self.old.places i ≡ Some result }
        ensures row { self.new ≡ with_places self.old (slice_set self.old.places i None) }
    {
        // SAFETY: the row owns the item in place `i`, and gives it away.
        unsafe { ptr.start.add(i).read() }
    }

    /// Returns a reference to the item in the held place `i`.
    #[inline]
    pub(crate) fn get(&self, ptr: RowPtr<T>, i: usize) -> &T
        requires start { ptr.start ≡ self.now.start }
        requires place { IsHeldAt self.now.places i }
        ensures { place_at self.now.places i ≡ Some result.now }
    {
        // SAFETY: the row owns the item in place `i`, and is borrowed as long as the reference.
        unsafe { &*ptr.start.add(i) }
    }

    /// Returns a mutable reference to the item in the held place `i`.
    #[inline]
    pub(crate) fn get_mut(&mut self, ptr: RowPtr<T>, i: usize) -> &mut T
        requires start { ptr.start ≡ self.old.start }
        requires place { IsHeldAt self.old.places i }
        ensures* writes_back { sem 𝓛 (row_lends T.row self.entry i result) }
        ensures value { place_at self.old.places i ≡ Some result.now }
    {
        // SAFETY: as above, and nobody else borrows the row.
        unsafe { &mut *ptr.start.add(i) }
    }

    /// Gives up a row of empty places for which no bytes were allocated.
    #[inline]
    pub(crate) fn forget(self)
        requires places { IsVacant self.places }
        requires bytes { self.bytes ≡ 0 }
    {
        let RowOwner { mark: _ } = self;
    }
}

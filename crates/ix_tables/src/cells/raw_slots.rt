//! Places in raw memory, with a mark for each.
ghost use Rattle.std.specs.Prelude.{◌≡◌, ℕ, ◌≤◌, ◌*◌, length, replicate, Some, None, false, slice_set, IfOk, IsOk};
ghost use Rattle.std.specs.Borrow.{sem};
ghost use Rattle.std.specs.Mem.{type_size};
ghost use Rattle.ix_tables.specs.Memory.{no_memory, table_memory};
ghost use Rattle.ix_tables.specs.Places.{place_at, IsEmptyAt, IsHeldAt, IsVacant};

use crate::cells::MemorySize;
use crate::cells::raw_row::{RowGrant, RowOwner, RowPtr};
use std::alloc::{AllocError, Allocator, Global};
use std::fmt;
use std::marker::Model;
use std::mem::size_of;
use std_alloc::room::may_hold;

/// A fixed row of places, each empty or holding one item. Its memory is allocated from `A` when it is made, and never after.
///
/// Places are indexed from 0. A place takes the bytes of an item and one more byte for its mark. Contracts see the content of each
/// place. The owner takes every item out before it consumes the row by [`RawSlots::end`]. A row can't be dropped.
pub struct RawSlots<T, A: Allocator = Global> {
    ptr: RowPtr<T>,
    row: RowOwner<T>,
    grant: Option<RowGrant<T, A>>,
    held: Vec<bool, A>,
}

impl<T, A: Allocator> Model for RawSlots<T, A> {
    ghost use Rattle.std.specs.Prelude.{List, Option};
    ghost use Rattle.std.specs.Vec.{vec_allocator};
    ghost use Rattle.ix_tables.specs.inner.RawRows.{AreParts};

    ghost Value = { List (Option T) };

    ghost view = { λ slots. slots.row.places };

    ghost invariant = { λ slots. AreParts slots.ptr slots.row slots.grant slots.held.items
        (vec_allocator slots.held) };
}

impl<T, A: Allocator> RawSlots<T, A> {
    ghost use Rattle.ix_tables.specs.Lending.{raw_slots_lends};

    /// Returns the amount of memory that a row of `len` places allocates when it is made.
    ///
    /// This is one allocation of the places, if they have bytes, and one of their marks. There is none if `len` is 0. An allocator
    /// that rounds allocations up uses more bytes than this ([`MemorySize`]).
    ///
    /// Does not allocate. O(1).
    #[inline]
    pub fn memory_size(len: usize) -> MemorySize
        ensures value { result ≡ table_memory (type_size T.row) len }
        ensures monotone { (greater : ℕ) → len ≤ greater
            → result.bytes ≤ (table_memory (type_size T.row) greater).bytes }
        ensures none { len ≡ 0 → result ≡ no_memory }
    {
        let places = MemorySize::of_items::<T>(len);
        let marks = MemorySize::of_items::<bool>(len);
        if places.bytes == 0 {
            return marks;
        }
        places.saturating_add(marks)
    }

    /// Creates a row of `len` empty places.
    ///
    /// O(`len`), with at most two allocations, one of the places and one of their marks. If `len` is 0 there is none, and for items
    /// of size zero only the marks are allocated. Returns `AllocError` if an allocation fails, or if the places would take more
    /// than `isize::MAX` bytes. Nothing stays allocated then.
    pub fn new(alloc: A, len: usize) -> Result<Self, AllocError>
        ensures value { IfOk result (λ slots. slots ≡ replicate len None) }
        ensures memory { len ≡ 0 → IsOk result }
    {
        if len == 0 {
            return Self::without_bytes(alloc, 0);
        }
        if !may_hold::<T>(len) {
            return Err(AllocError);
        }
        if len * size_of::<T>() == 0 {
            return Self::without_bytes(alloc, len);
        }
        let held = unmarked(alloc, len)?;
        let (ptr, row, grant) = RowGrant::allocate(held.allocator(), len)?;
        Ok(RawSlots {
            ptr,
            row,
            grant: Some(grant),
            held,
        })
    }

    fn without_bytes(alloc: A, len: usize) -> Result<Self, AllocError>
        requires { len * type_size T.row ≡ 0 }
        ensures value { IfOk result (λ slots. slots ≡ replicate len None) }
        ensures memory { len ≡ 0 → IsOk result }
    {
        let held = unmarked(alloc, len)?;
        let (ptr, row) = RowOwner::without_bytes(len);
        Ok(RawSlots {
            ptr,
            row,
            grant: None,
            held,
        })
    }

    /// Returns the number of places. O(1).
    #[inline]
    pub fn len(&self) -> usize
        ensures { result ≡ length self.now }
    {
        self.held.len()
    }

    /// Puts `item` into the empty place `i`. O(1).
    #[inline]
    pub fn put(&mut self, i: usize, item: T)
        requires { IsEmptyAt self.old i }
        ensures { self.new ≡ slice_set self.old i (Some item) }
    {
        self.held[i] = true;
        self.row.write(self.ptr, i, item);
    }

    /// Removes the item from the held place `i` and returns it. O(1).
    #[inline]
    pub fn take(&mut self, i: usize) -> T
        requires { IsHeldAt self.old i }
        ensures value { place_at self.old i ≡ Some result }
        ensures places { self.new ≡ slice_set self.old i None }
    {
        self.held[i] = false;
        self.row.read(self.ptr, i)
    }

    /// Returns a reference to the item in the held place `i`. O(1).
    #[inline]
    pub fn get(&self, i: usize) -> &T
        requires { IsHeldAt self.now i }
        ensures { place_at self.now i ≡ Some result.now }
    {
        self.row.get(self.ptr, i)
    }

    /// Returns a mutable reference to the item in the held place `i`. O(1).
    #[inline]
    pub fn get_mut(&mut self, i: usize) -> &mut T
        requires { IsHeldAt self.old i }
        ensures* writes_back { sem 𝓛 (raw_slots_lends T.row A.row A.Allocator self.entry i result) }
        ensures value { place_at self.old i ≡ Some result.now }
    {
        let ptr = self.ptr;
        self.row.get_mut(ptr, i)
    }

    /// Consumes the row, all of whose places are empty, and deallocates its memory. No item is dropped.
    pub fn end(self)
        requires { IsVacant self }
    {
        let RawSlots {
            ptr,
            row,
            grant,
            held,
        } = self;
        match grant {
            Some(grant) => grant.deallocate(held.allocator(), ptr, held.len(), row),
            None => row.forget(),
        }
    }
}

/// Prints the type's name and the number of places.
impl<T, A: Allocator> fmt::Debug for RawSlots<T, A> {
    fn fmt<W: fmt::Write>(&self, f: &mut fmt::Formatter<W>) -> fmt::Result {
        f.debug_struct("RawSlots")
            .field("len", &self.len())
            .finish_non_exhaustive()
    }
}

/// Returns a row of `len` marks, none of them set.
fn unmarked<A: Allocator>(alloc: A, len: usize) -> Result<Vec<bool, A>, AllocError>
    ensures value { IfOk result (λ held. held.items ≡ replicate len false) }
    ensures memory { len ≡ 0 → IsOk result }
{
    let mut held = Vec::with_capacity(alloc, len)?;
    for _i in 0..len {
        held.push_reserved(false);
    }
    Ok(held)
}

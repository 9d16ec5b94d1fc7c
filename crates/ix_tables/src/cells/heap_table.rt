//! A table in memory of an allocator.
ghost use Rattle.std.specs.Prelude.{◌≡◌, ℕ, ◌≤◌, Some, None, IsOk, IfOk, slice_set, replicate, refl};
ghost use Rattle.std.specs.Mem.{type_size};
ghost use Rattle.ix_tables.specs.Memory.{no_memory, table_memory};

use crate::cells::{MemorySize, RawSlots, Table};
use std::alloc::{AllocError, Allocator, Global};
use std::fmt;
use std::marker::Model;

/// A table that allocates its places from `A` when it is made, and deallocates them when it ends. It never allocates after it is
/// made.
pub struct HeapTable<T, A: Allocator = Global> {
    slots: RawSlots<T, A>,
}

impl<T, A: Allocator> Model for HeapTable<T, A> {
    ghost use Rattle.std.specs.Prelude.{List, Option};

    ghost Value = { List (Option T) };

    ghost view = { λ table. table.slots };
}

impl<T: Drop, A: Allocator> HeapTable<T, A> {
    /// Returns the amount of memory that a table of `len` places allocates when it is made.
    ///
    /// This is one allocation of the places, if they have bytes, and one of their marks. There is none if `len` is 0. An allocator
    /// that rounds allocations up uses more bytes than this ([`MemorySize`]).
    ///
    /// Does not allocate. O(1).
    #[inline]
    pub fn memory_size(len: usize) -> MemorySize
        ensures value { result ≡ table_memory (type_size T.row) len }
        ensures monotone { (greater : ℕ) → len ≤ greater
            → result.bytes ≤ (table_memory (type_size T.row) greater).bytes }
        ensures none { len ≡ 0 → result ≡ no_memory }
    {
        RawSlots::<T, A>::memory_size(len)
    }

    /// Creates a table of `len` empty places.
    ///
    /// O(`len`), with at most two allocations, one of the places and one of their marks. Returns `AllocError` if an allocation
    /// fails, or if the places would take more than `isize::MAX` bytes. Nothing stays allocated then.
    pub fn new(alloc: A, len: usize) -> Result<Self, AllocError>
        ensures value { IfOk result (λ table. table ≡ replicate len None) }
        ensures memory { len ≡ 0 → IsOk result }
    {
        let slots = RawSlots::new(alloc, len)?;
        Ok(HeapTable { slots })
    }
}

/// Prints the type's name and the number of places. No method tells which of them hold an item.
impl<T, A: Allocator> fmt::Debug for HeapTable<T, A> {
    fn fmt<W: fmt::Write>(&self, f: &mut fmt::Formatter<W>) -> fmt::Result {
        f.debug_struct("HeapTable")
            .field("len", &self.slots.len())
            .finish_non_exhaustive()
    }
}

impl<T: Drop, A: Allocator> Table<T> for HeapTable<T, A> {
    ghost places = { λ table. table };

    ghost with_item = { λ table i x. slice_set table i (Some x) };

    ghost places_with_item = { λ table i x. refl };

    #[inline]
    fn len(&self) -> usize {
        self.slots.len()
    }

    #[inline]
    fn put(&mut self, i: usize, item: T) {
        self.slots.put(i, item);
    }

    #[inline]
    fn take(&mut self, i: usize) -> T {
        self.slots.take(i)
    }

    #[inline]
    fn get(&self, i: usize) -> &T {
        self.slots.get(i)
    }

    #[inline]
    fn get_mut(&mut self, i: usize) -> &mut T {
        self.slots.get_mut(i)
    }

    fn end(self) {
        let HeapTable { slots } = self;
        slots.end();
    }
}

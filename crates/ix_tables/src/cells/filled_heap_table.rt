//! A table of `Copy` items in memory of an allocator, in one block.
ghost use Rattle.std.specs.Prelude.{◌≡◌, ℕ, ◌≤◌, Some, None, IsOk, IfOk, slice_set, replicate, refl};
ghost use Rattle.std.specs.Mem.{type_size};
ghost use Rattle.ix_tables.specs.Memory.{no_memory, items_memory};

use crate::cells::filled::Filled;
use crate::cells::{MemorySize, Table};
use std::alloc::{AllocError, Allocator, Global};
use std::fmt;
use std::marker::Model;

/// A table that allocates its places from `A` in one block when it is made, and deallocates them when it is dropped. It never
/// allocates after it is made. It is for items that are `Copy`.
///
/// A place has the bytes of an item at all times, and no other bytes. Only contracts see whether it holds that item.
#[derive(Drop)]
pub struct FilledHeapTable<T, A: Allocator = Global> {
    places: Vec<Filled<T>, A>,
}

impl<T, A: Allocator> Model for FilledHeapTable<T, A> {
    ghost use Rattle.std.specs.Prelude.{List, Option};

    ghost Value = { List (Option T) };

    ghost view = { λ table. table.places.items };
}

impl<T: Copy, A: Allocator> FilledHeapTable<T, A> {
    /// Returns the amount of memory that a table of `len` places allocates when it is made.
    ///
    /// This is one allocation of `len` items, or none if `len` is 0. An allocator that rounds allocations up uses more bytes than
    /// this ([`MemorySize`]).
    ///
    /// Does not allocate. O(1).
    #[inline]
    pub fn memory_size(len: usize) -> MemorySize
        ensures value { result ≡ items_memory (type_size T.row) len }
        ensures monotone { (greater : ℕ) → len ≤ greater
            → result.bytes ≤ (items_memory (type_size T.row) greater).bytes }
        ensures none { len ≡ 0 → result ≡ no_memory }
    {
        MemorySize::of_items::<T>(len)
    }

    /// Creates a table of `len` empty places, which have the bytes of `filler`.
    ///
    /// O(`len`), with at most one allocation. Returns `AllocError` if the allocation fails, or if the places would take more than
    /// `isize::MAX` bytes.
    pub fn new(alloc: A, len: usize, filler: T) -> Result<Self, AllocError>
        ensures value { IfOk result (λ table. table ≡ replicate len None) }
        ensures memory { len ≡ 0 → IsOk result }
    {
        let mut places = Vec::with_capacity(alloc, len)?;
        for _place in 0..len {
            places.push_reserved(Filled::new(filler, false));
        }
        Ok(FilledHeapTable { places })
    }
}

/// Prints the type's name and the number of places. No method tells which of them hold an item.
impl<T, A: Allocator> fmt::Debug for FilledHeapTable<T, A> {
    fn fmt<W: fmt::Write>(&self, f: &mut fmt::Formatter<W>) -> fmt::Result {
        f.debug_struct("FilledHeapTable")
            .field("len", &self.places.len())
            .finish_non_exhaustive()
    }
}

impl<T: Copy, A: Allocator> Table<T> for FilledHeapTable<T, A> {
    ghost places = { λ table. table };

    ghost with_item = { λ table i x. slice_set table i (Some x) };

    ghost places_with_item = { λ table i x. refl };

    #[inline]
    fn len(&self) -> usize {
        self.places.len()
    }

    #[inline]
    fn put(&mut self, i: usize, item: T) {
        self.places[i] = Filled::new(item, true);
    }

    #[inline]
    fn take(&mut self, i: usize) -> T {
        self.places[i].take()
    }

    #[inline]
    fn get(&self, i: usize) -> &T {
        self.places[i].get()
    }

    #[inline]
    fn get_mut(&mut self, i: usize) -> &mut T {
        let place = &mut self.places[i];
        place.get_mut()
    }

    fn end(self) {
        let FilledHeapTable { places: _ } = self;
    }
}

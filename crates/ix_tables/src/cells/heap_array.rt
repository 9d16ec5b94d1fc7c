//! An array in memory of an allocator, in one block.
ghost use Rattle.std.specs.Prelude.{◌≡◌, ℕ, ◌≤◌, length, IsOk, IfOk, slice_set, replicate, refl};
ghost use Rattle.std.specs.Mem.{type_size};
ghost use Rattle.ix_tables.specs.Memory.{no_memory, items_memory};

use crate::cells::{Array, MemorySize};
use std::alloc::{AllocError, Allocator, Global};
use std::fmt;
use std::marker::Model;

/// An array that allocates its places from `A` in one block when it is made, and deallocates them when it is dropped. It never
/// allocates after it is made.
#[derive(Drop)]
pub struct HeapArray<T, A: Allocator = Global> {
    places: Vec<T, A>,
}

impl<T, A: Allocator> Model for HeapArray<T, A> {
    ghost use Rattle.std.specs.Prelude.{List};

    ghost Value = { List T };

    ghost view = { λ array. array.places.items };
}

impl<T: Copy, A: Allocator> HeapArray<T, A> {
    /// Returns the amount of memory that an array of `len` places allocates when it is made.
    ///
    /// This is one allocation of `len` items, or none if `len` is 0. An allocator that rounds allocations up uses more bytes than
    /// this ([`MemorySize`]).
    ///
    /// Does not allocate. O(1).
    #[inline]
    pub fn memory_size(len: usize) -> MemorySize
        ensures value { result ≡ items_memory (type_size T.row) len }
        ensures monotone { (greater : ℕ) → len ≤ greater
            → result.bytes ≤ (items_memory (type_size T.row) greater).bytes }
        ensures none { len ≡ 0 → result ≡ no_memory }
    {
        MemorySize::of_items::<T>(len)
    }

    /// Creates an array of `len` places that each hold `item`.
    ///
    /// O(`len`), with at most one allocation. Returns `AllocError` if the allocation fails, or if the places would take more than
    /// `isize::MAX` bytes.
    pub fn new(alloc: A, len: usize, item: T) -> Result<Self, AllocError>
        ensures value { IfOk result (λ array. array ≡ replicate len item) }
        ensures memory { len ≡ 0 → IsOk result }
    {
        let mut places = Vec::with_capacity(alloc, len)?;
        for _place in 0..len {
            places.push_reserved(item);
        }
        Ok(HeapArray { places })
    }
}

/// Prints the list of the items.
impl<T: fmt::Debug, A: Allocator> fmt::Debug for HeapArray<T, A> {
    fn fmt<W: fmt::Write>(&self, f: &mut fmt::Formatter<W>) -> fmt::Result {
        self.places.fmt(f)
    }
}

impl<T, A: Allocator> Array<T> for HeapArray<T, A> {
    ghost items = { λ array. array };

    ghost with_item = { λ array i x. slice_set array i x };

    ghost items_with_item = { λ array i x. refl };

    #[inline]
    fn len(&self) -> usize {
        self.places.len()
    }

    #[inline]
    fn get(&self, i: usize) -> &T {
        &self.places[i]
    }

    #[inline]
    fn get_mut(&mut self, i: usize) -> &mut T {
        &mut self.places[i]
    }
}

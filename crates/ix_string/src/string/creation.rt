//! Creating strings from bytes in memory of an allocator, and the amount of memory that a string allocates.
ghost use Rattle.std.specs.Prelude.{◌≡◌, ℕ, ◌≤◌};
ghost use Rattle.ix_tables.specs.Memory.{items_memory, no_memory};
ghost use Rattle.ix_string.specs.Creation.{HeapStringFromBytes};

use crate::string::text::is_text;
use crate::string::{HeapString, HeapStringKind, String, StringCreationError};
use ix_tables::MemorySize;
use ix_vector::PolymorphicVec;
use std::alloc::Allocator;

impl<K: HeapStringKind, A: Allocator> HeapString<K, A> {
    /// Creates a string that holds the bytes and has no room for more: its capacity is their number. O(`bytes.len()`), with one
    /// allocation from `alloc`, or none if `bytes` is empty.
    ///
    /// Returns [`StringCreationError::InvalidCharacter`] if one of the bytes is 0 or above 127, and otherwise
    /// [`StringCreationError::OutOfMemory`] if the allocation fails. Nothing stays allocated then.
    pub fn try_from_bytes(alloc: A, bytes: &[u8]) -> Result<Self, StringCreationError>
        ensures { HeapStringFromBytes bytes.now result }
    {
        if !is_text(bytes) {
            return Err(StringCreationError::InvalidCharacter);
        }
        let mut string = HeapString::in_vector(PolymorphicVec::new(alloc, bytes.len())?);
        string.insert_bytes_unchecked(0, bytes);
        Ok(string)
    }

    /// Creates a string that holds the bytes of `text` and has no room for more: its capacity is their number. O(`text.len()`),
    /// with one allocation from `alloc`, or none if `text` is empty.
    ///
    /// Returns the errors of [`HeapString::try_from_bytes`].
    #[inline]
    pub fn try_from_str(alloc: A, text: &str) -> Result<Self, StringCreationError>
        ensures { HeapStringFromBytes text.now result }
    {
        HeapString::try_from_bytes(alloc, text.as_bytes())
    }

    /// Returns the amount of memory that a string of this capacity allocates when it is made.
    ///
    /// This is one allocation of that many bytes, or none if the capacity is 0. An allocator that rounds allocations up uses more
    /// bytes than this ([`MemorySize`]).
    ///
    /// Does not allocate. O(1).
    #[inline]
    #[must_use]
    pub fn memory_size(capacity: usize) -> MemorySize
        ensures value { result ≡ items_memory 1 capacity }
        ensures monotone { (greater : ℕ) → capacity ≤ greater
            → result.bytes ≤ (items_memory 1 greater).bytes }
        ensures none { capacity ≡ 0 → result ≡ no_memory }
    {
        PolymorphicVec::<u8, A>::memory_size(capacity)
    }
}

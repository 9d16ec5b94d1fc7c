//! The kinds of heap strings: polymorphic and relocatable ones.
ghost use Rattle.std.specs.Prelude.{◌≡◌, ℕ, List, codes, IsOk, IfOk};
ghost use Rattle.ix_tables.specs.Bounded.{bounded_new};

use crate::string::heap_string::HeapString;
use ix_tables::{ContainerFamily, Uninit};
use ix_vector::PolymorphicVec;
use std::alloc::{AllocError, Allocator, Global};
use std::marker::PhantomData;

/// The kind of a [`HeapString`](crate::HeapString), whose name its `Debug` text begins with.
pub trait HeapStringKind {
    /// The name of this kind of string, as `PolymorphicString`.
    ghost text: { List ℕ };

    /// Returns the name of this kind of string, as `PolymorphicString`.
    fn name() -> &'static str
        ensures { result.now ≡ text };
}

/// The kind of [`PolymorphicString`](crate::PolymorphicString).
#[derive(Drop, Debug)]
pub struct Polymorphic;

impl HeapStringKind for Polymorphic {
    ghost text = { codes "PolymorphicString" };

    #[inline]
    fn name() -> &'static str {
        "PolymorphicString"
    }
}

/// The kind of [`RelocatableString`](crate::RelocatableString).
#[derive(Drop, Debug)]
pub struct Relocatable;

impl HeapStringKind for Relocatable {
    ghost text = { codes "RelocatableString" };

    #[inline]
    fn name() -> &'static str {
        "RelocatableString"
    }
}

/// A string in memory of the allocator `A`, which is allocated when the string is made.
///
/// This is `PolymorphicString` of iceoryx2-bb-container.
pub type PolymorphicString<A = Global> = HeapString<Polymorphic, A>;

impl<A: Allocator> PolymorphicString<A> {
    /// Creates an empty string with room for `capacity` bytes.
    ///
    /// O(1), with at most one allocation. A capacity of 0 allocates nothing. Returns `AllocError` if the allocation fails, or if
    /// the bytes would be more than `isize::MAX`. Nothing stays allocated then.
    pub fn new(alloc: A, capacity: usize) -> Result<Self, AllocError>
        ensures value { IfOk result (λ string. string ≡ bounded_new capacity) }
        ensures memory { capacity ≡ 0 → IsOk result }
    {
        Ok(HeapString::in_vector(PolymorphicVec::new(alloc, capacity)?))
    }
}

impl<A: Allocator + Copy> PolymorphicString<A> {
    /// Creates a string with the same bytes and the same capacity. Allocates once from the string's allocator, or not
    /// at all if the capacity is 0. O(`len`).
    ///
    /// Returns `AllocError` if the allocation fails.
    pub fn try_clone(&self) -> Result<Self, AllocError>
        ensures value { IfOk result (λ string. string ≡ self.now) }
        ensures memory { self.now.capacity ≡ 0 → IsOk result }
    {
        Ok(HeapString {
            bytes: self.bytes.try_clone()?,
            kind: PhantomData,
        })
    }
}

/// A string that can be initialised in two phases: an [`UninitString`] has a capacity, and its `init` allocates the memory from the
/// allocator `A`.
///
/// This is `RelocatableString` of iceoryx2-bb-container.
pub type RelocatableString<A = Global> = HeapString<Relocatable, A>;

impl<A: Allocator> RelocatableString<A> {
    /// Creates an uninitialised string for `capacity` bytes. Does not allocate. O(1).
    /// The allocator is the one that is passed to `init`, whatever `A` is here.
    #[inline]
    pub fn new_uninit(capacity: usize) -> UninitString
        ensures { result ≡ capacity }
    {
        UninitString::new_uninit(capacity)
    }
}

/// The family of relocatable strings: one type for each allocator.
#[derive(Drop, Debug)]
pub struct StringFamily;

impl<A: Allocator> ContainerFamily<A> for StringFamily {
    type Container = RelocatableString<A>;

    ghost is_empty_with = { λ capacity string. string ≡ bounded_new capacity };

    /// Creates an empty string with room for `capacity` bytes. O(1), with at most one allocation.
    #[inline]
    fn with_capacity(alloc: A, capacity: usize) -> Result<RelocatableString<A>, AllocError> {
        let bytes = PolymorphicVec::new(alloc, capacity)?;
        Ok(HeapString::in_vector(bytes))
    }
}

/// An uninitialised string: a capacity, and no memory yet.
/// [`RelocatableContainer::init`](ix_tables::RelocatableContainer::init) makes it a [`RelocatableString`].
pub type UninitString = Uninit<StringFamily>;

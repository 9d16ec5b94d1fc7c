//! The vector with two-phase initialisation.
ghost use Rattle.std.specs.Prelude.{◌≡◌};
ghost use Rattle.ix_tables.specs.Bounded.{bounded_new};

use crate::vector::PolymorphicVec;
use ix_tables::cells::{ContainerFamily, Uninit};
use std::alloc::{AllocError, Allocator, Global};
use std::marker::PhantomData;

/// A vector with two-phase initialisation: an [`UninitVec`] has the capacity, and its `init` allocates from `A`.
///
/// Once initialised it is a [`PolymorphicVec`]. This is `RelocatableVec` of iceoryx2-bb-container.
pub type RelocatableVec<T, A = Global> = PolymorphicVec<T, A>;

impl<T, A: Allocator> RelocatableVec<T, A> {
    /// Creates an uninitialised vector for `capacity` elements. Does not allocate. O(1).
    /// The allocator is the one that is passed to `init`, whatever `A` is here.
    #[inline]
    pub fn new_uninit(capacity: usize) -> UninitVec<T>
        ensures { result ≡ capacity }
    {
        UninitVec::new_uninit(capacity)
    }
}

/// An uninitialised [`RelocatableVec`]: a capacity, and no memory yet.
pub type UninitVec<T> = Uninit<VecFamily<T>>;

/// The relocatable vectors of `T`, one type for each allocator.
#[derive(Drop)]
pub struct VecFamily<T> {
    of: PhantomData<T>,
}

impl<T: Drop, A: Allocator> ContainerFamily<A> for VecFamily<T> {
    type Container = RelocatableVec<T, A>;

    ghost is_empty_with = { λ capacity vector. vector ≡ bounded_new capacity };

    /// Creates an empty vector with room for `capacity` elements. O(1), with at most one allocation.
    #[inline]
    fn with_capacity(alloc: A, capacity: usize) -> Result<RelocatableVec<T, A>, AllocError> {
        PolymorphicVec::new(alloc, capacity)
    }
}

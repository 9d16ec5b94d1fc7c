//! Containers with two-phase initialisation: first with a capacity, then with memory.
ghost use Rattle.std.specs.Prelude.{◌≡◌, ℕ, IfOk, IfErr, Some, codes, ⊤};

use std::alloc::AllocError;
use std::error::Error;
use std::fmt;
use std::marker::Model;

/// The error of [`RelocatableContainer::init`]: the memory for the capacity cannot be allocated. It holds the uninitialised
/// container, and contracts see it as that container.
#[derive(Drop)]
pub struct InitError<U> {
    uninit: U,
}

impl<U> Model for InitError<U> {
    ghost Value = { U };

    ghost coded = { U.code };

    ghost view = { λ error. error.uninit };
}

impl<U> InitError<U> {
    /// Creates an error that holds `uninit`. O(1).
    #[inline]
    pub fn new(uninit: U) -> Self
        ensures { result ≡ uninit }
    {
        InitError { uninit }
    }

    /// Returns the uninitialised container, which has the capacity that it had. O(1).
    #[inline]
    pub fn into_uninit(self) -> U
        ensures { result ≡ self }
    {
        let InitError { uninit } = self;
        uninit
    }
}

impl<U> fmt::Display for InitError<U> {
    ghost output = { λ _. Some (codes "memory allocation failed") };

    fn fmt<W: fmt::Write>(&self, f: &mut fmt::Formatter<W>) -> fmt::Result {
        let _uninit = &self.uninit;
        f.write_str("memory allocation failed")
    }
}

impl<U> fmt::Debug for InitError<U> {
    ghost debug_output = { λ _. Some (codes "InitError { .. }") };

    fn fmt<W: fmt::Write>(&self, f: &mut fmt::Formatter<W>) -> fmt::Result {
        let _uninit = &self.uninit;
        f.write_str("InitError { .. }")
    }
}

impl<U: Drop> Error for InitError<U> {}

/// Drops the uninitialised container. So a function that returns `AllocError` can use `init(alloc)?`.
impl<U: Drop> From<InitError<U>> for AllocError {
    ghost from_gives = { λ _ _. ⊤ };

    #[inline]
    fn from(error: InitError<U>) -> AllocError {
        drop(error);
        AllocError
    }
}

/// A container with two-phase initialisation. It is made uninitialised with a capacity, and `init` allocates its memory from an
/// allocator `A`.
///
/// The only method of an uninitialised container is [`RelocatableContainer::init`].
///
/// This is `RelocatableContainer` of iceoryx2-bb-container.
pub trait RelocatableContainer<A>: Sized {
    /// The initialised container.
    type Ready;

    /// The capacity that the container will have.
    ghost capacity_of: { Self → ℕ };

    /// Holds of a capacity and an empty container of that capacity.
    ghost is_empty_with: { ℕ → Self.Ready → Type 0 };

    /// Creates an uninitialised container for `capacity` items. Does not allocate. O(1).
    fn new_uninit(capacity: usize) -> Self
        ensures { capacity_of result ≡ capacity };

    /// Allocates from `alloc` and returns the empty container.
    ///
    /// Returns `self` in an [`InitError`] if an allocation fails or the capacity is too great. Nothing stays allocated then.
    fn init(self, alloc: A) -> Result<Self::Ready, InitError<Self>>
        ensures value { IfOk result (is_empty_with (capacity_of self)) }
        ensures refused { IfErr result (λ error. error ≡ self) };
}

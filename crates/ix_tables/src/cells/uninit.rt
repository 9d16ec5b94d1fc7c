//! Containers that have a capacity, and no memory yet.
ghost use Rattle.std.specs.Prelude.{◌≡◌, ℕ, IsOk, IfOk, IfErr};

use crate::cells::{InitError, RelocatableContainer};
use std::alloc::AllocError;
use std::fmt;
use std::marker::{Model, PhantomData};

/// The containers of one kind, with one type for each allocator `A`. [`Uninit`] initialises them.
pub trait ContainerFamily<A> {
    /// The container in memory of an `A`.
    type Container;

    /// Holds of a capacity and an empty container of that capacity.
    ghost is_empty_with: { ℕ → Self.Container → Type 0 };

    /// Creates an empty container for `capacity` items in memory of `alloc`, or returns `AllocError` if an allocation
    /// fails.
    fn with_capacity(alloc: A, capacity: usize) -> Result<Self::Container, AllocError>
        ensures value { IfOk result (is_empty_with capacity) }
        ensures memory { capacity ≡ 0 → IsOk result };
}

/// An uninitialised container of the family `F`: a capacity, and no memory yet. Contracts see it as that capacity.
///
/// Its only method is [`RelocatableContainer::init`].
#[derive(Drop)]
pub struct Uninit<F> {
    capacity: usize,
    of: PhantomData<F>,
}

impl<F> Model for Uninit<F> {
    ghost use Rattle.std.specs.Prelude.{ℕ};
    ghost use Rattle.std.specs.Coded.{coded_ℕ};

    ghost Value = { ℕ };

    ghost coded = { coded_ℕ };

    ghost view = { λ uninit. uninit.capacity };
}

impl<F> Uninit<F> {
    /// Creates an uninitialised container for `capacity` items. Does not allocate. O(1).
    #[inline]
    pub fn new_uninit(capacity: usize) -> Self
        ensures { result ≡ capacity }
    {
        Uninit {
            capacity,
            of: PhantomData,
        }
    }
}

impl<A, F: ContainerFamily<A>> RelocatableContainer<A> for Uninit<F> {
    type Ready = F::Container;

    ghost capacity_of = { λ uninit. uninit };

    ghost is_empty_with = { F.is_empty_with };

    #[inline]
    fn new_uninit(capacity: usize) -> Self {
        Uninit::new_uninit(capacity)
    }

    fn init(self, alloc: A) -> Result<F::Container, InitError<Self>>
        ensures value { IfOk result (F.is_empty_with self) }
        ensures refused { IfErr result (λ error. error ≡ self) }
        ensures memory { self ≡ 0 → IsOk result }
    {
        match F::with_capacity(alloc, self.capacity) {
            Ok(container) => Ok(container),
            Err(AllocError) => Err(InitError::new(self)),
        }
    }
}

/// Prints the capacity.
impl<F> fmt::Debug for Uninit<F> {
    fn fmt<W: fmt::Write>(&self, f: &mut fmt::Formatter<W>) -> fmt::Result {
        f.debug_struct("Uninit")
            .field("capacity", &self.capacity)
            .finish()
    }
}

//! The cell that is initialised in two phases.
ghost use Rattle.std.specs.Prelude.{◌≡◌, ◌≤◌, length, IfErr};
ghost use Rattle.ix_atomic.specs.declared.byte_atomic.relocatable_byte_atomic.TheConstants.{MAX_SIZE};

use crate::byte_atomic::{AtomicCopy, FixedSizeByteAtomic, MaybeTorn};
use ix_tables::InitError;
use std::alloc::{Allocator, Global};
use std::fmt;
use std::marker::PhantomData;
use std::sync::atomic::AtomicU8;

/// The maximum number of atomic bytes of an allocation, which has at most `isize::MAX` bytes.
const MAX_SIZE: usize = isize::MAX as usize / size_of::<AtomicU8>();

/// A [`FixedSizeByteAtomic`] in memory of an allocator `A`.
///
/// It is initialised in two phases: `new_uninit` does not allocate, and [`UninitByteAtomic::init`] does.
///
/// This is `RelocatableByteAtomic` of iceoryx2-bb-container.
#[derive(Drop)]
pub struct RelocatableByteAtomic<T, const SIZE: usize, A: Allocator = Global> {
    cell: Box<FixedSizeByteAtomic<T, SIZE>, A>,
    ghost allocated: { SIZE ≤ MAX_SIZE },
}

impl<T, const SIZE: usize, A: Allocator> RelocatableByteAtomic<T, SIZE, A> {
    /// Creates an uninitialised cell. Does not allocate. O(1).
    #[inline]
    pub fn new_uninit() -> UninitByteAtomic<T, SIZE> {
        UninitByteAtomic::new_uninit()
    }
}

impl<T: AtomicCopy, const SIZE: usize, A: Allocator> RelocatableByteAtomic<T, SIZE, A> {
    /// Returns the bytes, as [`FixedSizeByteAtomic::read`] does. O(`SIZE`).
    #[must_use]
    #[inline]
    pub fn read(&self) -> MaybeTorn<T, SIZE>
        ensures { length result ≡ SIZE }
    {
        self.cell.read()
    }

    /// Writes the encoding of `value`, as [`FixedSizeByteAtomic::write`] does. O(`SIZE`).
    #[inline]
    pub fn write(&self, value: T)
        requires { SIZE ≡ T.SIZE }
    {
        self.cell.write(value);
    }
}

/// An uninitialised [`RelocatableByteAtomic`]: it has no memory yet, and offers [`UninitByteAtomic::init`] alone.
#[derive(Drop)]
pub struct UninitByteAtomic<T, const SIZE: usize> {
    of: PhantomData<T>,
}

impl<T, const SIZE: usize> UninitByteAtomic<T, SIZE> {
    /// Creates an uninitialised cell. Does not allocate. O(1).
    #[inline]
    pub fn new_uninit() -> Self {
        UninitByteAtomic { of: PhantomData }
    }
}

impl<T, const SIZE: usize> fmt::Debug for UninitByteAtomic<T, SIZE> {
    fn fmt<W: fmt::Write>(&self, f: &mut fmt::Formatter<W>) -> fmt::Result {
        f.debug_struct("UninitByteAtomic").finish()
    }
}

impl<T: AtomicCopy, const SIZE: usize> UninitByteAtomic<T, SIZE> {
    /// Allocates from `alloc` once and returns a cell that holds `value`. O(`SIZE`).
    ///
    /// Returns `self` in an [`InitError`] if the allocation fails; nothing stays allocated then. No allocation has more than
    /// `isize::MAX` bytes.
    ///
    /// An unproved run stops here if `SIZE` is not `T::SIZE`.
    pub fn init<A: Allocator>(
        self,
        alloc: A,
        value: T,
    ) -> Result<RelocatableByteAtomic<T, SIZE, A>, InitError<Self>>
        requires { SIZE ≡ T.SIZE }
        ensures { IfErr result (λ error. error ≡ self) }
    {
        prove!(SIZE == T::SIZE);
        if SIZE > MAX_SIZE {
            return Err(InitError::new(self));
        }
        match Box::new(alloc, FixedSizeByteAtomic::new(value)) {
            Ok(cell) => Ok(RelocatableByteAtomic { cell }),
            Err(_) => Err(InitError::new(self)),
        }
    }
}

/// Prints the type's name. The bytes may be those of a write in progress.
impl<T, const SIZE: usize, A: Allocator> fmt::Debug for RelocatableByteAtomic<T, SIZE, A> {
    fn fmt<W: fmt::Write>(&self, f: &mut fmt::Formatter<W>) -> fmt::Result {
        f.debug_struct("RelocatableByteAtomic")
            .finish_non_exhaustive()
    }
}

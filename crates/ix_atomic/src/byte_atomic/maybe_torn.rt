//! Bytes that may be of several values.
ghost use Rattle.std.specs.Prelude.{◌≡◌, ◌↔◌, Some};

use crate::byte_atomic::AtomicCopy;
use std::fmt;
use std::marker::{Model, PhantomData};

/// The `SIZE` bytes that were read from a byte-wise atomic cell of `T`, one after the other. Contracts see it as these
/// bytes.
///
/// The read is torn if another thread wrote to the cell while it lasted: then the bytes may be of several values. Use it
/// beside a synchronization that tells torn reads, such as a sequence lock.
///
/// This is `MaybeTorn` of iceoryx2-bb-container.
#[derive(Drop)]
pub struct MaybeTorn<T, const SIZE: usize> {
    bytes: [u8; SIZE],
    of: PhantomData<T>,
}

impl<T, const SIZE: usize> Model for MaybeTorn<T, SIZE> {
    ghost use Rattle.std.specs.Prelude.{ℕ, ◌≡◌, List, length};

    ghost Value = { List ℕ };

    ghost view = { λ torn. torn.bytes };

    ghost invariant = { λ torn. length torn.bytes ≡ SIZE };
}

impl<T, const SIZE: usize> MaybeTorn<T, SIZE> {
    /// Creates a `MaybeTorn` of the bytes. O(1).
    #[inline]
    pub fn new(bytes: [u8; SIZE]) -> Self
        ensures { result ≡ bytes.entry }
    {
        MaybeTorn {
            bytes,
            of: PhantomData,
        }
    }
}

impl<T: AtomicCopy, const SIZE: usize> MaybeTorn<T, SIZE> {
    /// Returns the value with these bytes as its encoding, or `None` if no value has it. O(`SIZE`).
    ///
    /// The bytes of a torn read may be the encoding of a value that no thread wrote. An unproved run stops here if `SIZE` is not
    /// `T::SIZE`.
    #[must_use]
    #[inline]
    pub fn assume_consistent(self) -> Option<T>
        requires { SIZE ≡ T.SIZE }
        ensures { (v : T) → (result ≡ Some v) ↔ (T.is_value v × (self ≡ T.encoding v)) }
    {
        prove!(SIZE == T::SIZE);
        let MaybeTorn { bytes, of: _ } = self;
        T::decode(&bytes)
    }
}

/// Prints the bytes, as `MaybeTorn { bytes: [1, 2] }`.
impl<T, const SIZE: usize> fmt::Debug for MaybeTorn<T, SIZE> {
    fn fmt<W: fmt::Write>(&self, f: &mut fmt::Formatter<W>) -> fmt::Result {
        f.debug_struct("MaybeTorn")
            .field("bytes", &self.bytes)
            .finish()
    }
}

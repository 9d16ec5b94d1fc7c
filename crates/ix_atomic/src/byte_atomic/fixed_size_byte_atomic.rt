//! The cell that is stored inline.
ghost use Rattle.std.specs.Prelude.{◌≡◌, length};

use crate::byte_atomic::{AtomicCopy, MaybeTorn};
use std::marker::PhantomData;
use std::sync::atomic::{AtomicU8, Ordering};
use std::{array, fmt};

/// A cell that is stored inline and holds the encoding of a `T` in `SIZE` atomic bytes. `SIZE` is `T::SIZE`.
///
/// Threads share it by reference. Each byte is read and written atomically, by `Ordering::SeqCst`, but not all of them at once:
/// reads and writes may be torn if a thread writes while others read or write. Contracts say nothing of its bytes, since any thread
/// may change them at any time.
///
/// This is `FixedSizeByteAtomic` of iceoryx2-bb-container.
#[derive(Drop)]
pub struct FixedSizeByteAtomic<T, const SIZE: usize> {
    bytes: [AtomicU8; SIZE],
    of: PhantomData<T>,
}

impl<T: AtomicCopy, const SIZE: usize> FixedSizeByteAtomic<T, SIZE> {
    /// Creates a cell that holds `value`. Does not allocate. O(`SIZE`).
    ///
    /// An unproved run stops here if `SIZE` is not `T::SIZE`.
    pub fn new(value: T) -> Self
        requires { SIZE ≡ T.SIZE }
    {
        prove!(SIZE == T::SIZE);
        let mut bytes = [0; SIZE];
        value.encode(&mut bytes);
        FixedSizeByteAtomic {
            bytes: array::from_fn(|i| AtomicU8::new(bytes[i])),
            of: PhantomData,
        }
    }

    /// Returns the bytes, each read atomically, from the first to the last. O(`SIZE`).
    #[must_use]
    pub fn read(&self) -> MaybeTorn<T, SIZE>
        ensures { length result ≡ SIZE }
    {
        MaybeTorn::new(array::from_fn(|i| self.bytes[i].load(Ordering::SeqCst)))
    }

    /// Writes the encoding of `value`, each byte atomically, from the first to the last. O(`SIZE`).
    pub fn write(&self, value: T)
        requires { SIZE ≡ T.SIZE }
    {
        let mut encoding = [0; SIZE];
        value.encode(&mut encoding);
        for (cell, byte) in self.bytes.iter().zip(&encoding) {
            cell.store(*byte, Ordering::SeqCst);
        }
    }
}

/// Prints the type's name. The bytes may be those of a write in progress.
impl<T, const SIZE: usize> fmt::Debug for FixedSizeByteAtomic<T, SIZE> {
    fn fmt<W: fmt::Write>(&self, f: &mut fmt::Formatter<W>) -> fmt::Result {
        f.debug_struct("FixedSizeByteAtomic")
            .finish_non_exhaustive()
    }
}

//! The error of methods that change a vector.
ghost use Rattle.std.specs.Prelude.{Some};

use std::error::Error;
use std::fmt;

/// The error of methods that change a vector. The vector is unchanged when a method returns it.
///
/// This is `VectorModificationError` of iceoryx2-bb-container, with [`VectorModificationError::OutOfMemory`] added.
#[derive(Clone, Copy, PartialEq, Eq, Debug)]
pub enum VectorModificationError {
    /// The index is greater than the length.
    OutOfBounds,
    /// There would be more elements than the capacity.
    InsertWouldExceedCapacity,
    /// An allocation failed while an element was cloned.
    OutOfMemory,
}

impl fmt::Display for VectorModificationError {
    ghost use Rattle.ix_vector.specs.ErrorTexts.{vec_error_text};

    ghost output = { λ error. Some (vec_error_text error) };

    fn fmt<W: fmt::Write>(&self, f: &mut fmt::Formatter<W>) -> fmt::Result {
        f.write_str(match self {
            VectorModificationError::OutOfBounds => "VectorModificationError::OutOfBounds",
            VectorModificationError::InsertWouldExceedCapacity => {
                "VectorModificationError::InsertWouldExceedCapacity"
            }
            VectorModificationError::OutOfMemory => "VectorModificationError::OutOfMemory",
        })
    }
}

impl Error for VectorModificationError {}

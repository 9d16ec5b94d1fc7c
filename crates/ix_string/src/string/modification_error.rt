//! The error of creating or changing a string.
ghost use Rattle.std.specs.Prelude.{Some};

use std::error::Error;
use std::fmt;

/// The error of creating or changing a string. A change that returns it leaves the string unchanged.
///
/// This is `StringModificationError` of iceoryx2-bb-container.
#[derive(Clone, Copy, PartialEq, Eq, Debug)]
pub enum StringModificationError {
    /// A byte is 0 or above 127.
    InvalidCharacter,
    /// The length would exceed the capacity.
    InsertWouldExceedCapacity,
}

impl fmt::Display for StringModificationError {
    ghost use Rattle.ix_string.specs.ErrorTexts.{string_error_text};

    ghost output = { λ error. Some (string_error_text error) };

    fn fmt<W: fmt::Write>(&self, f: &mut fmt::Formatter<W>) -> fmt::Result {
        f.write_str(match self {
            StringModificationError::InvalidCharacter => {
                "StringModificationError::InvalidCharacter"
            }
            StringModificationError::InsertWouldExceedCapacity => {
                "StringModificationError::InsertWouldExceedCapacity"
            }
        })
    }
}

impl Error for StringModificationError {}

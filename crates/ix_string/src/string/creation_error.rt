//! The error of creating a string from bytes in memory of an allocator.
ghost use Rattle.std.specs.Prelude.{◌≡◌, Some};
ghost use Rattle.ix_string.specs.declared.string.creation_error.StringCreationError.TheVariants.{OutOfMemory};

use std::alloc::AllocError;
use std::error::Error;
use std::fmt;

/// The error of creating a string from bytes in memory of an allocator. Nothing stays allocated.
#[derive(Clone, Copy, PartialEq, Eq, Debug)]
pub enum StringCreationError {
    /// A byte is 0 or above 127.
    InvalidCharacter,
    /// The allocation for the bytes failed.
    OutOfMemory,
}

/// A failed allocation becomes [`StringCreationError::OutOfMemory`].
impl From<AllocError> for StringCreationError {
    ghost from_gives = { λ _ result. result ≡ OutOfMemory };

    fn from(_error: AllocError) -> StringCreationError {
        StringCreationError::OutOfMemory
    }
}

impl fmt::Display for StringCreationError {
    ghost use Rattle.ix_string.specs.ErrorTexts.{creation_error_text};

    ghost output = { λ error. Some (creation_error_text error) };

    fn fmt<W: fmt::Write>(&self, f: &mut fmt::Formatter<W>) -> fmt::Result {
        f.write_str(match self {
            StringCreationError::InvalidCharacter => "StringCreationError::InvalidCharacter",
            StringCreationError::OutOfMemory => "StringCreationError::OutOfMemory",
        })
    }
}

impl Error for StringCreationError {}

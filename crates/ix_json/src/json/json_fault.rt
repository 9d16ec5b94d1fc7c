//! The error of conversions to and from JSON.

use thiserror::Error;

/// The error of a conversion to JSON or from it.
#[derive(Clone, Copy, PartialEq, Eq, Debug, Error)]
pub enum JsonFault {
    /// The JSON value is of another kind, or a number of another type.
    #[error("wrong kind")]
    WrongKind,
    /// A string has more bytes, an array more entries, or an object more members than there is room for.
    #[error("too long")]
    TooLong,
    /// A string has a byte that is 0 or above 127.
    #[error("byte outside 1 to 127")]
    BadByte,
    /// A string does not obey the rules of its type, or a member has a key that the map to fill has already.
    #[error("invalid content")]
    InvalidContent,
    /// An allocation for the JSON value failed.
    #[error("out of memory")]
    OutOfMemory,
}

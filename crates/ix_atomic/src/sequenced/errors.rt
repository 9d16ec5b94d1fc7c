//! The errors of sequenced cells.
ghost use Rattle.std.specs.Prelude.{◌≡◌, Some};

use crate::byte_atomic::steps::VersionsUsedUp;
use std::error::Error;
use std::fmt;

/// The error of a read that a write interfered with. It holds the two versions that the read loaded: the first is odd, or
/// less than the last.
#[derive(Clone, Copy, Debug, PartialEq, Eq)]
pub struct Interfered {
    /// The version before the bytes.
    pub first: u64,
    /// The version after the bytes.
    pub last: u64,
}

impl fmt::Display for Interfered {
    ghost use Rattle.ix_atomic.specs.History.{interfered_text};

    ghost output = { λ error. Some interfered_text };

    fn fmt<W: fmt::Write>(&self, f: &mut fmt::Formatter<W>) -> fmt::Result {
        f.write_str("a write interfered with the read")
    }
}

impl Error for Interfered {}

/// The error of a write that did not begin. `Busy` holds the versions that the call loaded.
#[derive(Clone, Copy, Debug, PartialEq, Eq)]
pub enum TryWriteError {
    /// Another write is in progress, or began before this one could.
    Busy {
        /// The version that was loaded first.
        loaded: u64,
        /// The version that was there instead of `loaded` when this write tried to begin; `loaded` itself if it is odd, since then
        /// it did not try.
        found: u64,
    },
    /// The version is 18,446,744,073,709,551,614, the greatest even number of a `u64`.
    VersionsUsedUp,
}

impl From<VersionsUsedUp> for TryWriteError {
    ghost use Rattle.ix_atomic.specs.declared.sequenced.errors.TryWriteError.TheVariants.{VersionsUsedUp};

    ghost from_gives = { λ error result. result ≡ VersionsUsedUp };

    fn from(_: VersionsUsedUp) -> TryWriteError {
        TryWriteError::VersionsUsedUp
    }
}

impl fmt::Display for TryWriteError {
    ghost use Rattle.ix_atomic.specs.Writers.{try_write_text};

    ghost output = { λ error. Some (try_write_text error) };

    fn fmt<W: fmt::Write>(&self, f: &mut fmt::Formatter<W>) -> fmt::Result {
        match self {
            TryWriteError::Busy { .. } => f.write_str("another write is in progress or came first"),
            TryWriteError::VersionsUsedUp => f.write_str("all versions are used up"),
        }
    }
}

impl Error for TryWriteError {}

/// The error of a cell that is closed during a write.
#[derive(Clone, Copy, Debug, PartialEq, Eq)]
pub struct Unfinished;

impl fmt::Display for Unfinished {
    ghost use Rattle.ix_atomic.specs.Writers.{unfinished_text};

    ghost output = { λ error. Some unfinished_text };

    fn fmt<W: fmt::Write>(&self, f: &mut fmt::Formatter<W>) -> fmt::Result {
        f.write_str("a write is in progress")
    }
}

impl Error for Unfinished {}

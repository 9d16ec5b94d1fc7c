//! Versions: numbers that are even between two writes, and odd during one.
ghost use Rattle.std.specs.Prelude.{◌≡◌, ◌+◌, ◌%◌, ◌↔◌, Some, IfOk, IsErr};
ghost use Rattle.ix_atomic.specs.Versions.{last_version};

use std::error::Error;
use std::fmt;

/// The greatest even version: no write can begin at it.
const LAST_VERSION: u64 = 18_446_744_073_709_551_614;

/// The error of a write at the greatest even version of a `u64`: no even version is left for its end.
#[derive(Clone, Copy, Debug, PartialEq, Eq)]
pub struct VersionsUsedUp;

impl fmt::Display for VersionsUsedUp {
    ghost use Rattle.ix_atomic.specs.Versions.{versions_used_up_text};

    ghost output = { λ error. Some versions_used_up_text };

    fn fmt<W: fmt::Write>(&self, f: &mut fmt::Formatter<W>) -> fmt::Result {
        f.write_str("all versions are used up")
    }
}

impl Error for VersionsUsedUp {}

/// Returns the odd version during a write that begins at the even `version`, and the even version after it. O(1).
///
/// Returns [`VersionsUsedUp`] if `version` is the greatest even number of a `u64`.
#[inline]
pub fn next_versions(version: u64) -> Result<(u64, u64), VersionsUsedUp>
    requires { version % 2 ≡ 0 }
    ensures value { IfOk result (λ next. next ≡ (version + 1, version + 2)) }
    ensures refused { IsErr result ↔ (version ≡ last_version) }
{
    if version == LAST_VERSION {
        Err(VersionsUsedUp)
    } else {
        Ok((version + 1, version + 2))
    }
}

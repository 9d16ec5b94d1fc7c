//! An input: one read of it, and the end of a line in what was read.
ghost use Rattle.std.specs.Prelude.{◌≡◌, ◌<◌, ◌+◌, ◌++◌, ◌∷◌, IfSome, IfNone, length, take, drop};
ghost use Rattle.ix_run.specs.Lines.{IsOneLine, line_feed};
ghost use Rattle.ix_run.specs.inner.Input.{ReadsOnce};

use crate::run::ScriptFault;
use memchr::memchr;
use std::io::{ErrorKind, Read};
use std::simd::prelude::*;

/// The number of bytes that are searched first, in one step, because most lines are shorter.
const NEAR_LEN: usize = 32;

/// Returns the index of the first line feed, if it is near.
#[inline(always)]
fn near_line_end(bytes: &[u8]) -> Option<usize>
    ensures { IfSome result (λ at. (at < length bytes.now) × IsOneLine (take at bytes.now)
        × (bytes.now ≡ take at bytes.now ++ line_feed ∷ drop (at + 1) bytes.now)) }
{
    if bytes.len() < NEAR_LEN {
        return None;
    }
    let ends = u8x32::from_slice(bytes)
        .simd_eq(u8x32::splat(b'\n'))
        .to_bitmask();
    if ends == 0 {
        return None;
    }
    Some(ends.trailing_zeros() as usize)
}

/// Returns the index of the first line feed, near or far. It is not inlined, so that the code of the caller stays small.
#[inline(never)]
fn far_line_end(bytes: &[u8]) -> Option<usize>
    ensures found { IfSome result (λ at. (at < length bytes.now) × IsOneLine (take at bytes.now)
        × (bytes.now ≡ take at bytes.now ++ line_feed ∷ drop (at + 1) bytes.now)) }
    ensures none { IfNone result (IsOneLine bytes.now) }
{
    memchr(b'\n', bytes)
}

/// Returns the index of the first line feed.
#[inline(always)]
pub(crate) fn line_end(bytes: &[u8]) -> Option<usize>
    ensures found { IfSome result (λ at. (at < length bytes.now) × IsOneLine (take at bytes.now)
        × (bytes.now ≡ take at bytes.now ++ line_feed ∷ drop (at + 1) bytes.now)) }
    ensures none { IfNone result (IsOneLine bytes.now) }
{
    match near_line_end(bytes) {
        Some(at) => Some(at),
        None => far_line_end(bytes),
    }
}

/// Reads once, and returns the number of bytes, or `None` if the read was interrupted.
pub(crate) fn read_once<R: Read>(
    reader: &mut R,
    buffer: &mut [u8],
) -> Result<Option<usize>, ScriptFault>
    ensures { ReadsOnce (R.remaining reader.old) (R.remaining reader.new) result buffer.new }
{
    match reader.read(buffer) {
        Ok(count) => Ok(Some(count)),
        Err(error) => {
            if error.kind() == ErrorKind::Interrupted {
                return Ok(None);
            }
            Err(ScriptFault::Read)
        }
    }
}

//! The length of a string that ends with a zero.
ghost use Rattle.std.specs.Prelude.{◌≡◌, min};
ghost use Rattle.ix_string.specs.Text.{nul_position};

/// Returns the index of the first zero among the first `n` bytes. If there is none, returns `n` or `bytes.len()`,
/// whichever is less. O(`n`).
///
/// This is `strnlen` of iceoryx2-bb-container, which reads from a pointer.
#[must_use]
pub fn strnlen(bytes: &[u8], n: usize) -> usize
    ensures { result ≡ min n (nul_position bytes.now) }
{
    let end = n.min(bytes.len());
    memchr::memchr(0, &bytes[..end]).unwrap_or(end)
}

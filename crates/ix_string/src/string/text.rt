//! The test of bytes that strings accept.
ghost use Rattle.std.specs.Prelude.{◌≡◌};
ghost use Rattle.ix_string.specs.Text.{is_text};

/// Returns `true` if each byte is from 1 to 127.
pub(crate) fn is_text(bytes: &[u8]) -> bool
    ensures { result ≡ is_text bytes.now }
{
    let mut all = true;
    for byte in bytes {
        // The loop does not end early, so that many bytes are tested in one step.
        all = all & (*byte > 0) & (*byte < 128);
    }
    all
}

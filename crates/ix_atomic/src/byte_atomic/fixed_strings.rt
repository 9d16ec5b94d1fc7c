//! The encodings of fixed strings.
ghost use Rattle.std.specs.Prelude.{◌≡◌, ◌≤◌, ◌↔◌, length, All, IsTrue};
ghost use Rattle.ix_string.specs.Text.{IsText, padded_text};
ghost use Rattle.ix_atomic.specs.laws.EncodingLaws.{padded_text-len, padded_text-one_value};

use crate::byte_atomic::AtomicCopy;
use ix_string::{StaticString, String, strnlen};

/// Returns `true` if each byte is 0. O(`bytes.len()`).
fn are_zeros(bytes: &[u8]) -> bool
    ensures { IsTrue result ↔ All (λ byte. byte ≡ 0) bytes.now }
{
    bytes.iter().all(|byte| *byte == 0)
}

/// The bytes of the string, then zeros.
impl<const CAPACITY: usize> AtomicCopy for StaticString<CAPACITY> {
    const SIZE: usize = CAPACITY;

    ghost SIZE = { CAPACITY };

    ghost is_value = { λ text. IsText text × (length text ≤ CAPACITY) };

    ghost encoding = { padded_text CAPACITY };

    fn encode(&self, out: &mut [u8]) {
        let (text, rest) = out.split_at_mut(self.len());
        text.copy_from_slice(self.as_bytes());
        rest.fill(0);
    }

    fn decode(bytes: &[u8]) -> Option<Self> {
        let (text, rest) = bytes.split_at(strnlen(bytes, bytes.len()));
        if !are_zeros(rest) {
            return None;
        }
        StaticString::from_bytes(text).ok()
    }

    ghost encoding_len = { λ text is. padded_text-len CAPACITY text is.1 };

    ghost one_value = { λ v w v_is w_is same.
        padded_text-one_value CAPACITY v w v_is.0 w_is.0 same };
}

//! The encodings of `()` and `bool`.
ghost use Rattle.std.specs.Prelude.{true, false, [], refl};
ghost use Rattle.ix_atomic.specs.Encoding.{bool_encoding};
ghost use Rattle.ix_atomic.specs.laws.EncodingLaws.{bool_encoding-one_value};

use crate::byte_atomic::AtomicCopy;

/// No bytes.
impl AtomicCopy for () {
    const SIZE: usize = 0;

    ghost SIZE = { 0 };

    ghost is_value = { λ _. Unit {0} };

    ghost encoding = { λ _. [] };

    #[inline]
    fn encode(&self, _out: &mut [u8]) {}

    #[inline]
    fn decode(_bytes: &[u8]) -> Option<()> {
        Some(())
    }

    ghost encoding_len = { λ _ _. refl };

    ghost one_value = { λ _ _ _ _ _. refl };
}

/// One byte, 0 for `false` and 1 for `true`.
impl AtomicCopy for bool {
    const SIZE: usize = 1;

    ghost SIZE = { 1 };

    ghost is_value = { λ _. Unit {0} };

    ghost encoding = { bool_encoding };

    #[inline]
    fn encode(&self, out: &mut [u8]) {
        out[0] = u8::from(*self);
    }

    #[inline]
    fn decode(bytes: &[u8]) -> Option<bool> {
        match bytes[0] {
            0 => Some(false),
            1 => Some(true),
            _ => None,
        }
    }

    ghost encoding_len = { elim [ false ↦ λ _. refl | true ↦ λ _. refl ] };

    ghost one_value = { λ v w _ _ same. bool_encoding-one_value v w same };
}

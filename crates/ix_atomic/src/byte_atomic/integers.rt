//! The encodings of integers: the least byte first.
ghost use Rattle.std.specs.Prelude.{◌≡◌, ◌<◌, ◌^◌, ◌∷◌, [], refl, length, slice_index, FitsSigned};
ghost use Rattle.std.specs.Int.{w16, w32, w64, to_le_bytes, from_le_bytes};
ghost use Rattle.std.proofs.Common.{sym, ◌∙◌, ap};
ghost use Rattle.std.proofs.lemmas.Nat.{from_le_bytes-to_le_bytes_2, from_le_bytes-to_le_bytes_4, from_le_bytes-to_le_bytes_8};
ghost use Rattle.ix_atomic.specs.Encoding.{i64_encoding};
ghost use Rattle.ix_atomic.specs.laws.EncodingLaws.{i64_encoding-one_value};

use crate::byte_atomic::AtomicCopy;

/// Returns a copy of the `N` bytes. O(`N`).
#[inline]
pub(super) fn to_array<const N: usize>(bytes: &[u8]) -> [u8; N]
    requires { length bytes.now ≡ N }
    ensures { result ≡ bytes.now }
{
    let mut array = [0; N];
    array.copy_from_slice(bytes);
    array
}

/// One byte.
impl AtomicCopy for u8 {
    const SIZE: usize = 1;

    ghost SIZE = { 1 };

    ghost is_value = { λ n. n < 2 ^ 8 };

    ghost encoding = { λ n. n ∷ [] };

    #[inline]
    fn encode(&self, out: &mut [u8]) {
        out[0] = *self;
    }

    #[inline]
    fn decode(bytes: &[u8]) -> Option<u8> {
        Some(bytes[0])
    }

    ghost encoding_len = { λ _ _. refl };

    ghost one_value = { λ _ _ _ _ same. ap (λ bytes. slice_index bytes 0) same };
}

/// Two bytes, the least one first.
impl AtomicCopy for u16 {
    const SIZE: usize = 2;

    ghost SIZE = { 2 };

    ghost is_value = { λ n. n < 2 ^ 16 };

    ghost encoding = { to_le_bytes w16 };

    #[inline]
    fn encode(&self, out: &mut [u8]) {
        out.copy_from_slice(&u16::to_le_bytes(*self));
    }

    #[inline]
    fn decode(bytes: &[u8]) -> Option<u16> {
        Some(u16::from_le_bytes(to_array(bytes)))
    }

    ghost encoding_len = { λ _ _. refl };

    ghost one_value = { λ m n m_is n_is same.
        sym (from_le_bytes-to_le_bytes_2 m m_is) ∙ ap (from_le_bytes w16) same
        ∙ from_le_bytes-to_le_bytes_2 n n_is };
}

/// Four bytes, the least one first.
impl AtomicCopy for u32 {
    const SIZE: usize = 4;

    ghost SIZE = { 4 };

    ghost is_value = { λ n. n < 2 ^ 32 };

    ghost encoding = { to_le_bytes w32 };

    #[inline]
    fn encode(&self, out: &mut [u8]) {
        out.copy_from_slice(&u32::to_le_bytes(*self));
    }

    #[inline]
    fn decode(bytes: &[u8]) -> Option<u32> {
        Some(u32::from_le_bytes(to_array(bytes)))
    }

    ghost encoding_len = { λ _ _. refl };

    ghost one_value = { λ m n m_is n_is same.
        sym (from_le_bytes-to_le_bytes_4 m m_is) ∙ ap (from_le_bytes w32) same
        ∙ from_le_bytes-to_le_bytes_4 n n_is };
}

/// Eight bytes, the least one first.
impl AtomicCopy for u64 {
    const SIZE: usize = 8;

    ghost SIZE = { 8 };

    ghost is_value = { λ n. n < 2 ^ 64 };

    ghost encoding = { to_le_bytes w64 };

    #[inline]
    fn encode(&self, out: &mut [u8]) {
        out.copy_from_slice(&u64::to_le_bytes(*self));
    }

    #[inline]
    fn decode(bytes: &[u8]) -> Option<u64> {
        Some(u64::from_le_bytes(to_array(bytes)))
    }

    ghost encoding_len = { λ _ _. refl };

    ghost one_value = { λ m n m_is n_is same.
        sym (from_le_bytes-to_le_bytes_8 m m_is) ∙ ap (from_le_bytes w64) same
        ∙ from_le_bytes-to_le_bytes_8 n n_is };
}

/// The encoding of the `u64` with the same bits, in two's complement.
impl AtomicCopy for i64 {
    const SIZE: usize = 8;

    ghost SIZE = { 8 };

    ghost is_value = { FitsSigned w64 };

    ghost encoding = { i64_encoding };

    #[inline]
    fn encode(&self, out: &mut [u8]) {
        out.copy_from_slice(&i64::to_le_bytes(*self));
    }

    #[inline]
    fn decode(bytes: &[u8]) -> Option<i64> {
        Some(i64::from_le_bytes(to_array(bytes)))
    }

    ghost encoding_len = { λ _ _. refl };

    ghost one_value = { i64_encoding-one_value };
}

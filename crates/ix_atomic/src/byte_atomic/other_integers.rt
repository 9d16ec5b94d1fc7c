//! The encodings of the other integers: the least byte first, as those of `u64` and `i64`.
ghost use Rattle.std.specs.Prelude.{◌≡◌, ◌<◌, ◌^◌, ◌∷◌, [], refl, FitsSigned};
ghost use Rattle.std.specs.Int.{w8, w16, w32, w64, w128, cast_unsigned, to_le_bytes};
ghost use Rattle.ix_atomic.specs.Encoding.{signed_encoding};
ghost use Rattle.ix_atomic.specs.laws.EncodingLaws.{unsigned_encoding-one_value, signed_encoding-one_value, i8_encoding-one_value};

use crate::byte_atomic::AtomicCopy;
use crate::byte_atomic::integers::to_array;

/// The encoding of the `u8` with the same bits, in two's complement.
impl AtomicCopy for i8 {
    const SIZE: usize = 1;

    ghost SIZE = { 1 };

    ghost is_value = { FitsSigned w8 };

    ghost encoding = { λ z. cast_unsigned w8 z ∷ [] };

    #[inline]
    fn encode(&self, out: &mut [u8]) {
        out.copy_from_slice(&i8::to_le_bytes(*self));
    }

    #[inline]
    fn decode(bytes: &[u8]) -> Option<i8> {
        Some(i8::from_le_bytes(to_array(bytes)))
    }

    ghost encoding_len = { λ _ _. refl };

    ghost one_value = { i8_encoding-one_value };
}

/// The encoding of the `u16` with the same bits, in two's complement.
impl AtomicCopy for i16 {
    const SIZE: usize = 2;

    ghost SIZE = { 2 };

    ghost is_value = { FitsSigned w16 };

    ghost encoding = { signed_encoding w16 };

    #[inline]
    fn encode(&self, out: &mut [u8]) {
        out.copy_from_slice(&i16::to_le_bytes(*self));
    }

    #[inline]
    fn decode(bytes: &[u8]) -> Option<i16> {
        Some(i16::from_le_bytes(to_array(bytes)))
    }

    ghost encoding_len = { λ _ _. refl };

    ghost one_value = { signed_encoding-one_value w16 };
}

/// The encoding of the `u32` with the same bits, in two's complement.
impl AtomicCopy for i32 {
    const SIZE: usize = 4;

    ghost SIZE = { 4 };

    ghost is_value = { FitsSigned w32 };

    ghost encoding = { signed_encoding w32 };

    #[inline]
    fn encode(&self, out: &mut [u8]) {
        out.copy_from_slice(&i32::to_le_bytes(*self));
    }

    #[inline]
    fn decode(bytes: &[u8]) -> Option<i32> {
        Some(i32::from_le_bytes(to_array(bytes)))
    }

    ghost encoding_len = { λ _ _. refl };

    ghost one_value = { signed_encoding-one_value w32 };
}

/// The encoding of the `u128` with the same bits, in two's complement.
impl AtomicCopy for i128 {
    const SIZE: usize = 16;

    ghost SIZE = { 16 };

    ghost is_value = { FitsSigned w128 };

    ghost encoding = { signed_encoding w128 };

    #[inline]
    fn encode(&self, out: &mut [u8]) {
        out.copy_from_slice(&i128::to_le_bytes(*self));
    }

    #[inline]
    fn decode(bytes: &[u8]) -> Option<i128> {
        Some(i128::from_le_bytes(to_array(bytes)))
    }

    ghost encoding_len = { λ _ _. refl };

    ghost one_value = { signed_encoding-one_value w128 };
}

/// The encoding of the `u64` with the same bits, in two's complement.
impl AtomicCopy for isize {
    const SIZE: usize = 8;

    ghost SIZE = { 8 };

    ghost is_value = { FitsSigned w64 };

    ghost encoding = { signed_encoding w64 };

    #[inline]
    fn encode(&self, out: &mut [u8]) {
        out.copy_from_slice(&isize::to_le_bytes(*self));
    }

    #[inline]
    fn decode(bytes: &[u8]) -> Option<isize> {
        Some(isize::from_le_bytes(to_array(bytes)))
    }

    ghost encoding_len = { λ _ _. refl };

    ghost one_value = { signed_encoding-one_value w64 };
}

/// Sixteen bytes, the least one first.
impl AtomicCopy for u128 {
    const SIZE: usize = 16;

    ghost SIZE = { 16 };

    ghost is_value = { λ n. n < 2 ^ 128 };

    ghost encoding = { to_le_bytes w128 };

    #[inline]
    fn encode(&self, out: &mut [u8]) {
        out.copy_from_slice(&u128::to_le_bytes(*self));
    }

    #[inline]
    fn decode(bytes: &[u8]) -> Option<u128> {
        Some(u128::from_le_bytes(to_array(bytes)))
    }

    ghost encoding_len = { λ _ _. refl };

    ghost one_value = { unsigned_encoding-one_value w128 };
}

/// Eight bytes on every machine, the least one first.
impl AtomicCopy for usize {
    const SIZE: usize = 8;

    ghost SIZE = { 8 };

    ghost is_value = { λ n. n < 2 ^ 64 };

    ghost encoding = { to_le_bytes w64 };

    #[inline]
    fn encode(&self, out: &mut [u8]) {
        out.copy_from_slice(&usize::to_le_bytes(*self));
    }

    #[inline]
    fn decode(bytes: &[u8]) -> Option<usize> {
        Some(usize::from_le_bytes(to_array(bytes)))
    }

    ghost encoding_len = { λ _ _. refl };

    ghost one_value = { unsigned_encoding-one_value w64 };
}

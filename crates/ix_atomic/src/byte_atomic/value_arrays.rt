//! The encodings of arrays of values, one after another.
ghost use Rattle.std.specs.Prelude.{◌≡◌, ◌↔◌, ◌*◌, List, length, Some, All};
ghost use Rattle.std.specs.List.{flat_map};
ghost use Rattle.ix_atomic.specs.Encoding.{array_size, AreValues};
ghost use Rattle.ix_atomic.specs.laws.ArrayLaws.{array_encoding-len, array_encoding-one_value};

use crate::byte_atomic::AtomicCopy;

/// Writes the encodings of the values to `out`, one behind the other. O(`N + out.len()`).
#[inline]
fn encode_array<T: AtomicCopy, const N: usize>(values: &[T; N], out: &mut [u8])
    requires { length out.old ≡ N * T.SIZE }
    ensures out { out.new ≡ flat_map T.encoding values.now }
    ensures in_range { All T.is_value values.now }
{
    let mut start = 0;
    for value in values {
        let end = start + T::SIZE;
        value.encode(&mut out[start..end]);
        start = end;
    }
}

/// Returns the `N` values with these encodings, one behind the other, or `None` if there are none. O(`N + bytes.len()`);
/// the first one is decoded twice.
#[inline]
fn decode_array<T: AtomicCopy, const N: usize>(bytes: &[u8]) -> Option<[T; N]>
    requires { length bytes.now ≡ N * T.SIZE }
    ensures { (values : List T) → (result ≡ Some values)
        ↔ (((length values ≡ N) × All T.is_value values)
        × (bytes.now ≡ flat_map T.encoding values)) }
{
    if N == 0 {
        return <[T; N]>::try_from([].as_slice()).ok();
    }
    // The first value fills the array. The loop decodes it again, so that the compiler sees that it writes all of the array.
    let mut values = [T::decode(&bytes[..T::SIZE])?; N];
    let mut start = 0;
    for i in 0..N {
        let end = start + T::SIZE;
        values[i] = T::decode(&bytes[start..end])?;
        start = end;
    }
    Some(values)
}

/// The encodings of the values, one behind the other. The encoding of an array of `u8` is the bytes themselves.
///
/// Their size is `usize::MAX` if it is more than that: no slice has as many bytes.
impl<T: AtomicCopy, const N: usize> AtomicCopy for [T; N] {
    const SIZE: usize = usize::saturating_mul(N, T::SIZE);

    ghost SIZE = { array_size N T.SIZE };

    ghost is_value = { AreValues N T.SIZE T.is_value };

    ghost encoding = { flat_map T.encoding };

    #[inline]
    fn encode(&self, out: &mut [u8]) {
        encode_array(self, out);
    }

    #[inline]
    fn decode(bytes: &[u8]) -> Option<[T; N]> {
        decode_array(bytes)
    }

    ghost encoding_len = { array_encoding-len T.is_value T.encoding T.SIZE T.encoding_len N };

    ghost one_value = { array_encoding-one_value T.is_value T.encoding T.SIZE T.encoding_len T.one_value N };
}

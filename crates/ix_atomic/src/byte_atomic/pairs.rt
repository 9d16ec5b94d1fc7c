//! The encodings of two and of three values, one after another, for tuples.
ghost use Rattle.std.specs.Prelude.{◌≡◌, ◌↔◌, ◌+◌, ◌<◌, ◌^◌, ◌++◌, length, Some};
ghost use Rattle.ix_atomic.specs.Encoding.{joint_size};
ghost use Rattle.ix_atomic.specs.inner.Decoding.{triple_of};
ghost use Rattle.ix_atomic.specs.laws.EncodingLaws.{pair_encoding-len, pair_encoding-one_value, triple_encoding-len, triple_encoding-one_value};

use crate::byte_atomic::AtomicCopy;

/// Writes the encoding of `first` to `out`, and behind it that of `second`. O(`out.len()`).
#[inline]
fn encode_pair<A: AtomicCopy, B: AtomicCopy>(first: &A, second: &B, out: &mut [u8])
    requires { length out.old ≡ A.SIZE + B.SIZE }
    ensures out { out.new ≡ A.encoding first.now ++ B.encoding second.now }
    ensures in_range { A.is_value first.now × B.is_value second.now }
{
    let (front, back) = out.split_at_mut(A::SIZE);
    first.encode(front);
    second.encode(back);
}

/// Returns the two values with these encodings, one behind the other, or `None` if there are none. O(`bytes.len()`).
#[inline]
fn decode_pair<A: AtomicCopy, B: AtomicCopy>(bytes: &[u8]) -> Option<(A, B)>
    requires { length bytes.now ≡ A.SIZE + B.SIZE }
    ensures { (pair : A × B) → (result ≡ Some pair)
        ↔ ((A.is_value pair.0 × B.is_value pair.1)
        × (bytes.now ≡ A.encoding pair.0 ++ B.encoding pair.1)) }
{
    let (front, back) = bytes.split_at(A::SIZE);
    match (A::decode(front), B::decode(back)) {
        (Some(first), Some(second)) => Some((first, second)),
        _ => None,
    }
}

/// Writes the encodings of three values to `out`, one behind the other. O(`out.len()`).
#[inline]
fn encode_triple<A: AtomicCopy, B: AtomicCopy, C: AtomicCopy>(
    first: &A,
    second: &B,
    third: &C,
    out: &mut [u8],
)
    requires { length out.old ≡ A.SIZE + (B.SIZE + C.SIZE) }
    ensures out { out.new
        ≡ A.encoding first.now ++ (B.encoding second.now ++ C.encoding third.now) }
    ensures in_range { A.is_value first.now × B.is_value second.now × C.is_value third.now }
{
    let (front, back) = out.split_at_mut(A::SIZE);
    first.encode(front);
    encode_pair(second, third, back);
}

/// Returns the three values with these encodings, one behind the other, or `None` if there are none. O(`bytes.len()`).
#[inline]
fn decode_triple<A: AtomicCopy, B: AtomicCopy, C: AtomicCopy>(bytes: &[u8]) -> Option<(A, B, C)>
    requires { length bytes.now ≡ A.SIZE + (B.SIZE + C.SIZE) }
    ensures { (triple : A × B × C) → (result ≡ Some triple)
        ↔ ((A.is_value triple.0 × B.is_value triple.1 × C.is_value triple.2)
        × (bytes.now ≡ A.encoding triple.0 ++ (B.encoding triple.1 ++ C.encoding triple.2))) }
{
    let (front, back) = bytes.split_at(A::SIZE);
    with_first(A::decode(front), decode_pair::<B, C>(back))
}

/// Returns the three values, or `None` if one is missing.
#[inline]
fn with_first<A: Copy, B: Copy, C: Copy>(
    first: Option<A>,
    rest: Option<(B, C)>,
) -> Option<(A, B, C)>
    ensures { result ≡ triple_of first rest }
{
    match (first, rest) {
        (Some(first), Some((second, third))) => Some((first, second, third)),
        _ => None,
    }
}

/// The encodings of both values, one behind the other.
///
/// Their size is `usize::MAX` if it is more than that: no slice has as many bytes.
impl<A: AtomicCopy, B: AtomicCopy> AtomicCopy for (A, B) {
    const SIZE: usize = usize::saturating_add(A::SIZE, B::SIZE);

    ghost SIZE = { joint_size A.SIZE B.SIZE };

    ghost is_value = { λ pair. (A.is_value pair.0 × B.is_value pair.1)
        × (A.SIZE + B.SIZE < 2 ^ 64) };

    ghost encoding = { λ pair. A.encoding pair.0 ++ B.encoding pair.1 };

    #[inline]
    fn encode(&self, out: &mut [u8]) {
        encode_pair(&self.0, &self.1, out);
    }

    #[inline]
    fn decode(bytes: &[u8]) -> Option<(A, B)> {
        decode_pair(bytes)
    }

    ghost encoding_len = { λ pair is.
        pair_encoding-len (A.encoding pair.0) (B.encoding pair.1)
        (A.encoding_len pair.0 is.0.0) (B.encoding_len pair.1 is.0.1) is.1 };

    ghost one_value = { λ v w v_is w_is same.
        pair_encoding-one_value A.is_value B.is_value A.encoding B.encoding A.SIZE A.encoding_len
        A.one_value B.one_value v w v_is.0 w_is.0 same };
}

/// The encodings of the three values, one behind the other.
///
/// Their size is `usize::MAX` if it is more than that: no slice has as many bytes.
impl<A: AtomicCopy, B: AtomicCopy, C: AtomicCopy> AtomicCopy for (A, B, C) {
    const SIZE: usize = usize::saturating_add(A::SIZE, usize::saturating_add(B::SIZE, C::SIZE));

    ghost SIZE = { joint_size A.SIZE (joint_size B.SIZE C.SIZE) };

    ghost is_value = { λ triple.
        (A.is_value triple.0 × B.is_value triple.1 × C.is_value triple.2)
        × (A.SIZE + (B.SIZE + C.SIZE) < 2 ^ 64) };

    ghost encoding = { λ triple.
        A.encoding triple.0 ++ (B.encoding triple.1 ++ C.encoding triple.2) };

    #[inline]
    fn encode(&self, out: &mut [u8]) {
        encode_triple(&self.0, &self.1, &self.2, out);
    }

    #[inline]
    fn decode(bytes: &[u8]) -> Option<(A, B, C)> {
        decode_triple(bytes)
    }

    ghost encoding_len = { λ triple is.
        triple_encoding-len (A.encoding triple.0) (B.encoding triple.1) (C.encoding triple.2)
        (A.encoding_len triple.0 is.0.0) (B.encoding_len triple.1 is.0.1)
        (C.encoding_len triple.2 is.0.2) is.1 };

    ghost one_value = { λ v w v_is w_is same.
        triple_encoding-one_value A.is_value B.is_value C.is_value A.encoding B.encoding C.encoding
        A.SIZE B.SIZE A.encoding_len B.encoding_len A.one_value B.one_value C.one_value
        v w v_is.0 w_is.0 same };
}

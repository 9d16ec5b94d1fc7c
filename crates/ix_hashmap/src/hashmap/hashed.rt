//! The content of the slots of a hash map, and the bucket of a key.
ghost use Rattle.std.specs.Prelude.{◌≡◌, ◌*◌, ◌<◌, ℕ, List, [], ◌∷◌};
ghost use Rattle.ix_hashmap.specs.inner.HashChains.{bucket_of, hash_of};

use ix_flatmap::map::Pair;
use std::hash::{BuildHasher, Hash, Hasher};

/// The content that a slot of a [`MetaHashMap`](crate::hashmap::MetaHashMap) can have: something with a key that can be hashed. A
/// map has methods for a [`Pair`](ix_flatmap::map::Pair) alone, whose key implements `Hash`.
pub trait Hashed {
    /// The bytes that the key feeds a hasher.
    ghost key_input: { Self → List (List ℕ) };
}

impl<K: Eq + Hash, V> Hashed for Pair<K, V> {
    ghost key_input = { λ pair. K.hash_input pair.key };
}

/// Returns the bucket of a key in a map of so many slots. There must be at least one slot. There are four buckets for each slot.
#[inline]
pub(crate) fn bucket_of<K: Eq + Hash, B: BuildHasher>(hasher: &B, key: &K, places: usize) -> u128
    requires { 0 < places }
    ensures value { result
        ≡ bucket_of (hash_of B.Hasher.finish B.Hasher.write (B.build_hasher hasher.now) (K.hash_input key.now)) places }
    ensures below { result < 4 * places }
{
    bucket_of_hash(hasher.hash_one(key), places)
}

/// Returns the bucket of a key that feeds a hasher these bytes, in one write.
#[inline]
pub(crate) fn bucket_of_bytes<B: BuildHasher>(hasher: &B, bytes: &[u8], places: usize) -> u128
    requires { 0 < places }
    ensures value { result
        ≡ bucket_of (hash_of B.Hasher.finish B.Hasher.write (B.build_hasher hasher.now) (bytes.now ∷ [])) places }
    ensures below { result < 4 * places }
{
    let mut state = hasher.build_hasher();
    state.write(bytes);
    bucket_of_hash(state.finish(), places)
}

/// A factor of hashes. The upper bits of the product choose the bucket, and depend on most bits of the hash. The upper bits of the
/// hash alone are alike for keys that are some steps apart, as `FoldHasher` makes them.
const FACTOR: u64 = 1_647_494_261;

/// Returns the bucket of a hash in a map of so many slots. There must be at least one slot.
#[inline]
fn bucket_of_hash(hash: u64, places: usize) -> u128
    requires { 0 < places }
    ensures value { result ≡ bucket_of hash places }
    ensures below { result < 4 * places }
{
    (hash.wrapping_mul(FACTOR) as u128 * places as u128) >> 62
}

//! Hashers whose hashes are known.
use std::hash::{BuildHasher, Hasher};

/// A hasher that returns this number, whatever it is fed, and that makes hashers like itself. So all keys have one bucket: the
/// first one for 0 and the last one for `u64::MAX`.
#[derive(Clone, Copy)]
pub struct OneHash {
    pub hash: u64,
}

impl Hasher for OneHash {
    ghost write = { λ hasher _. hasher };

    ghost finish = { λ hasher. hasher.hash };

    fn finish(&self) -> u64 {
        self.hash
    }

    fn write(&mut self, _bytes: &[u8]) {}
}

impl BuildHasher for OneHash {
    type Hasher = OneHash;

    ghost build_hasher = { λ hasher. hasher };

    fn build_hasher(&self) -> OneHash {
        *self
    }
}

/// The hashes of one-hash maps: of the first bucket, of the last one, and of one between.
pub const HASHES: [u64; 3] = [0, u64::MAX, 0x8000_0000_0000_0000];

//! A hasher that records the bytes that it was fed.
use std::cell::Cell;
use std::hash::{Hash, Hasher};

/// Records the bytes of each write and then 255, as digits to the base 256. Contracts do not see the record.
#[derive(Drop)]
struct Recorder<'a> {
    digits: &'a Cell<u64>,
}

impl Hasher for Recorder<'_> {
    ghost write = { λ recorder _. recorder };

    ghost finish = { λ _. 0 };

    fn finish(&self) -> u64 {
        0
    }

    fn write(&mut self, bytes: &[u8]) {
        let mut digits = self.digits.get();
        for byte in bytes {
            digits = digits.wrapping_mul(256).wrapping_add(*byte as u64);
        }
        self.digits.set(digits.wrapping_mul(256).wrapping_add(255));
    }
}

/// Returns the digits that `value` feeds to a hasher: the bytes of each write and then 255, as digits to the base 256. The last
/// eight are kept.
///
/// ```text
/// fed_by(&string);    // 0x6162ff, if the bytes "ab" are fed in one write
/// ```
pub fn fed_by<T: Hash>(value: &T) -> u64 {
    let digits = Cell::new(0u64);
    let mut recorder = Recorder { digits: &digits };
    value.hash(&mut recorder);
    drop(recorder);
    digits.get()
}

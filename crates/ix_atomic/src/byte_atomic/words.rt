//! Words of eight bytes, the least byte first.
ghost use Rattle.std.specs.Prelude.{◌≡◌, ◌≤◌, length};
ghost use Rattle.ix_atomic.specs.Words.{word_of, bytes_of_word};

/// Returns the word of `bytes`, the least one first. There are at most eight of them; those that are missing count as 0. O(1).
#[must_use]
#[inline]
pub fn pack_word(bytes: &[u8]) -> u64
    requires { length bytes.now ≤ 8 }
    ensures value { result ≡ word_of bytes.now }
    ensures bytes { bytes_of_word (length bytes.now) result ≡ bytes.now }
{
    let mut all = [0u8; 8];
    if bytes.len() == 8 {
        all.copy_from_slice(bytes);
    } else {
        all[..bytes.len()].copy_from_slice(bytes);
    }
    u64::from_le_bytes(all)
}

/// Fills `out` with the bytes of `word`, from the least one on. `out` has at most eight bytes. O(1).
#[inline]
pub fn unpack_word(word: u64, out: &mut [u8])
    requires { length out.old ≤ 8 }
    ensures out { out.new ≡ bytes_of_word (length out.old) word }
{
    let all = word.to_le_bytes();
    if out.len() == 8 {
        out.copy_from_slice(&all);
    } else {
        out.copy_from_slice(&all[..out.len()]);
    }
}

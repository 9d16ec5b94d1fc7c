//! Moves within a buffer of bytes that begins with a string: a gap is opened or closed.
ghost use Rattle.std.specs.Prelude.{◌≡◌, ◌+◌, ◌-◌, ◌≤◌, ◌++◌, length, take, drop, replicate};
ghost use Rattle.std.specs.List.{insert_slice, remove_range};

/// Inserts `bytes` at index `idx` of the first `len` bytes, shifting the later ones of those to the right.
pub(crate) fn open_gap(buffer: &mut [u8], idx: usize, len: usize, bytes: &[u8])
    requires index { idx ≤ len }
    requires room { len + length bytes.now ≤ length buffer.old }
    ensures { buffer.new
        ≡ insert_slice (take len buffer.old) idx bytes.now ++ drop (len + length bytes.now) buffer.old }
{
    let end = idx + bytes.len();
    buffer.copy_within(idx..len, end);
    buffer[idx..end].copy_from_slice(bytes);
}

/// Shifts the bytes of the range `idx + n..len` to the left, to index `idx`.
pub(crate) fn close_gap(buffer: &mut [u8], idx: usize, n: usize, len: usize)
    requires range { idx + n ≤ len }
    requires room { len ≤ length buffer.old }
    ensures { buffer.new ≡ remove_range (take len buffer.old) idx (idx + n) ++ drop (len - n) buffer.old }
{
    // Counted from `idx`: at a constant `n` LLVM then sees how far each byte goes, and moves them as a block.
    let part = &mut buffer[idx..len];
    part.copy_within(n.., 0);
}

/// Shifts the bytes of the range `idx + n..len` to the left, to index `idx`, and writes zeros after them up to `len`.
pub(crate) fn close_gap_with_zeros(buffer: &mut [u8], idx: usize, n: usize, len: usize)
    requires range { idx + n ≤ len }
    requires room { len ≤ length buffer.old }
    ensures { buffer.new
        ≡ remove_range (take len buffer.old) idx (idx + n) ++ (replicate n 0 ++ drop len buffer.old) }
{
    close_gap(buffer, idx, n, len);
    buffer[len - n..len].fill(0);
}

//! Changes of a string in a vector of bytes.
ghost use Rattle.std.specs.Prelude.{◌≡◌, ◌+◌, ◌≤◌, ◌-◌, length, slice_range};
ghost use Rattle.ix_vector.specs.VectorSteps.{HasRoomFor, vec_extend};
ghost use Rattle.ix_string.specs.Retain.{IsCallableAtText, Retains};
ghost use Rattle.ix_string.specs.Text.{IsText};
ghost use Rattle.ix_string.specs.TextSteps.{text_insert_slice, text_remove_range};

use crate::string::gaps::{close_gap, open_gap};
use crate::string::retain::move_kept_back;
use ix_vector::Vector;

/// Inserts `bytes` at index `idx`, shifting all later bytes to the right. Writes each byte once.
pub(crate) fn insert_into<V: Vector<u8>>(vector: &mut V, idx: usize, bytes: &[u8])
    requires index { idx ≤ length (V.bounded vector.old).items }
    requires room { HasRoomFor (length bytes.now) (V.bounded vector.old) }
    ensures { V.bounded vector.new ≡ text_insert_slice (V.bounded vector.old) idx bytes.now }
{
    let len = vector.len();
    // A vector grows only by appending, so the bytes that will lie past its present end are appended first.
    let below_end = bytes.len().min(len - idx);
    let Ok(()) = vector.extend_from_slice_unchecked(&bytes[below_end..]) else {
        unreachable!()
    };
    if below_end > 0 {
        push_again(vector, len - below_end, len);
        open_gap(
            vector.as_mut_slice(),
            idx,
            len - below_end,
            &bytes[..below_end],
        );
    }
}

/// Appends the bytes of the range `start..end` once more.
fn push_again<V: Vector<u8>>(vector: &mut V, start: usize, end: usize)
    requires order { start ≤ end }
    requires bounds { end ≤ length (V.bounded vector.old).items }
    requires room { HasRoomFor (end - start) (V.bounded vector.old) }
    ensures { V.bounded vector.new
        ≡ vec_extend (V.bounded vector.old) (slice_range (V.bounded vector.old).items start end) }
{
    for idx in start..end {
        let byte = vector.as_slice()[idx];
        vector.push_unchecked(byte);
    }
}

/// Removes the `n` bytes from index `idx` on, shifting all later bytes to the left.
pub(crate) fn remove_from<V: Vector<u8>>(vector: &mut V, idx: usize, n: usize)
    requires { idx + n ≤ length (V.bounded vector.old).items }
    ensures { V.bounded vector.new ≡ text_remove_range (V.bounded vector.old) idx n }
{
    let len = vector.len();
    close_gap(vector.as_mut_slice(), idx, n, len);
    vector.truncate(len - n);
}

/// Calls `f` at each byte, from the last to the first, and removes those for which it returns `true`.
pub(crate) fn retain_in<V: Vector<u8>, F: FnMut(u8) -> bool>(vector: &mut V, f: F)
    requires text { IsText (V.bounded vector.old).items }
    requires callable { IsCallableAtText F.step F.pre (V.bounded vector.old).items f }
    ensures kept { Retains F.step f (V.bounded vector.old).items (V.bounded vector.new).items }
    ensures capacity { (V.bounded vector.new).capacity ≡ (V.bounded vector.old).capacity }
{
    let start = move_kept_back(vector.as_mut_slice(), f);
    remove_from(vector, 0, start);
}

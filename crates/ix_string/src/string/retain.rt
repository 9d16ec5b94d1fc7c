//! Moving the bytes that are kept to the end of a buffer.
ghost use Rattle.std.specs.Prelude.{◌≤◌, length, drop};
ghost use Rattle.ix_string.specs.Retain.{IsCallableAtText, Retains};
ghost use Rattle.ix_string.specs.Text.{IsText};

/// Calls `f` at each byte, from the last to the first. Moves the bytes for which it returns `false` to the end of the buffer,
/// keeping their order. Returns the index of the first of them, or the length of the buffer if there are none.
pub(crate) fn move_kept_back<F: FnMut(u8) -> bool>(buffer: &mut [u8], mut f: F) -> usize
    requires text { IsText buffer.old }
    requires callable { IsCallableAtText F.step F.pre buffer.old f }
    ensures within { result ≤ length buffer.old }
    ensures kept { Retains F.step f buffer.old (drop result buffer.new) }
{
    let mut start = buffer.len();
    for idx in (0..buffer.len()).rev() {
        let byte = buffer[idx];
        if !f(byte) {
            start -= 1;
            buffer[start] = byte;
        }
    }
    start
}

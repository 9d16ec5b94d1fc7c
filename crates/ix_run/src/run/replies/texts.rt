//! The texts of replies.
ghost use Rattle.std.specs.Prelude.{ℕ, ◌≡◌, ◌≤◌, ◌+◌, ◌++◌, List, length, codes, decimal};
ghost use Rattle.ix_run.specs.Lines.{with_line_feed};
ghost use Rattle.ix_run.specs.ReplyTexts.{error_name, reply_text_by};
ghost use Rattle.ix_run.specs.declared.run.devices.limits.TheConstants.{BUFFER_LEN, MAX_KEY_LEN, MAX_REPLY_LEN};

use crate::run::devices::{ReplyBuffer, ReplyPart};
use crate::run::{Reply, ReplyError};
use ix_slotmap::SlotMapKey;

/// Returns the line that names an error.
fn error_line(error: ReplyError) -> &'static [u8]
    ensures value { result.now ≡ with_line_feed (error_name error) }
    ensures short { length result.now ≤ 26 }
{
    match error {
        ReplyError::OutOfBounds => b"OutOfBounds\n",
        ReplyError::InsertWouldExceedCapacity => b"InsertWouldExceedCapacity\n",
        ReplyError::InvalidCharacter => b"InvalidCharacter\n",
        ReplyError::KeyAlreadyExists => b"KeyAlreadyExists\n",
        ReplyError::IsFull => b"IsFull\n",
        ReplyError::IndexPastEnd => b"IndexPastEnd\n",
    }
}

/// Appends the line of a number.
fn put_number_line(replies: &mut ReplyBuffer, number: u64)
    requires { length replies.old + MAX_REPLY_LEN ≤ BUFFER_LEN }
    ensures { replies.new ≡ replies.old ++ with_line_feed (decimal number) }
{
    replies.put_number(number);
    replies.put(b"\n");
}

/// A key of replies.
pub(crate) trait ReplyKey: Copy {
    /// Its text, at most [`MAX_KEY_LEN`] bytes.
    ghost text: { Self → List ℕ };

    /// Appends the text, for which there is room.
    fn put_into(self, replies: &mut ReplyBuffer)
        requires { length replies.old + MAX_KEY_LEN ≤ BUFFER_LEN }
        ensures value { replies.new ≡ replies.old ++ text self }
        ensures len { length replies.new ≤ length replies.old + MAX_KEY_LEN };
}

/// An index, or a key of a slot table.
impl ReplyKey for usize {
    ghost text = { λ number. decimal number };

    #[inline(always)]
    fn put_into(self, replies: &mut ReplyBuffer) {
        replies.put_number(self as u64);
    }
}

/// A key of a flat map.
impl ReplyKey for u64 {
    ghost text = { λ number. decimal number };

    #[inline(always)]
    fn put_into(self, replies: &mut ReplyBuffer) {
        replies.put_number(self);
    }
}

/// The index and the generation of a key, with a colon between.
impl ReplyKey for SlotMapKey {
    ghost use Rattle.ix_run.specs.Words.{key_text};

    ghost text = { λ key. key_text key };

    fn put_into(self, replies: &mut ReplyBuffer) {
        replies.put_number(self.index() as u64);
        replies.put(b":");
        replies.put_number(self.generation() as u64);
    }
}

/// Appends the line `some K`.
#[inline]
fn put_key<K: ReplyKey>(replies: &mut ReplyBuffer, key: K)
    requires { length replies.old + MAX_REPLY_LEN ≤ BUFFER_LEN }
    ensures { replies.new ≡ replies.old ++ with_line_feed (codes "some " ++ K.text key) }
{
    replies.put(b"some ");
    key.put_into(replies);
    replies.put(b"\n");
}

/// Appends the line `some X`.
#[inline]
fn put_value(replies: &mut ReplyBuffer, value: u64)
    requires { length replies.old + MAX_REPLY_LEN ≤ BUFFER_LEN }
    ensures { replies.new ≡ replies.old ++ with_line_feed (codes "some " ++ decimal value) }
{
    replies.put(b"some ");
    replies.put_number(value);
    replies.put(b"\n");
}

/// Appends the line `some K X`.
fn put_entry<K: ReplyKey>(replies: &mut ReplyBuffer, key: K, value: u64)
    requires { length replies.old + MAX_REPLY_LEN ≤ BUFFER_LEN }
    ensures { replies.new ≡ replies.old
        ++ with_line_feed (codes "some " ++ (K.text key ++ (codes " " ++ decimal value))) }
{
    replies.put(b"some ");
    key.put_into(replies);
    replies.put(b" ");
    replies.put_number(value);
    replies.put(b"\n");
}

/// Appends the line of an error.
fn put_error(replies: &mut ReplyBuffer, error: ReplyError)
    requires { length replies.old + MAX_REPLY_LEN ≤ BUFFER_LEN }
    ensures { replies.new ≡ replies.old ++ with_line_feed (codes "error " ++ error_name error) }
{
    replies.put(b"error ");
    replies.put(error_line(error));
}

/// The line of a reply.
impl<K: ReplyKey> ReplyPart for Reply<K, u64> {
    ghost text = { λ reply. with_line_feed (reply_text_by K.text reply) };

    #[inline(always)]
    fn put_into(self, replies: &mut ReplyBuffer) {
        match self {
            Reply::Done => replies.put(b"ok\n"),
            Reply::Bool(true) => replies.put(b"true\n"),
            Reply::Bool(false) => replies.put(b"false\n"),
            Reply::Number(number) => put_number_line(replies, number as u64),
            Reply::None => replies.put(b"none\n"),
            Reply::Key(key) => put_key(replies, key),
            Reply::Value(value) => put_value(replies, value),
            Reply::Entry(key, value) => put_entry(replies, key, value),
            Reply::Error(error) => put_error(replies, error),
        }
    }
}

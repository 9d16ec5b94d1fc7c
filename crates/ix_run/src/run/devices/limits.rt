//! The limits of scripts.

/// The maximum number of bytes of a line that is read as a command, without its line feed.
pub const MAX_LINE_LEN: usize = 200;

/// The number of bytes of the buffer of input, and of that of replies.
pub(crate) const BUFFER_LEN: usize = 32_768;

/// The maximum number of digits of a `u64`.
pub(crate) const MAX_DIGITS: usize = 20;

/// The maximum length of the text of a key: two numbers, and a colon between.
pub(crate) const MAX_KEY_LEN: usize = 41;

/// The maximum length of the text of an item that `show` prints: a key, an equals sign and a number.
pub(crate) const MAX_ITEM_LEN: usize = 62;

/// The maximum length of the reply to a line, except the reply to `show`.
pub(crate) const MAX_REPLY_LEN: usize = 72;

/// The maximum capacity that a header may name for a container in the machine's memory or in an arena.
pub const MAX_CAPACITY: usize = 1000;

/// The maximum number of numbers in a list: each takes at least two of the 200 bytes of a line.
pub const MAX_NUMBERS: usize = 100;

/// The number of reads of an input, and of tries of a write that is interrupted.
pub(crate) const MAX_TRIES: u64 = u64::MAX;

// A script ends with an error if it reads so often, which no input does.
const _: () = prove!(MAX_TRIES == u64::MAX);

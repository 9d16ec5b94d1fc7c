//! The replies to commands.
ghost use Rattle.std.specs.Prelude.{◌≡◌, ⊤};
ghost use Rattle.ix_commands.specs.Replies.{option_reply, key_reply, entry_reply};

use std::alloc::AllocError;

/// The reply to a command of a container with keys of type `K` and elements of type `X`.
#[derive(Copy, PartialEq, Eq, Debug)]
pub enum Reply<K, X> {
    /// `ok`: the command was done.
    Done,
    /// `true` or `false`: whether the command was done, or the answer to its question.
    Bool(bool),
    /// A number.
    Number(usize),
    /// `none`: there is nothing to return.
    None,
    /// `some K`: a key, or an index.
    Key(K),
    /// `some X`: an element.
    Value(X),
    /// `some K X`: a key and its value.
    Entry(K, X),
    /// `error` and the name: the command returned an error.
    Error(ReplyError),
}

impl<K: Copy, X: Copy> Clone for Reply<K, X> {
    ghost is_clone = { λ reply copy. copy ≡ reply };

    ghost is_infallible = { λ _. ⊤ };

    fn clone(&self) -> Result<Self, AllocError> {
        Ok(*self)
    }
}

/// The error of a command.
#[derive(Clone, Copy, PartialEq, Eq, Debug)]
pub enum ReplyError {
    /// An index is out of bounds.
    OutOfBounds,
    /// The length would exceed the capacity.
    InsertWouldExceedCapacity,
    /// A byte is 0 or above 127.
    InvalidCharacter,
    /// The map has the key.
    KeyAlreadyExists,
    /// The map has no room.
    IsFull,
    /// The index is greater than the string's length. No insertion is tried.
    IndexPastEnd,
}

/// Returns an optional element as a reply.
#[inline]
pub fn reply_of_option<K: Copy, T: Copy>(item: Option<T>) -> Reply<K, T>
    ensures { result ≡ option_reply item }
{
    match item {
        Some(item) => Reply::Value(item),
        None => Reply::None,
    }
}

/// Returns an optional key as a reply.
#[inline]
pub fn reply_of_key<K: Copy, T: Copy>(key: Option<K>) -> Reply<K, T>
    ensures { result ≡ key_reply key }
{
    match key {
        Some(key) => Reply::Key(key),
        None => Reply::None,
    }
}

/// Returns an optional key with its value as a reply.
#[inline]
pub fn reply_of_entry<K: Copy, T: Copy>(entry: Option<(K, T)>) -> Reply<K, T>
    ensures { result ≡ entry_reply entry }
{
    match entry {
        Some((key, value)) => Reply::Entry(key, value),
        None => Reply::None,
    }
}

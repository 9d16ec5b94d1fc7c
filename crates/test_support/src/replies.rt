//! Optional items and keys as replies.
ghost use Rattle.std.specs.Prelude.{◌≡◌};
ghost use Rattle.ix_commands.specs.Replies.{option_reply, key_reply};

use ix_commands::Reply;

/// Returns an optional item as a reply.
pub fn reply_of_option<K: Copy, T: Copy>(item: Option<T>) -> Reply<K, T>
    ensures { result ≡ option_reply item }
{
    match item {
        Some(item) => Reply::Value(item),
        None => Reply::None,
    }
}

/// Returns an optional key as a reply.
pub fn reply_of_key<K: Copy, T: Copy>(key: Option<K>) -> Reply<K, T>
    ensures { result ≡ key_reply key }
{
    match key {
        Some(key) => Reply::Key(key),
        None => Reply::None,
    }
}

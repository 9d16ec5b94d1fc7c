//! The texts of replies, and of the contents that `show` prints.

mod listing;
mod texts;

pub(crate) use listing::{ListedItem, append_items};
pub(crate) use texts::ReplyKey;

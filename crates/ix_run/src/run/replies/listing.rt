//! Items that `show` prints one after the other.
ghost use Rattle.std.specs.Prelude.{ℕ, ◌≡◌, ◌≤◌, ◌+◌, ◌++◌, List, length, decimal};
ghost use Rattle.std.specs.Iterator.{IsFinite};
ghost use Rattle.ix_run.specs.ReplyTexts.{items_text};
ghost use Rattle.ix_run.specs.inner.Listing.{YieldsTexts, next_text};
ghost use Rattle.ix_run.specs.inner.Writing.{WriteResult};
ghost use Rattle.ix_run.specs.declared.run.devices.limits.TheConstants.{BUFFER_LEN, MAX_ITEM_LEN};

use crate::run::ScriptFault;
use crate::run::devices::{ReplyBuffer, ReplyPart, ReplyWriter};
use std::io::Write;

/// An item that `show` prints.
pub(crate) trait ListedItem: Copy {
    /// Its text, at most [`MAX_ITEM_LEN`] bytes.
    ghost text: { Self → List ℕ };

    /// Appends the text, for which there is room.
    fn put_into(self, replies: &mut ReplyBuffer)
        requires { length replies.old + MAX_ITEM_LEN ≤ BUFFER_LEN }
        ensures { replies.new ≡ replies.old ++ text self };
}

/// A number.
impl<'a> ListedItem for &'a u64 {
    ghost text = { λ number. decimal number.now };

    fn put_into(self, replies: &mut ReplyBuffer) {
        replies.put_number(*self);
    }
}

/// An item, after a space unless it is the first.
#[derive(Drop)]
struct Listed<T> {
    is_first: bool,
    item: T,
}

impl<T: ListedItem> ReplyPart for Listed<T> {
    ghost text = { λ listed. next_text listed.is_first (T.text listed.item) };

    fn put_into(self, replies: &mut ReplyBuffer) {
        if !self.is_first {
            replies.put(b" ");
        }
        self.item.put_into(replies);
    }
}

/// Appends the items separated by single spaces, or a dash if there are none.
pub(crate) fn append_items<I: Iterator, W: Write>(
    replies: &mut ReplyWriter<'_, W>,
    mut items: I,
) -> Result<(), ScriptFault>
where
    I::Item: ListedItem,
    requires can { I.can_next items }
    requires ends { IsFinite (I.remaining items) }
    ensures { (texts : I → List (List ℕ)) → YieldsTexts I.next_gives I.Item.text texts
        → WriteResult W.contents replies.old (items_text (λ text. text) (texts items))
        replies.new result }
{
    let Some(first) = items.next() else {
        return replies.append(b"-");
    };
    replies.append_part(Listed {
        is_first: true,
        item: first,
    })?;
    while let Some(item) = items.next() {
        replies.append_part(Listed {
            is_first: false,
            item,
        })?;
    }
    Ok(())
}

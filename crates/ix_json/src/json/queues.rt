//! Queues in JSON.
ghost use Rattle.std.specs.Prelude.{◌≡◌, ◌≢◌, [], Ok, Err, IfOk, IfErr, IsOk, OnOk, OnErr};
ghost use Rattle.serde_json.specs.View.{view};
ghost use Rattle.ix_tables.specs.Bounded.{bounded_new, with_items};
ghost use Rattle.ix_json.specs.JsonTree.{list_tree, list_read, list_filled};
ghost use Rattle.ix_json.specs.declared.json.json_fault.JsonFault.TheVariants.{OutOfMemory};

use crate::json::{JsonFault, JsonFill, JsonForm, JsonItem};
use ix_queue::{FixedSizeQueue, MetaQueue, Queue};
use ix_tables::{InlineTable, Table};
use serde_json::Value;
use std::alloc::{Allocator, Global};

/// Returns the array of the forms of the elements, the front element first.
fn queue_to_value<T: JsonItem, S: Table<T>>(
    queue: &MetaQueue<T, S>,
    alloc: Global,
) -> Result<Value, JsonFault>
    ensures value { IfOk result (λ value. view value ≡ list_tree T.tree queue.now.items) }
    ensures read_back { IfOk result (λ value.
        list_read queue.now.capacity T.read (view value) ≡ Ok queue.now.items) }
    ensures fault { IfErr result (λ fault. fault ≡ OutOfMemory) }
    ensures memory { queue.now.items ≡ [] → IsOk result }
{
    let Ok(mut entries) = Vec::with_capacity(alloc, queue.len()) else {
        return Err(JsonFault::OutOfMemory);
    };
    for item in queue.iter() {
        let entry = item.to_value(alloc)?;
        let Ok(()) = entries.push(entry) else {
            return Err(JsonFault::OutOfMemory);
        };
    }
    Ok(Value::Array(entries))
}

/// Appends the elements that the entries of an array are read as, or leaves the queue unchanged.
fn push_items<T: JsonForm + Drop, S: Table<T>>(
    queue: &mut MetaQueue<T, S>,
    value: &Value,
) -> Result<(), JsonFault>
    ensures filled { OnOk result (list_filled T.read queue.old (view value.now) ≡ Ok queue.new) }
    ensures fault { IfErr result (λ fault.
        list_filled T.read queue.old (view value.now) ≡ Err fault) }
    ensures refused { OnErr result (queue.new ≡ queue.old) }
    ensures memory { result ≢ Err OutOfMemory }
{
    let Some(entries) = value.as_array() else {
        return Err(JsonFault::WrongKind);
    };
    let len = queue.len();
    if entries.len() > queue.capacity() - len {
        return Err(JsonFault::TooLong);
    }
    for entry in entries {
        match T::from_value(entry) {
            Ok(item) => drop(queue.push(item)),
            Err(fault) => {
                queue.truncate(len);
                return Err(fault);
            }
        }
    }
    Ok(())
}

/// A JSON array of the forms of the elements, the front element first.
///
/// Reading returns [`JsonFault::WrongKind`] if the value is not an array, and otherwise [`JsonFault::TooLong`] if it has more than
/// `CAPACITY` entries. Otherwise it returns the error of the first entry that has one. Entries after that one are not read.
/// O(`CAPACITY`), with as many calls of the elements' conversion as there are elements.
impl<T: JsonItem + Drop, const CAPACITY: usize> JsonForm for FixedSizeQueue<T, CAPACITY> {
    ghost tree = { λ queue. list_tree T.tree queue.items };

    ghost read = { list_filled T.read (bounded_new CAPACITY) };

    ghost is_read_back = { λ queue. queue.capacity ≡ CAPACITY };

    ghost is_infallible = { λ queue. queue.items ≡ [] };

    fn to_value(&self, alloc: Global) -> Result<Value, JsonFault> {
        queue_to_value(self, alloc)
    }

    fn from_value(value: &Value) -> Result<Self, JsonFault> {
        let mut queue = MetaQueue::from_table(InlineTable::default());
        push_items(&mut queue, value)?;
        Ok(queue)
    }
}

/// A JSON array of the forms of the elements, the front element first.
///
/// Reading appends the elements at the back. It returns [`JsonFault::WrongKind`] if the value is not an array, and otherwise
/// [`JsonFault::TooLong`] if it has more entries than there is room for. Otherwise it returns the error of the first entry that has
/// one. Entries after that one are not read. O(`len`) of what is read, with as many calls of the elements' conversion.
impl<T: JsonItem + Drop, A: Allocator> JsonFill for Queue<T, A> {
    ghost tree = { λ queue. list_tree T.tree queue.items };

    ghost filled = { list_filled T.read };

    ghost emptied = { λ queue. with_items queue [] };

    ghost is_infallible = { λ queue. queue.items ≡ [] };

    fn to_value(&self, alloc: Global) -> Result<Value, JsonFault> {
        queue_to_value(self, alloc)
    }

    fn fill_from_value(&mut self, value: &Value) -> Result<(), JsonFault> {
        push_items(self, value)
    }
}

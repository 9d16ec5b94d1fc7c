//! The code that all arrays in JSON share: their forms, and appending the entries of an array to a vector.
ghost use Rattle.std.specs.Prelude.{◌≡◌, ◌≢◌, [], Ok, Err, IfOk, IfErr, IsOk, OnOk, OnErr};
ghost use Rattle.serde_json.specs.View.{view};
ghost use Rattle.ix_json.specs.JsonTree.{list_tree, list_read, list_filled};
ghost use Rattle.ix_json.specs.declared.json.json_fault.JsonFault.TheVariants.{OutOfMemory};

use crate::json::{JsonFault, JsonForm, JsonItem};
use ix_vector::Vector;
use serde_json::Value;
use std::alloc::Global;

/// Returns the array of the forms of a vector's elements, in order.
pub(super) fn vector_to_value<T: JsonItem + Drop, V: Vector<T>>(
    vector: &V,
    alloc: Global,
) -> Result<Value, JsonFault>
    ensures value { IfOk result (λ value.
        view value ≡ list_tree T.tree (V.bounded vector.now).items) }
    ensures read_back { IfOk result (λ value.
        list_read (V.bounded vector.now).capacity T.read (view value)
        ≡ Ok (V.bounded vector.now).items) }
    ensures fault { IfErr result (λ fault. fault ≡ OutOfMemory) }
    ensures memory { (V.bounded vector.now).items ≡ [] → IsOk result }
{
    let Ok(mut entries) = Vec::with_capacity(alloc, vector.len()) else {
        return Err(JsonFault::OutOfMemory);
    };
    for item in vector.as_slice() {
        let entry = item.to_value(alloc)?;
        let Ok(()) = entries.push(entry) else {
            return Err(JsonFault::OutOfMemory);
        };
    }
    Ok(Value::Array(entries))
}

/// Appends the elements that the entries of an array are read as, or leaves the vector unchanged.
pub(super) fn append_items<T: JsonForm + Drop, V: Vector<T>>(
    vector: &mut V,
    value: &Value,
) -> Result<(), JsonFault>
    ensures filled { OnOk result (list_filled T.read (V.bounded vector.old) (view value.now)
        ≡ Ok (V.bounded vector.new)) }
    ensures fault { IfErr result (λ fault.
        list_filled T.read (V.bounded vector.old) (view value.now) ≡ Err fault) }
    ensures refused { OnErr result (V.bounded vector.new ≡ V.bounded vector.old) }
    ensures memory { result ≢ Err OutOfMemory }
{
    let Some(entries) = value.as_array() else {
        return Err(JsonFault::WrongKind);
    };
    if entries.len() > vector.remaining_capacity() {
        return Err(JsonFault::TooLong);
    }
    let len = vector.len();
    for entry in entries {
        match T::from_value(entry) {
            Ok(item) => vector.push_unchecked(item),
            Err(fault) => {
                vector.truncate(len);
                return Err(fault);
            }
        }
    }
    Ok(())
}

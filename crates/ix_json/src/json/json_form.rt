//! The traits of values that are converted to JSON and back.
ghost use Rattle.std.specs.Prelude.{◌≡◌, ◌≢◌, Result, Ok, Err, IfOk, IfErr, IsOk};
ghost use Rattle.serde_json.specs.Data.{Data, null};
ghost use Rattle.serde_json.specs.View.{view};
ghost use Rattle.ix_json.specs.declared.json.json_fault.JsonFault.{JsonFault};
ghost use Rattle.ix_json.specs.declared.json.json_fault.JsonFault.TheVariants.{OutOfMemory};

use crate::json::JsonFault;
use serde_json::Value;
use std::alloc::Global;

/// A value with a JSON form.
pub trait JsonForm: Sized {
    /// The JSON tree of a value.
    ghost tree: { Self → Data };

    /// The value that a JSON tree is read as, or the error.
    ghost read: { Data → Result Self JsonFault };

    /// Holds of values that are read back from their trees.
    ghost is_read_back: { Self → Type 0 } = { λ _. Unit {0} };

    /// Holds of a value and the result of reading its tree.
    ghost keeps: { Self → Result Self JsonFault → Type 0 } = { λ _ _. Unit {0} };

    /// Holds of values whose conversion to JSON does not allocate.
    ghost is_infallible: { Self → Type 0 } = { λ _. ⊥ };

    /// Converts to JSON. Allocates from `alloc`.
    ///
    /// Returns [`JsonFault::OutOfMemory`] if an allocation fails.
    fn to_value(&self, alloc: Global) -> Result<Value, JsonFault>
        ensures value { IfOk result (λ value. view value ≡ tree self.now) }
        ensures read_back { is_read_back self.now
            → IfOk result (λ value. read (view value) ≡ Ok self.now) }
        ensures content { IsOk result → keeps self.now (read (tree self.now)) }
        ensures fault { IfErr result (λ fault. fault ≡ OutOfMemory) }
        ensures memory { is_infallible self.now → IsOk result };

    /// Converts from JSON. Does not allocate.
    ///
    /// Returns the first error if `value` is not of this type, and never [`JsonFault::OutOfMemory`].
    fn from_value(value: &Value) -> Result<Self, JsonFault>
        ensures value { result ≡ read (view value.now) }
        ensures memory { result ≢ Err OutOfMemory };
}

/// A value that is always read back from its JSON form, which is never null. Vectors of such values have a form.
///
/// The integers of at most 64 bits, `bool`, [`StaticString`](ix_string::StaticString) and fixed vectors of items are items. Queues,
/// maps, options and semantic strings only have a form.
pub trait JsonItem: JsonForm {
    /// Each value is read back from its tree.
    ghost always_read_back: { (item : Self) → Self.is_read_back item };

    /// No value has the tree null.
    ghost never_null: { (item : Self) → Self.tree item ≢ null };
}

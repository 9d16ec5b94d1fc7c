//! The trait of containers that are filled from JSON.
ghost use Rattle.std.specs.Prelude.{◌≡◌, ◌≢◌, Result, Ok, Err, IfOk, IfErr, IsOk, OnOk, OnErr};
ghost use Rattle.serde_json.specs.Data.{Data};
ghost use Rattle.serde_json.specs.View.{view};
ghost use Rattle.ix_json.specs.declared.json.json_fault.JsonFault.{JsonFault};
ghost use Rattle.ix_json.specs.declared.json.json_fault.JsonFault.TheVariants.{OutOfMemory};

use crate::json::JsonFault;
use serde_json::Value;
use std::alloc::Global;

/// A container in memory of an allocator that has a JSON form.
///
/// Reading does not allocate. So a container that was made before is filled with the entries that are read.
pub trait JsonFill {
    /// The JSON tree of a container.
    ghost tree: { Self → Data };

    /// The container with the entries of a JSON tree too, or the error.
    ghost filled: { Self → Data → Result Self JsonFault };

    /// The container without its entries.
    ghost emptied: { Self → Self };

    /// Holds of a container and the function that fills another one with its tree.
    ghost keeps: { Self → (Self → Result Self JsonFault) → Type 0 } = { λ _ _. Unit {0} };

    /// Holds of containers whose conversion to JSON does not allocate.
    ghost is_infallible: { Self → Type 0 } = { λ _. ⊥ };

    /// Converts to JSON. Allocates from `alloc`.
    ///
    /// Returns [`JsonFault::OutOfMemory`] if an allocation fails.
    fn to_value(&self, alloc: Global) -> Result<Value, JsonFault>
        ensures value { IfOk result (λ value. view value ≡ tree self.now) }
        ensures read_back { IfOk result (λ value.
            filled (emptied self.now) (view value) ≡ Ok self.now) }
        ensures content { IsOk result → keeps self.now (λ other. filled other (tree self.now)) }
        ensures fault { IfErr result (λ fault. fault ≡ OutOfMemory) }
        ensures memory { is_infallible self.now → IsOk result };

    /// Inserts all entries of `value`, in their order. A vector or a queue appends them, a map inserts them in its free slots. Does
    /// not allocate.
    ///
    /// Returns the first error if `value` does not have such entries or there is no room for them, and never
    /// [`JsonFault::OutOfMemory`]. The container is then unchanged, and the values that were read are dropped.
    fn fill_from_value(&mut self, value: &Value) -> Result<(), JsonFault>
        ensures filled { OnOk result (filled self.old (view value.now) ≡ Ok self.new) }
        ensures fault { IfErr result (λ fault. filled self.old (view value.now) ≡ Err fault) }
        ensures refused { OnErr result (self.new ≡ self.old) }
        ensures memory { result ≢ Err OutOfMemory };
}

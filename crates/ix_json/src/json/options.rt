//! Options in JSON.

use crate::json::{JsonFault, JsonForm};
use ix_relocatable_option::relocatable_option::RelocatableOption;
use serde_json::Value;
use std::alloc::Global;

/// Null for `None`, and otherwise the form of the value.
///
/// An option is read back if its value is, and has another form than null. `Some` of a `None` is null, and is read back
/// as `None`.
impl<T: JsonForm> JsonForm for RelocatableOption<T> {
    ghost use Rattle.std.specs.Prelude.{◌≢◌, IfSome};
    ghost use Rattle.serde_json.specs.Data.{null};
    ghost use Rattle.ix_json.specs.JsonTree.{option_tree, option_read};
    ghost use Rattle.ix_relocatable_option.specs.Optional.{option_of};

    ghost tree = { option_tree T.tree };

    ghost read = { option_read T.read };

    ghost is_read_back = { λ option. IfSome (option_of option) (λ value.
        T.is_read_back value × (T.tree value ≢ null)) };

    ghost is_infallible = { λ option. IfSome (option_of option) T.is_infallible };

    fn to_value(&self, alloc: Global) -> Result<Value, JsonFault> {
        match self {
            RelocatableOption::Some(value) => value.to_value(alloc),
            RelocatableOption::None => Ok(Value::Null),
        }
    }

    fn from_value(value: &Value) -> Result<Self, JsonFault> {
        if value.is_null() {
            return Ok(RelocatableOption::None);
        }
        match T::from_value(value) {
            Ok(value) => Ok(RelocatableOption::Some(value)),
            Err(fault) => Err(fault),
        }
    }
}

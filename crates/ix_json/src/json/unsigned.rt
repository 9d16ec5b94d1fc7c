//! `u64` in JSON.

use crate::json::{JsonFault, JsonForm, JsonItem};
use serde_json::Value;
use std::alloc::Global;

/// A number. Only a number in the range of `u64` that is not held as a float is read.
impl JsonForm for u64 {
    ghost use Rattle.ix_json.specs.JsonTree.{u64_tree, u64_read};

    ghost tree = { u64_tree };

    ghost read = { u64_read };

    ghost is_infallible = { λ _. Unit {0} };

    fn to_value(&self, _alloc: Global) -> Result<Value, JsonFault> {
        Ok(Value::from(*self))
    }

    fn from_value(value: &Value) -> Result<Self, JsonFault> {
        value.as_u64().ok_or(JsonFault::WrongKind)
    }
}

impl JsonItem for u64 {
    ghost always_read_back = { λ _. tt };

    ghost never_null = { λ _ same. Prim.cc };
}

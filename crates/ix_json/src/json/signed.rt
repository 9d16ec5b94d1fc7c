//! `i64` in JSON.

use crate::json::{JsonFault, JsonForm, JsonItem};
use serde_json::Value;
use std::alloc::Global;

/// A number. Only a number in the range of `i64` that is not held as a float is read.
impl JsonForm for i64 {
    ghost use Rattle.ix_json.specs.JsonTree.{i64_tree, i64_read};

    ghost tree = { i64_tree };

    ghost read = { i64_read };

    ghost is_infallible = { λ _. Unit {0} };

    fn to_value(&self, _alloc: Global) -> Result<Value, JsonFault> {
        Ok(Value::from(*self))
    }

    fn from_value(value: &Value) -> Result<Self, JsonFault> {
        value.as_i64().ok_or(JsonFault::WrongKind)
    }
}

impl JsonItem for i64 {
    ghost always_read_back = { λ _. tt };

    ghost never_null = { λ _ same. Prim.cc };
}

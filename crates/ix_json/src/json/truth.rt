//! `bool` in JSON.

use crate::json::{JsonFault, JsonForm, JsonItem};
use serde_json::Value;
use std::alloc::Global;

/// `true` or `false`. Reads no other value.
impl JsonForm for bool {
    ghost use Rattle.serde_json.specs.Data.{boolean};
    ghost use Rattle.ix_json.specs.JsonTree.{bool_read};

    ghost tree = { boolean };

    ghost read = { bool_read };

    ghost is_infallible = { λ _. Unit {0} };

    fn to_value(&self, _alloc: Global) -> Result<Value, JsonFault> {
        Ok(Value::Bool(*self))
    }

    fn from_value(value: &Value) -> Result<Self, JsonFault> {
        value.as_bool().ok_or(JsonFault::WrongKind)
    }
}

impl JsonItem for bool {
    ghost always_read_back = { λ _. tt };

    ghost never_null = { λ _ same. Prim.cc };
}

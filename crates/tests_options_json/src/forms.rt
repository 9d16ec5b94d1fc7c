//! A type of size zero with a JSON form.
ghost use Rattle.std.specs.Result.{result_map_both};
ghost use Rattle.ix_json.specs.JsonTree.{bool_read};

use ix_json::{JsonFault, JsonForm, JsonItem};
use serde_json::Value;
use std::alloc::Global;

/// A value of size zero. Its form is `true`, and every truth value is read as it.
#[derive(Clone, Copy, PartialEq, Eq, Default, Debug)]
pub struct Empty;

impl JsonForm for Empty {
    ghost use Rattle.std.specs.Prelude.{true};
    ghost use Rattle.serde_json.specs.Data.{boolean};

    ghost tree = { λ _. boolean true };

    ghost read = { λ tree. result_map_both (λ _. record {}) (λ fault. fault) (bool_read tree) };

    fn to_value(&self, alloc: Global) -> Result<Value, JsonFault> {
        true.to_value(alloc)
    }

    fn from_value(value: &Value) -> Result<Self, JsonFault> {
        match bool::from_value(value) {
            Ok(_) => Ok(Empty),
            Err(fault) => Err(fault),
        }
    }
}

impl JsonItem for Empty {
    ghost always_read_back = { λ _. tt };

    ghost never_null = { λ _ same. Prim.cc };
}

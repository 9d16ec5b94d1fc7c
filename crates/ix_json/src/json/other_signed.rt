//! Signed numbers of other sizes than `i64` in JSON.

use crate::json::{JsonFault, JsonForm, JsonItem};
use serde_json::Value;
use std::alloc::Global;

/// A number. Only a number in the range of `i8` that is not held as a float is read.
impl JsonForm for i8 {
    ghost use Rattle.ix_json.specs.JsonTree.{i64_tree, signed_read};

    ghost tree = { i64_tree };

    ghost read = { signed_read 7 };

    ghost is_infallible = { λ _. Unit {0} };

    fn to_value(&self, alloc: Global) -> Result<Value, JsonFault> {
        i64::from(*self).to_value(alloc)
    }

    fn from_value(value: &Value) -> Result<Self, JsonFault> {
        let number = i64::from_value(value)?;
        i8::try_from(number).or(Err(JsonFault::WrongKind))
    }
}

impl JsonItem for i8 {
    ghost always_read_back = { λ _. tt };

    ghost never_null = { λ _ same. Prim.cc };
}

/// A number. Only a number in the range of `i16` that is not held as a float is read.
impl JsonForm for i16 {
    ghost use Rattle.ix_json.specs.JsonTree.{i64_tree, signed_read};

    ghost tree = { i64_tree };

    ghost read = { signed_read 15 };

    ghost is_infallible = { λ _. Unit {0} };

    fn to_value(&self, alloc: Global) -> Result<Value, JsonFault> {
        i64::from(*self).to_value(alloc)
    }

    fn from_value(value: &Value) -> Result<Self, JsonFault> {
        let number = i64::from_value(value)?;
        i16::try_from(number).or(Err(JsonFault::WrongKind))
    }
}

impl JsonItem for i16 {
    ghost always_read_back = { λ _. tt };

    ghost never_null = { λ _ same. Prim.cc };
}

/// A number. Only a number in the range of `i32` that is not held as a float is read.
impl JsonForm for i32 {
    ghost use Rattle.ix_json.specs.JsonTree.{i64_tree, signed_read};

    ghost tree = { i64_tree };

    ghost read = { signed_read 31 };

    ghost is_infallible = { λ _. Unit {0} };

    fn to_value(&self, alloc: Global) -> Result<Value, JsonFault> {
        i64::from(*self).to_value(alloc)
    }

    fn from_value(value: &Value) -> Result<Self, JsonFault> {
        let number = i64::from_value(value)?;
        i32::try_from(number).or(Err(JsonFault::WrongKind))
    }
}

impl JsonItem for i32 {
    ghost always_read_back = { λ _. tt };

    ghost never_null = { λ _ same. Prim.cc };
}

/// A number. Only a number in the range of `isize` that is not held as a float is read.
impl JsonForm for isize {
    ghost use Rattle.ix_json.specs.JsonTree.{i64_tree, i64_read};

    ghost tree = { i64_tree };

    ghost read = { i64_read };

    ghost is_infallible = { λ _. Unit {0} };

    fn to_value(&self, alloc: Global) -> Result<Value, JsonFault> {
        (*self as i64).to_value(alloc)
    }

    fn from_value(value: &Value) -> Result<Self, JsonFault> {
        Ok(i64::from_value(value)? as isize)
    }
}

impl JsonItem for isize {
    ghost always_read_back = { λ _. tt };

    ghost never_null = { λ _ same. Prim.cc };
}

//! Unsigned numbers of other sizes than `u64` in JSON.

use crate::json::{JsonFault, JsonForm, JsonItem};
use serde_json::Value;
use std::alloc::Global;

/// A number. Only a number in the range of `u8` that is not held as a float is read.
impl JsonForm for u8 {
    ghost use Rattle.ix_json.specs.JsonTree.{u64_tree, unsigned_read};

    ghost tree = { u64_tree };

    ghost read = { unsigned_read 8 };

    ghost is_infallible = { λ _. Unit {0} };

    fn to_value(&self, alloc: Global) -> Result<Value, JsonFault> {
        u64::from(*self).to_value(alloc)
    }

    fn from_value(value: &Value) -> Result<Self, JsonFault> {
        let number = u64::from_value(value)?;
        u8::try_from(number).or(Err(JsonFault::WrongKind))
    }
}

impl JsonItem for u8 {
    ghost always_read_back = { λ _. tt };

    ghost never_null = { λ _ same. Prim.cc };
}

/// A number. Only a number in the range of `u16` that is not held as a float is read.
impl JsonForm for u16 {
    ghost use Rattle.ix_json.specs.JsonTree.{u64_tree, unsigned_read};

    ghost tree = { u64_tree };

    ghost read = { unsigned_read 16 };

    ghost is_infallible = { λ _. Unit {0} };

    fn to_value(&self, alloc: Global) -> Result<Value, JsonFault> {
        u64::from(*self).to_value(alloc)
    }

    fn from_value(value: &Value) -> Result<Self, JsonFault> {
        let number = u64::from_value(value)?;
        u16::try_from(number).or(Err(JsonFault::WrongKind))
    }
}

impl JsonItem for u16 {
    ghost always_read_back = { λ _. tt };

    ghost never_null = { λ _ same. Prim.cc };
}

/// A number. Only a number in the range of `u32` that is not held as a float is read.
impl JsonForm for u32 {
    ghost use Rattle.ix_json.specs.JsonTree.{u64_tree, unsigned_read};

    ghost tree = { u64_tree };

    ghost read = { unsigned_read 32 };

    ghost is_infallible = { λ _. Unit {0} };

    fn to_value(&self, alloc: Global) -> Result<Value, JsonFault> {
        u64::from(*self).to_value(alloc)
    }

    fn from_value(value: &Value) -> Result<Self, JsonFault> {
        let number = u64::from_value(value)?;
        u32::try_from(number).or(Err(JsonFault::WrongKind))
    }
}

impl JsonItem for u32 {
    ghost always_read_back = { λ _. tt };

    ghost never_null = { λ _ same. Prim.cc };
}

/// A number. Only a number in the range of `usize` that is not held as a float is read.
impl JsonForm for usize {
    ghost use Rattle.ix_json.specs.JsonTree.{u64_tree, u64_read};

    ghost tree = { u64_tree };

    ghost read = { u64_read };

    ghost is_infallible = { λ _. Unit {0} };

    fn to_value(&self, alloc: Global) -> Result<Value, JsonFault> {
        (*self as u64).to_value(alloc)
    }

    fn from_value(value: &Value) -> Result<Self, JsonFault> {
        Ok(u64::from_value(value)? as usize)
    }
}

impl JsonItem for usize {
    ghost always_read_back = { λ _. tt };

    ghost never_null = { λ _ same. Prim.cc };
}

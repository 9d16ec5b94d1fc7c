//! Semantic strings in JSON.

use crate::json::{JsonFault, JsonForm};
use ix_semantic_string::semantic_string::{Rules, Semantic};
use ix_string::{StaticString, String};
use serde_json::Value;
use std::alloc::Global;

/// A JSON string of the bytes as they are, not of the normal form.
///
/// Reading returns the errors of [`StaticString`], and otherwise [`JsonFault::InvalidContent`] if the rules do not accept the
/// string. O(`CAPACITY`) beside the rules.
impl<R: Rules<CAPACITY>, const CAPACITY: usize> JsonForm for Semantic<R, CAPACITY> {
    ghost use Rattle.std.specs.Prelude.{◌≡◌, []};
    ghost use Rattle.serde_json.specs.Data.{string};
    ghost use Rattle.ix_json.specs.JsonTree.{semantic_read};

    ghost tree = { string };

    ghost read = { semantic_read CAPACITY R.rules };

    ghost is_infallible = { λ bytes. bytes ≡ [] };

    fn to_value(&self, alloc: Global) -> Result<Value, JsonFault> {
        self.as_string().to_value(alloc)
    }

    fn from_value(value: &Value) -> Result<Self, JsonFault> {
        let text = StaticString::<CAPACITY>::from_value(value)?;
        match Semantic::new(text.as_bytes()) {
            Ok(string) => Ok(string),
            Err(_) => Err(JsonFault::InvalidContent),
        }
    }
}

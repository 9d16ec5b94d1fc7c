//! Fixed strings in JSON.
ghost use Rattle.std.specs.Prelude.{◌≡◌, [], Ok, IfOk, IfErr, IsOk, string_bytes};
ghost use Rattle.ix_json.specs.JsonTree.{bytes_read};
ghost use Rattle.ix_json.specs.declared.json.json_fault.JsonFault.TheVariants.{OutOfMemory};

use crate::json::{JsonFault, JsonForm, JsonItem};
use ix_string::{StaticString, String, StringModificationError};
use serde_json::Value;
use std::alloc::Global;

/// Returns the string that a JSON string is read as, or the error.
pub(super) fn string_from_text<const CAPACITY: usize>(
    text: &str,
) -> Result<StaticString<CAPACITY>, JsonFault>
    ensures { result ≡ bytes_read CAPACITY text.now }
{
    match StaticString::from_bytes(text.as_bytes()) {
        Ok(string) => Ok(string),
        Err(StringModificationError::InsertWouldExceedCapacity) => Err(JsonFault::TooLong),
        Err(StringModificationError::InvalidCharacter) => Err(JsonFault::BadByte),
    }
}

/// Returns the JSON string of a string. Allocates from `alloc`.
pub(super) fn text_from_string<const CAPACITY: usize>(
    string: &StaticString<CAPACITY>,
    alloc: Global,
) -> Result<std::string::String, JsonFault>
    ensures text { IfOk result (λ text. string_bytes text ≡ string.now) }
    ensures read_back { IsOk result → bytes_read CAPACITY string.now ≡ Ok string.now }
    ensures fault { IfErr result (λ fault. fault ≡ OutOfMemory) }
    ensures memory { string.now ≡ [] → IsOk result }
{
    let Ok(mut bytes) = Vec::with_capacity(alloc, string.len()) else {
        return Err(JsonFault::OutOfMemory);
    };
    let Ok(()) = bytes.extend_from_slice(string.as_bytes()) else {
        return Err(JsonFault::OutOfMemory);
    };
    // SAFETY: bytes from 1 to 127 are UTF-8.
    Ok(unsafe { std::string::String::from_utf8_unchecked(bytes) })
}

/// A JSON string.
///
/// Reading returns [`JsonFault::WrongKind`] if the value is not a JSON string, and otherwise [`JsonFault::TooLong`] if it has more
/// than `CAPACITY` bytes. Otherwise it returns [`JsonFault::BadByte`] if one of them is 0 or above 127. O(`CAPACITY`).
impl<const CAPACITY: usize> JsonForm for StaticString<CAPACITY> {
    ghost use Rattle.serde_json.specs.Data.{string};
    ghost use Rattle.ix_json.specs.JsonTree.{text_read};

    ghost tree = { string };

    ghost read = { text_read CAPACITY };

    ghost is_infallible = { λ bytes. bytes ≡ [] };

    fn to_value(&self, alloc: Global) -> Result<Value, JsonFault> {
        Ok(Value::String(text_from_string(self, alloc)?))
    }

    fn from_value(value: &Value) -> Result<Self, JsonFault> {
        let Some(text) = value.as_str() else {
            return Err(JsonFault::WrongKind);
        };
        string_from_text(text)
    }
}

impl<const CAPACITY: usize> JsonItem for StaticString<CAPACITY> {
    ghost always_read_back = { λ _. tt };

    ghost never_null = { λ _ same. Prim.cc };
}

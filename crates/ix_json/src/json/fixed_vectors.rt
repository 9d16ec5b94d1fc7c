//! Fixed vectors in JSON.

use crate::json::lists::{append_items, vector_to_value};
use crate::json::{JsonFault, JsonForm, JsonItem};
use ix_vector::StaticVec;
use serde_json::Value;
use std::alloc::Global;

/// A JSON array of the forms of the elements, in order.
///
/// Reading returns [`JsonFault::WrongKind`] if the value is not an array, and otherwise [`JsonFault::TooLong`] if it has more than
/// `CAPACITY` entries. Otherwise it returns the error of the first entry that has one. Entries after that one are not read.
/// O(`CAPACITY`), with as many calls of the elements' conversion as there are elements.
impl<T: JsonItem + Default + Drop, const CAPACITY: usize> JsonForm for StaticVec<T, CAPACITY> {
    ghost use Rattle.std.specs.Prelude.{◌≡◌, []};
    ghost use Rattle.ix_json.specs.JsonTree.{list_tree, list_read};

    ghost tree = { list_tree T.tree };

    ghost read = { list_read CAPACITY T.read };

    ghost is_infallible = { λ items. items ≡ [] };

    fn to_value(&self, alloc: Global) -> Result<Value, JsonFault> {
        vector_to_value(self, alloc)
    }

    fn from_value(value: &Value) -> Result<Self, JsonFault> {
        let mut items = StaticVec::default();
        append_items(&mut items, value)?;
        Ok(items)
    }
}

impl<T: JsonItem + Default + Drop, const CAPACITY: usize> JsonItem for StaticVec<T, CAPACITY> {
    ghost always_read_back = { λ _. tt };

    ghost never_null = { λ _ same. Prim.cc };
}

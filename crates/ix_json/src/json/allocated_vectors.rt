//! Allocated vectors in JSON.

use crate::json::lists::{append_items, vector_to_value};
use crate::json::{JsonFault, JsonFill, JsonItem};
use ix_vector::PolymorphicVec;
use serde_json::Value;
use std::alloc::{Allocator, Global};

/// A JSON array of the forms of the elements, in order.
///
/// Reading appends the elements. It returns [`JsonFault::WrongKind`] if the value is not an array, and otherwise
/// [`JsonFault::TooLong`] if it has more entries than there is room for. Otherwise it returns the error of the first entry that has
/// one. Entries after that one are not read. O(`len`) of what is read, with as many calls of the elements' conversion.
impl<T: JsonItem + Drop, A: Allocator> JsonFill for PolymorphicVec<T, A> {
    ghost use Rattle.std.specs.Prelude.{◌≡◌, []};
    ghost use Rattle.ix_tables.specs.Bounded.{with_items};
    ghost use Rattle.ix_json.specs.JsonTree.{list_tree, list_filled};

    ghost tree = { λ vector. list_tree T.tree vector.items };

    ghost filled = { list_filled T.read };

    ghost emptied = { λ vector. with_items vector [] };

    ghost is_infallible = { λ vector. vector.items ≡ [] };

    fn to_value(&self, alloc: Global) -> Result<Value, JsonFault> {
        vector_to_value(self, alloc)
    }

    fn fill_from_value(&mut self, value: &Value) -> Result<(), JsonFault> {
        append_items(self, value)
    }
}

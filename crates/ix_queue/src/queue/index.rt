//! Elements of a queue by their index.
ghost use Rattle.std.specs.Prelude.{◌≡◌, ◌<◌, length, slice_get, Some};

use crate::queue::MetaQueue;
use ix_tables::Table;
use std::ops::Index;

/// `queue[i]` is the element at index `i`, where 0 is the front. `i` must be less than the number of elements.
/// [`MetaQueue::get_ref`] accepts any index. O(1).
impl<T, S: Table<T>> Index<usize> for MetaQueue<T, S> {
    type Output = T;

    ghost can_index = { λ queue index. index < length queue.items };

    ghost index_gives = { λ queue index item. slice_get queue.items index ≡ Some item };

    #[inline]
    fn index(&self, index: usize) -> &T {
        self.item_at(index)
    }
}

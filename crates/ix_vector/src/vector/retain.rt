//! Moving the elements of a slice that are kept to its front.
ghost use Rattle.std.specs.Prelude.{◌≡◌, ◌-◌, ◌<◌, ◌≤◌, List, length, take, not, true, slice_index_or};
ghost use Rattle.std.specs.Fn.{CalledAt};
ghost use Rattle.std.specs.List.{dedup};
ghost use Rattle.std.specs.List.Retain.{IsFiltered};
ghost use Rattle.ix_tables.specs.Calls.{IsCallableOnEach};

/// Calls `f` with each element in turn, and moves those for which it returns `true` to the front, in their order. Returns their
/// number. The others follow them.
pub(crate) fn keep_in_front<T, F: FnMut(&T) -> bool>(items: &mut [T], mut f: F) -> usize
    requires { IsCallableOnEach F.FnMut items.old f }
    ensures len { length items.new ≡ length items.old }
    ensures kept { IsFiltered (CalledAt F.FnMut) f items.old (take result items.new) }
{
    let mut kept = 0;
    for i in 0..items.len() {
        if f(item_at(items, i)) {
            items.swap(kept, i);
            kept += 1;
        }
    }
    kept
}

/// Returns a reference to element `i`.
#[inline]
fn item_at<T>(items: &[T], i: usize) -> &T
    requires { i < length items.now }
    ensures { result.now ≡ slice_index_or items.now i result.now }
{
    &items[i]
}

/// Moves the elements that do not equal the one that was kept before them to the front, in their order. Returns their number. The
/// others follow them.
pub(crate) fn unlike_in_front<T: PartialEq>(items: &mut [T]) -> usize
    ensures len { length items.new ≡ length items.old }
    ensures kept { take result items.new ≡ dedup T.eq items.old }
{
    let mut kept = 0;
    for i in 0..items.len() {
        if is_unlike_last(item_at(items, i), items, kept) {
            items.swap(kept, i);
            kept += 1;
        }
    }
    kept
}

/// Returns `true` if `item` does not equal the last of the first `kept` elements, or if there are none.
#[inline]
fn is_unlike_last<T: PartialEq>(item: &T, items: &[T], kept: usize) -> bool
    requires { kept ≤ length items.now }
    ensures none { kept ≡ 0 → result ≡ true }
    ensures last { 0 < kept → (d : T) → result
        ≡ not (T.eq item.now (slice_index_or items.now (kept - 1) d)) }
{
    if kept == 0 {
        return true;
    }
    *item != items[kept - 1]
}

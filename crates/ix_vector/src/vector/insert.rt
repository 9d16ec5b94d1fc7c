//! Shifts of the elements of a slice by one place.
ghost use Rattle.std.specs.Prelude.{◌≡◌, ◌+◌, ◌-◌, ◌<◌, List, [], ◌∷◌, ◌++◌, length, take, drop, slice_range};
ghost use Rattle.std.specs.List.{remove_range};
ghost use Rattle.core.specs.Mem.Slots.{slots_items, slots_len, IsFull, Refills};

use core::slots::{Slots, with_slots};

/// Moves the last element of a slice to its front, and each other element one place to the right. Moves each element once.
#[inline]
fn last_to_front<T>(items: &mut [T])
    requires { 0 < length items.old }
    ensures { items.new ≡ drop (length items.old - 1) items.old
        ++ take (length items.old - 1) items.old }
{
    // SAFETY: every place holds an element again once the last one is put.
    unsafe { with_slots(items, &mut (), (), put_last_first) }
}

#[inline]
fn put_last_first<T>(mut row: Slots<T>, state: (), _argument: ()) -> (Slots<T>, (), ())
    requires { IsFull row × (0 < slots_len row) }
    ensures row { Refills row result.0 }
    ensures items { slots_items result.0 ≡ drop (slots_len row - 1) (slots_items row)
        ++ take (slots_len row - 1) (slots_items row) }
{
    let end = row.len() - 1;
    let last = row.take(end);
    row.move_within(0, 1, end);
    row.put(0, last);
    (row, state, ())
}

/// Moves the first element of a slice to its end, and each other element one place to the left. Moves each element once.
#[inline]
fn first_to_end<T>(items: &mut [T])
    requires { 0 < length items.old }
    ensures { items.new ≡ drop 1 items.old ++ take 1 items.old }
{
    // SAFETY: every place holds an element again once the first one is put.
    unsafe { with_slots(items, &mut (), (), put_first_last) }
}

#[inline]
fn put_first_last<T>(mut row: Slots<T>, state: (), _argument: ()) -> (Slots<T>, (), ())
    requires { IsFull row × (0 < slots_len row) }
    ensures row { Refills row result.0 }
    ensures items { slots_items result.0 ≡ drop 1 (slots_items row) ++ take 1 (slots_items row) }
{
    let end = row.len() - 1;
    let first = row.take(0);
    row.move_within(1, 0, end);
    row.put(end, first);
    (row, state, ())
}

/// Moves the last element to `index`, shifting all elements from there on to the right.
#[inline]
pub(crate) fn move_last_to<T>(items: &mut [T], index: usize)
    requires { index < length items.old }
    ensures { (front : List T) (last : T) → items.old ≡ front ++ last ∷ []
        → items.new ≡ take index front ++ last ∷ drop index front }
{
    last_to_front(&mut items[index..]);
}

/// Moves the element at `index` to the end, shifting all later elements to the left.
#[inline]
pub(crate) fn move_to_end<T>(items: &mut [T], index: usize)
    requires { index < length items.old }
    ensures { items.new ≡ remove_range items.old index (index + 1)
        ++ slice_range items.old index (index + 1) }
{
    first_to_end(&mut items[index..]);
}

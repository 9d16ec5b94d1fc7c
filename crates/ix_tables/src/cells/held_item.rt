//! The value of an option that is known to have one.
ghost use Rattle.std.specs.Prelude.{◌≡◌, Some, IsSome};
ghost use Rattle.std.specs.Borrow.{sem};
ghost use Rattle.ix_tables.specs.inner.HeldItem.{option_lends};

use std::mem::align_of;

/// Returns a reference to the value of a `Some`, without checking the variant. O(1).
#[inline]
pub(crate) fn item<T>(place: &Option<T>) -> &T
    requires { IsSome place.now }
    ensures { place.now ≡ Some result.now }
{
    // SAFETY: the item of a `Some` lies behind the tag, where its type is aligned.
    unsafe {
        let start = (place as *const Option<T> as *const u8).add(align_of::<T>());
        &*(start as *const T)
    }
}

/// Returns a mutable reference to the value of a `Some`, without checking the variant. O(1).
#[inline]
pub(crate) fn item_mut<T>(place: &mut Option<T>) -> &mut T
    requires { IsSome place.old }
    ensures* writes_back { sem 𝓛 (option_lends T.row place.entry result) }
    ensures value { place.old ≡ Some result.now }
{
    // SAFETY: as above.
    unsafe {
        let start = (place as *mut Option<T> as *mut u8).add(align_of::<T>());
        &mut *(start as *mut T)
    }
}

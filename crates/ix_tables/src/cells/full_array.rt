//! An `ArrayVec` that is always full: it is made of an array, in one fill, and never changes its length. The functions
//! here read, overwrite and borrow its places.
ghost use Rattle.std.specs.Prelude.{◌≡◌, ◌+◌, ◌<◌, ◌≤◌, All, length, take, drop, slice_index_or, slice_range, slice_set, IsOk, OnOk};
ghost use Rattle.std.specs.List.{AllZip, AppendsClones};
ghost use Rattle.std.specs.Borrow.{sem};
ghost use Rattle.arrayvec.specs.ArrayVec.{array_vec_len};
ghost use Rattle.ix_tables.specs.Cloning.{AreInfallible};
ghost use Rattle.ix_tables.specs.FullArrays.{array_vec_lends_front};
ghost use Rattle.ix_tables.specs.inner.FullArrays.{array_vec_lends_place, slice_lends_place};

use arrayvec::ArrayVec;
use std::alloc::AllocError;
use std::mem;

/// Returns a reference to place `i`.
#[inline]
pub(crate) fn place<T, const CAP: usize>(array: &ArrayVec<T, CAP>, i: usize) -> &T
    requires { i < array_vec_len array.now }
    ensures { result.now ≡ slice_index_or array.now.items i result.now }
{
    &array.as_slice()[i]
}

/// Overwrites place `i`, dropping its old content.
#[inline]
pub fn put<T: Drop, const CAP: usize>(array: &mut ArrayVec<T, CAP>, i: usize, value: T)
    requires { i < array_vec_len array.old }
    ensures { array.new.items ≡ slice_set array.old.items i value }
{
    array.as_mut_slice()[i] = value;
}

/// Overwrites place `i` and returns its old content.
#[inline]
pub fn replace<T, const CAP: usize>(array: &mut ArrayVec<T, CAP>, i: usize, value: T) -> T
    requires { i < array_vec_len array.old }
    ensures value { result ≡ slice_index_or array.old.items i result }
    ensures places { array.new.items ≡ slice_set array.old.items i value }
{
    mem::replace(&mut array.as_mut_slice()[i], value)
}

/// Overwrites the places `start..end` with defaults, the last one first.
#[inline]
pub fn put_defaults<T: Default + Drop, const CAP: usize>(
    array: &mut ArrayVec<T, CAP>,
    start: usize,
    end: usize,
)
    requires order { start ≤ end }
    requires bounds { end ≤ array_vec_len array.old }
    ensures len { array_vec_len array.new ≡ array_vec_len array.old }
    ensures front { take start array.new.items ≡ take start array.old.items }
    ensures defaults { All T.is_default (slice_range array.new.items start end) }
    ensures behind { drop end array.new.items ≡ drop end array.old.items }
{
    let places = array.as_mut_slice();
    fill_with_defaults(&mut places[start..end]);
}

/// Overwrites the places from `start` on with clones of the items. If cloning fails, drops the clones already made and
/// leaves defaults there.
#[inline(always)]
pub fn put_clones<T: Default + Clone + Drop, const CAP: usize>(
    array: &mut ArrayVec<T, CAP>,
    start: usize,
    items: &[T],
) -> Result<(), AllocError>
    requires { start + length items.now ≤ array_vec_len array.old }
    ensures len { array_vec_len array.new ≡ array_vec_len array.old }
    ensures front { take start array.new.items ≡ take start array.old.items }
    ensures places { OnOk result (AppendsClones T.is_clone (take start array.old.items)
        (take (start + length items.now) array.new.items) items.now) }
    ensures memory { AreInfallible T.is_infallible items.now → IsOk result }
{
    let places = array.as_mut_slice();
    fill_with_clones(&mut places[start..start + items.len()], items)
}

/// Overwrites all places with defaults, the last one first.
#[inline]
fn fill_with_defaults<T: Default + Drop>(places: &mut [T])
    ensures len { length places.new ≡ length places.old }
    ensures defaults { All T.is_default places.new }
{
    for i in (0..places.len()).rev() {
        places[i] = T::default();
    }
}

/// Overwrites the places with clones of the items. If cloning fails, drops the clones already made and leaves defaults
/// there.
#[inline(always)]
fn fill_with_clones<T: Default + Clone + Drop>(
    places: &mut [T],
    items: &[T],
) -> Result<(), AllocError>
    requires { length places.old ≡ length items.now }
    ensures len { length places.new ≡ length places.old }
    ensures places { OnOk result (AllZip T.is_clone items.now places.new) }
    ensures memory { AreInfallible T.is_infallible items.now → IsOk result }
{
    for i in 0..items.len() {
        match items[i].clone() {
            Ok(copy) => places[i] = copy,
            Err(error) => {
                fill_with_defaults(&mut places[..i]);
                return Err(error);
            }
        }
    }
    Ok(())
}

/// Returns a mutable reference to place `i`.
#[inline]
pub(crate) fn place_mut<T, const CAP: usize>(array: &mut ArrayVec<T, CAP>, i: usize) -> &mut T
    requires { i < array_vec_len array.old }
    ensures* writes_back { sem 𝓛 (array_vec_lends_place T.row CAP.row array.entry i result) }
    ensures value { result.now ≡ slice_index_or array.old.items i result.now }
{
    place_of(all_mut(array), i)
}

/// Returns the first `len` places as a mutable slice.
#[inline]
pub fn front_mut<T, const CAP: usize>(array: &mut ArrayVec<T, CAP>, len: usize) -> &mut [T]
    requires { len ≤ array_vec_len array.old }
    ensures* writes_back { sem 𝓛 (array_vec_lends_front T.row CAP.row array.entry result) }
    ensures value { result.now ≡ take len array.old.items }
{
    let all = all_mut(array);
    &mut all[..len]
}

/// Returns all places as a mutable slice.
#[inline]
fn all_mut<T, const CAP: usize>(array: &mut ArrayVec<T, CAP>) -> &mut [T]
    ensures* writes_back { sem 𝓛 (array_vec_lends_front T.row CAP.row array.entry result) }
    ensures value { result.now ≡ array.old.items }
{
    array.as_mut_slice()
}

/// Returns a mutable reference to place `i` of `places`.
// A function of its own, since the proof by hand of `place_mut` needs this contract.
#[inline]
fn place_of<T>(places: &mut [T], i: usize) -> &mut T
    requires { i < length places.old }
    ensures* writes_back { sem 𝓛 (slice_lends_place T.row places.entry i result) }
    ensures value { result.now ≡ slice_index_or places.old i result.now }
{
    &mut places[i]
}

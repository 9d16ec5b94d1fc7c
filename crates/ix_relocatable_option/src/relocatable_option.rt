//! Options: values that may be missing.
ghost use Rattle.std.specs.Prelude.{◌≡◌, ◌↔◌, None, Some, IsTrue, IsSome, IsNone, IfSome, is_some, unwrap_or, ok_or, option_copied, option_map};
ghost use Rattle.std.specs.Borrow.{sem};
ghost use Rattle.std.specs.Fn.{FnOnceReturnsAt, FnOnceTakesAt, FnOnceTakesAtMut};
ghost use Rattle.std.specs.Option.{ForSome, ForNone, MatchOption, UnwrapsOrElse, option_copied_mut};
ghost use Rattle.ix_relocatable_option.specs.Optional.{option_of, relocatable_of, relocatable_lends, TakesIf};

mod conversions;
mod order;

use std::mem;
use std::ops::{AsDeref, DerefMut};

/// An optional value: `Some` with a value, or `None`.
///
/// It has the most used methods of [`Option`]. [`RelocatableOption::to_option`] converts to an [`Option`], which has the others.
/// Create it by its variants, or by [`From`] of an [`Option`]. Every method is O(1) and does not allocate, except in closures and
/// in the value's own clone, comparison, hash, default and drop.
///
/// Options are ordered by their values, and `None` is less than each `Some`.
///
/// This is `RelocatableOption` of iceoryx2-bb-container.
#[derive(Clone, Copy, PartialEq, Eq, Hash, Debug)]
pub enum RelocatableOption<T> {
    /// No value.
    None,
    /// A value.
    Some(T),
}

/// Returns `None`.
impl<T> Default for RelocatableOption<T> {
    ghost is_default = { λ option. option_of option ≡ None };

    fn default() -> Self {
        RelocatableOption::None
    }
}

impl<T> RelocatableOption<T> {
    /// Converts to [`Option`]. [`RelocatableOption::from`] converts back to the same option.
    #[inline]
    pub fn to_option(self) -> Option<T>
        ensures value { result ≡ option_of self }
        ensures back { relocatable_of result ≡ self }
    {
        self.into()
    }

    /// Returns an [`Option`] of a reference to the value.
    #[inline]
    pub fn as_option_ref(&self) -> Option<&T>
        ensures { option_copied result ≡ option_of self.now }
    {
        let RelocatableOption::Some(value) = self else {
            return None;
        };
        Some(value)
    }

    /// Returns an [`Option`] of a mutable reference to the value.
    #[inline]
    pub fn as_option_mut(&mut self) -> Option<&mut T>
        ensures* writes_back { sem 𝓛 (relocatable_lends T.row self.entry result) }
        ensures value { option_copied_mut result ≡ option_of self.old }
    {
        match self {
            RelocatableOption::Some(value) => Some(value),
            RelocatableOption::None => None,
        }
    }

    /// Returns an option of the dereferenced value, such as `&str` for std's `String`.
    #[inline]
    pub fn as_deref<'a>(&'a self) -> RelocatableOption<T::Shown>
    where
        T: AsDeref<'a>,
        ensures variant { is_some (option_of result) ≡ is_some (option_of self.now) }
        ensures value { IfSome (option_of self.now) (λ value.
            IfSome (option_of result) (T.as_deref_gives value)) }
        ensures view { option_map T.output_view (option_of result)
            ≡ option_map T.view (option_of self.now) }
    {
        match self {
            RelocatableOption::Some(value) => RelocatableOption::Some(value.shown()),
            RelocatableOption::None => RelocatableOption::None,
        }
    }

    /// Returns an option of a mutable reference to the dereferenced value.
    #[inline]
    pub fn as_deref_mut(&mut self) -> RelocatableOption<&mut T::Target>
    where
        T: DerefMut,
        ensures variant { is_some (option_of result) ≡ is_some (option_of self.old) }
        ensures value { IfSome (option_of self.old) (λ value.
            IfSome (option_of result) (λ target. T.deref_mut_gives value target.now)) }
    {
        match self {
            RelocatableOption::Some(value) => RelocatableOption::Some(value.deref_mut()),
            RelocatableOption::None => RelocatableOption::None,
        }
    }

    /// Returns an option of a mutable reference to the value.
    #[inline]
    pub fn as_mut(&mut self) -> RelocatableOption<&mut T>
        ensures* writes_back { sem 𝓛 (relocatable_lends T.row self.entry (option_of result)) }
        ensures value { option_copied_mut (option_of result) ≡ option_of self.old }
    {
        match self {
            RelocatableOption::Some(value) => RelocatableOption::Some(value),
            RelocatableOption::None => RelocatableOption::None,
        }
    }

    /// Returns an option of a reference to the value.
    #[inline]
    pub fn as_ref(&self) -> RelocatableOption<&T>
        ensures { option_copied (option_of result) ≡ option_of self.now }
    {
        self.as_option_ref().into()
    }

    /// Returns the value. There has to be one. `_msg` is not read; it is there as in [`Option::expect`].
    #[inline]
    pub fn expect(self, _msg: &str) -> T
        requires { IsSome (option_of self) }
        ensures { option_of self ≡ Some result }
    {
        self.unwrap()
    }

    /// Calls `f` with a reference to the value if there is one, and returns the option.
    #[inline]
    pub fn inspect<F: FnOnce(&T)>(self, f: F) -> Self
        requires { ForSome (option_of self) (FnOnceTakesAt F.FnOnce f) }
        ensures value { result ≡ self }
        ensures called { IfSome (option_of self) (λ value. FnOnceReturnsAt F.FnOnce f value tt) }
    {
        match self {
            RelocatableOption::Some(value) => {
                f(&value);
                RelocatableOption::Some(value)
            }
            RelocatableOption::None => RelocatableOption::None,
        }
    }

    /// Returns `true` if there is no value.
    #[inline]
    pub fn is_none(&self) -> bool
        ensures { IsTrue result ↔ IsNone (option_of self.now) }
    {
        matches!(self, RelocatableOption::None)
    }

    /// Returns `true` if there is a value.
    #[inline]
    pub fn is_some(&self) -> bool
        ensures { IsTrue result ↔ IsSome (option_of self.now) }
    {
        !self.is_none()
    }

    /// Returns an option of the result of `f` at the value. Does not call `f` if there is none.
    #[inline]
    pub fn map<U, F: FnOnce(T) -> U>(self, f: F) -> RelocatableOption<U>
        requires { ForSome (option_of self) (F.pre f) }
        ensures variant { is_some (option_of result) ≡ is_some (option_of self) }
        ensures value { IfSome (option_of self) (λ value.
            IfSome (option_of result) (F.post f value)) }
    {
        match self {
            RelocatableOption::Some(value) => RelocatableOption::Some(f(value)),
            RelocatableOption::None => RelocatableOption::None,
        }
    }

    /// Returns the value as `Ok`, or `error` as `Err` if there is none. `error` is dropped if it is not returned.
    #[inline]
    pub fn ok_or<E: Drop>(self, error: E) -> Result<T, E>
        ensures { result ≡ ok_or (option_of self) error }
    {
        match self {
            RelocatableOption::Some(value) => Ok(value),
            RelocatableOption::None => Err(error),
        }
    }

    /// Puts `value` into the option, and returns the old option.
    #[inline]
    pub fn replace(&mut self, value: T) -> RelocatableOption<T>
        ensures value { result ≡ self.old }
        ensures option { option_of self.new ≡ Some value }
    {
        mem::replace(self, RelocatableOption::Some(value))
    }

    /// Takes the value out of the option, leaving `None` in its place, and returns the old option.
    #[inline]
    pub fn take(&mut self) -> RelocatableOption<T>
        ensures value { result ≡ self.old }
        ensures option { option_of self.new ≡ None }
    {
        mem::replace(self, RelocatableOption::None)
    }

    /// Takes the value out of the option and returns it if `predicate` returns `true` for it. Otherwise returns `None`.
    /// Does not call `predicate` if there is no value.
    ///
    /// `predicate` may change the value. It stays changed, even if it is not taken.
    #[inline]
    pub fn take_if<P: FnOnce(&mut T) -> bool>(&mut self, predicate: P) -> RelocatableOption<T>
        requires { ForSome (option_of self.old) (FnOnceTakesAtMut P.FnOnce predicate) }
        ensures { TakesIf P.FnOnce predicate
            (option_of self.old) (option_of self.new) (option_of result) }
    {
        match self {
            RelocatableOption::Some(value) => {
                if predicate(value) {
                    self.take()
                } else {
                    RelocatableOption::None
                }
            }
            RelocatableOption::None => RelocatableOption::None,
        }
    }

    /// Returns the value. There has to be one.
    #[inline]
    pub fn unwrap(self) -> T
        requires { IsSome (option_of self) }
        ensures { option_of self ≡ Some result }
    {
        match self {
            RelocatableOption::Some(value) => value,
            RelocatableOption::None => unreachable!(),
        }
    }

    /// Returns the value, or `alternative` if there is none. The one that is not returned is dropped.
    #[inline]
    pub fn unwrap_or(self, alternative: T) -> T
    where
        T: Drop,
        ensures { result ≡ unwrap_or (option_of self) alternative }
    {
        self.unwrap_or_else(|| alternative)
    }

    /// Returns the value, or the default value if there is none.
    #[inline]
    pub fn unwrap_or_default(self) -> T
    where
        T: Default,
        ensures { UnwrapsOrElse (option_of self) T.is_default result }
    {
        match self {
            RelocatableOption::Some(value) => value,
            RelocatableOption::None => T::default(),
        }
    }

    /// Returns the value, or the result of `f` if there is none. Does not call `f` otherwise.
    #[inline]
    pub fn unwrap_or_else<F: FnOnce() -> T>(self, f: F) -> T
        requires { ForNone (option_of self) (F.pre f) }
        ensures { MatchOption (option_of self) (F.post f result) (λ value. result ≡ value) }
    {
        match self {
            RelocatableOption::Some(value) => value,
            RelocatableOption::None => f(),
        }
    }

    /// Returns the value, without checking that there is one.
    #[inline]
    pub fn unwrap_unchecked(self) -> T
        requires { IsSome (option_of self) }
        ensures { option_of self ≡ Some result }
    {
        self.unwrap()
    }
}

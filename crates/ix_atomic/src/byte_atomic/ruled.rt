//! Values that obey a rule which their type does not state.
ghost use Rattle.std.specs.Prelude.{◌≡◌, ◌↔◌, None, IfSome, IsTrue};

use crate::byte_atomic::AtomicFields;
use std::alloc::AllocError;
use std::fmt;
use std::marker::PhantomData;

/// A rule for values of a type. A type may have several.
pub trait ValueRule<T>: Copy {
    /// Holds of the values that obey the rule.
    ghost holds: { T → Type 0 };

    /// Returns `true` if the value obeys the rule.
    #[must_use]
    fn is_held(value: &T) -> bool
        ensures { IsTrue result ↔ holds value.now };
}

/// A value that obeys the rule `R`.
///
/// Each value that is read from a cell of `Fields<Ruled<T, R>>` obeys it too, whoever wrote it.
pub struct Ruled<T, R: ValueRule<T>> {
    /// The value.
    pub value: T,
    pub(crate) rule: PhantomData<R>,
    /// The value obeys the rule.
    pub ghost obeys: { ∥ R.holds value ∥₁ },
}

impl<T: Copy, R: ValueRule<T>> Ruled<T, R> {
    /// Returns the value with the rule that it obeys. O(1).
    #[inline]
    pub fn new(value: T) -> Ruled<T, R>
        requires { R.holds value }
        ensures { result.value ≡ value }
    {
        Ruled {
            value,
            rule: PhantomData,
        }
    }

    /// Returns the value with the rule, or `None` if the value does not obey the rule. Tests the value once.
    #[must_use]
    #[inline]
    pub fn try_new(value: T) -> Option<Ruled<T, R>>
        ensures value { IfSome result (λ ruled. ruled.value ≡ value) }
        ensures refused { result ≡ None ↔ ¬ (R.holds value) }
    {
        if R::is_held(&value) {
            Some(Ruled::new(value))
        } else {
            None
        }
    }

    /// Returns the value. O(1).
    #[must_use]
    #[inline]
    pub fn get(&self) -> T
        ensures value { result ≡ self.now.value }
        ensures rule { ∥ R.holds result ∥₁ }
    {
        self.value
    }
}

impl<T: Copy, R: ValueRule<T>> Copy for Ruled<T, R> {}

impl<T: Copy, R: ValueRule<T>> Clone for Ruled<T, R> {
    ghost is_clone = { λ ruled copy. copy ≡ ruled };

    fn clone(&self) -> Result<Self, AllocError> {
        Ok(*self)
    }
}

/// Prints the value.
impl<T: fmt::Debug, R: ValueRule<T>> fmt::Debug for Ruled<T, R> {
    fn fmt<W: fmt::Write>(&self, f: &mut fmt::Formatter<W>) -> fmt::Result {
        self.value.fmt(f)
    }
}

/// Ruled values are equal if the values are.
impl<T: PartialEq, R: ValueRule<T>> PartialEq for Ruled<T, R> {
    ghost use Rattle.std.specs.Ordering.{on};
    ghost use Rattle.std.specs.Cmp.{on_per};

    ghost eq = { on (λ ruled. ruled.value) T.eq };

    ghost laws = { on_per (λ ruled. ruled.value) T.laws };

    fn eq(&self, other: &Self) -> bool {
        self.value == other.value
    }
}

impl<T: Eq, R: ValueRule<T>> Eq for Ruled<T, R> {
    ghost use Rattle.std.specs.Cmp.{on_equiv};

    ghost laws = { on_equiv (λ ruled. ruled.value) T.Eq.laws };
}

/// The fields of the value.
impl<T: AtomicFields, R: ValueRule<T>> AtomicFields for Ruled<T, R> {
    ghost use mathlib.Core.HLevel.{is_prop→PathP};
    ghost use mathlib.Core.Logic.{∥∥₁_prop};

    type Fields = T::Fields;

    ghost fields = { λ ruled. T.fields ruled.value };

    #[inline]
    fn to_fields(&self) -> Self::Fields {
        self.value.to_fields()
    }

    #[inline]
    fn from_fields(of: Self::Fields) -> Option<Ruled<T, R>> {
        match T::from_fields(of) {
            Some(value) => Ruled::try_new(value),
            None => None,
        }
    }

    ghost one_value = { λ v w same i. record {
      value = T.one_value v.value w.value same i;
      rule = v.rule;
      obeys = is_prop→PathP (λ j. ∥ R.holds (T.one_value v.value w.value same j) ∥₁)
          (λ j. ∥∥₁_prop) v.obeys w.obeys i;
    } };
}

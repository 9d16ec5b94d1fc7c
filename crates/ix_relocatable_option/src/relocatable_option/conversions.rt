//! Conversions of options.
ghost use Rattle.std.specs.Prelude.{◌≡◌};
ghost use Rattle.ix_relocatable_option.specs.Optional.{option_of, relocatable_of};

use crate::relocatable_option::RelocatableOption;

impl<T> From<Option<T>> for RelocatableOption<T> {
    ghost from_gives = { λ option result. result ≡ relocatable_of option };

    /// Converts an [`Option`]. [`RelocatableOption::to_option`] converts back to the same option.
    fn from(value: Option<T>) -> Self
        ensures value { result ≡ relocatable_of value }
        ensures back { option_of result ≡ value }
    {
        match value {
            Some(value) => RelocatableOption::Some(value),
            None => RelocatableOption::None,
        }
    }
}

impl<T> From<RelocatableOption<T>> for Option<T> {
    ghost from_gives = { λ option result. result ≡ option_of option };

    /// Converts to [`Option`]. [`RelocatableOption::from`] converts back to the same option.
    fn from(value: RelocatableOption<T>) -> Self
        ensures value { result ≡ option_of value }
        ensures back { relocatable_of result ≡ value }
    {
        match value {
            RelocatableOption::Some(value) => Some(value),
            RelocatableOption::None => None,
        }
    }
}

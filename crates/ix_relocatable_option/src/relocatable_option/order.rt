//! The order of options.
ghost use Rattle.std.specs.Option.{option_cmp, option_partial_cmp};
ghost use Rattle.std.specs.Ordering.{on};
ghost use Rattle.std.proofs.Common.{rules};
ghost use Rattle.ix_relocatable_option.specs.Optional.{option_of};

use crate::relocatable_option::RelocatableOption;
use std::cmp::Ordering;

/// Options are ordered as those of std: by their values, and `None` is less than each `Some`.
impl<T: PartialOrd> PartialOrd for RelocatableOption<T> {
    ghost partial_cmp = { on option_of (option_partial_cmp T.partial_cmp) };

    ghost laws = { Prim.search rules };

    #[inline]
    fn partial_cmp(&self, other: &Self) -> Option<Ordering> {
        match self {
            RelocatableOption::Some(value) => match other {
                RelocatableOption::Some(other) => value.partial_cmp(other),
                RelocatableOption::None => Some(Ordering::Greater),
            },
            RelocatableOption::None => match other {
                RelocatableOption::Some(_) => Some(Ordering::Less),
                RelocatableOption::None => Some(Ordering::Equal),
            },
        }
    }
}

impl<T: Ord> Ord for RelocatableOption<T> {
    ghost cmp = { on option_of (option_cmp T.cmp) };

    ghost total = { Prim.search rules };

    ghost matches_partial_cmp = { Prim.search rules };

    ghost matches_eq = { Prim.search rules };

    #[inline]
    fn cmp(&self, other: &Self) -> Ordering {
        match self {
            RelocatableOption::Some(value) => match other {
                RelocatableOption::Some(other) => value.cmp(other),
                RelocatableOption::None => Ordering::Greater,
            },
            RelocatableOption::None => match other {
                RelocatableOption::Some(_) => Ordering::Less,
                RelocatableOption::None => Ordering::Equal,
            },
        }
    }
}

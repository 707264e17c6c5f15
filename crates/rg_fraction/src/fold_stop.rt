//! Why steps on numbers came to no result.

ghost use Rattle.std.specs.Prelude.{◌≡◌};
ghost use Rattle.rg_fraction.specs.declared.fold_stop.FoldStop.TheVariants as stop;

use rg_integers::Wide;
use std::alloc::{AllocError, AllocFailed};

/// Why steps on fractions or whole numbers, one after another, came to no result.
#[derive(Clone, Copy, PartialEq, Eq, Debug)]
pub enum FoldStop {
    /// A step is out of range: the four numbers of the first such one.
    Wide(Wide),
    /// Memory ran out.
    NoMemory,
}

impl<T: Drop> From<AllocFailed<T>> for FoldStop {
    ghost from_gives = { λ _ e. e ≡ stop.NoMemory };

    fn from(_: AllocFailed<T>) -> FoldStop {
        FoldStop::NoMemory
    }
}

impl From<AllocError> for FoldStop {
    ghost from_gives = { λ _ e. e ≡ stop.NoMemory };

    fn from(_: AllocError) -> FoldStop {
        FoldStop::NoMemory
    }
}

impl From<Wide> for FoldStop {
    ghost from_gives = { λ w e. e ≡ stop.Wide w };

    fn from(w: Wide) -> FoldStop {
        FoldStop::Wide(w)
    }
}

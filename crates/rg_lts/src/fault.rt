//! Why a call of the builder was refused.
ghost use Rattle.std.specs.Prelude.{◌≡◌};
ghost use Rattle.rg_lts.specs.declared.fault.BuildFault.TheVariants as fault;

use std::alloc::{AllocError, AllocFailed};

/// Why the builder refused a call.
#[derive(Clone, Copy, Debug, PartialEq, Eq)]
pub enum BuildFault {
    /// The state's name is there already.
    TwiceState,
    /// The label's name is there already.
    TwiceLabel,
    /// No state has the name.
    UnknownState,
    /// No label has the name.
    UnknownLabel,
    /// Another state is initial.
    TwoInitial,
    /// No state is initial.
    NoInitial,
    /// There are 4,096 states.
    TooManyStates,
    /// There are 256 labels.
    TooManyLabels,
    /// There are 262,144 arcs.
    TooManyArcs,
    /// Memory ran out.
    NoMemory,
}

impl From<AllocError> for BuildFault {
    ghost from_gives = { λ _ e. e ≡ fault.NoMemory };

    fn from(_: AllocError) -> BuildFault {
        BuildFault::NoMemory
    }
}

impl<T: Drop> From<AllocFailed<T>> for BuildFault {
    ghost from_gives = { λ _ e. e ≡ fault.NoMemory };

    fn from(_: AllocFailed<T>) -> BuildFault {
        BuildFault::NoMemory
    }
}

//! Why a state graph isn't read, and what one can't hold.
ghost use Rattle.std.specs.Prelude.{◌≡◌};
ghost use Rattle.rg_genet.specs.declared.fault.GraphFault.TheVariants as fault;
ghost use Rattle.rg_genet.specs.declared.fault.GraphLoss.TheVariants as loss;

use rg_memory::NoMemory;
use std::alloc::{AllocError, AllocFailed};

/// The first fault of a text that is no state graph. Lines are numbered from 1.
#[derive(Clone, Copy, Debug, PartialEq, Eq)]
pub enum GraphFault {
    /// The line has another form than is expected. Before `.state graph`, a line is empty or its first word begins
    /// with `.`; after it, a line is an arc of three names, one `.marking {NAME}`, or `.end`.
    Expected(u32),
    /// There is no `.marking`.
    NoMarking,
    /// The marking in this line names no state, and there are arcs.
    UnknownState(u32),
    /// There is no `.end` after `.state graph`.
    NoEnd,
    /// With this line there are more than 4,096 states.
    TooManyStates(u32),
    /// With this line there are more than 256 labels.
    TooManyLabels(u32),
    /// With this line there are more than 262,144 different arcs.
    TooManyArcs(u32),
    /// A name in this line, which is right otherwise, has more than 255 bytes.
    LongName(u32),
    /// Memory ran out.
    NoMemory,
}

impl From<AllocError> for GraphFault {
    ghost from_gives = { λ _ e. e ≡ fault.NoMemory };

    fn from(_: AllocError) -> GraphFault {
        GraphFault::NoMemory
    }
}

impl<T: Drop> From<AllocFailed<T>> for GraphFault {
    ghost from_gives = { λ _ e. e ≡ fault.NoMemory };

    fn from(_: AllocFailed<T>) -> GraphFault {
        GraphFault::NoMemory
    }
}

/// What a state graph can't hold of a system.
#[derive(Clone, Copy, Debug, PartialEq, Eq)]
pub enum GraphLoss {
    /// The first label that no arc has.
    Label(u32),
    /// No label is lost, there are two states or more, and this is the first one on no arc.
    State(u32),
    /// Memory ran out.
    NoMemory,
}

impl From<NoMemory> for GraphLoss {
    ghost from_gives = { λ _ e. e ≡ loss.NoMemory };

    fn from(_: NoMemory) -> GraphLoss {
        GraphLoss::NoMemory
    }
}

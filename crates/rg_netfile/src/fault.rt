//! Why a text spells no net for a system.
ghost use Rattle.std.specs.Prelude.{◌≡◌};
ghost use Rattle.rg_netfile.specs.declared.fault.NetFault.TheVariants as fault;

use rg_grammar::ItemFault;
use rg_lexer::Want;
use std::alloc::{AllocError, AllocFailed};

/// The first fault of a net file. Each position is the number of a byte, from 0.
#[derive(Clone, Copy, Debug, PartialEq, Eq)]
pub enum NetFault {
    /// No token, blank byte or comment begins with the byte at this position.
    BadByte(u32),
    /// No `"` follows the `"` at this position.
    OpenString(u32),
    /// No `*/` follows the `/*` at this position.
    OpenComment(u32),
    /// More than 255 name bytes follow each other from this position on.
    LongName(u32),
    /// The token at this position, or the end of the text, can't continue the grammar, which wants this.
    Expected(u32, Want),
    /// The text has no `.type`.
    NoType,
    /// The name at this position is no type of nets: those are `PN` and `LPN`.
    WrongType(u32),
    /// The place named here is declared before.
    TwicePlace(u32),
    /// The place named here is the first past 16,384 of them.
    TooManyPlaces(u32),
    /// The transition named here is declared before.
    TwiceTransition(u32),
    /// The transitions' labels aren't each label of the system once.
    TransitionsDiffer,
    /// No transition has the name at this token.
    UnknownTransition(u32),
    /// No place has the name at this token.
    UnknownPlace(u32),
    /// The number here is over `2^127 - 1`, or the sum with the member here is.
    NumberPasses(u32),
    /// There is no memory for what is read.
    NoMemory,
}

impl From<AllocError> for NetFault {
    ghost from_gives = { λ _ e. e ≡ fault.NoMemory };

    fn from(_: AllocError) -> NetFault {
        NetFault::NoMemory
    }
}

impl<T: Drop> From<AllocFailed<T>> for NetFault {
    ghost from_gives = { λ _ e. e ≡ fault.NoMemory };

    fn from(_: AllocFailed<T>) -> NetFault {
        NetFault::NoMemory
    }
}

impl From<ItemFault> for NetFault {
    ghost use Rattle.std.specs.Prelude.{◌≡◌};
    ghost use Rattle.rg_netfile.specs.Spells.{of_items};

    ghost from_gives = { λ e f. f ≡ of_items e };

    fn from(e: ItemFault) -> NetFault {
        match e {
            ItemFault::BadByte(at) => NetFault::BadByte(at),
            ItemFault::OpenString(at) => NetFault::OpenString(at),
            ItemFault::OpenComment(at) => NetFault::OpenComment(at),
            ItemFault::LongName(at) => NetFault::LongName(at),
            ItemFault::Expected(at, want) => NetFault::Expected(at, want),
            ItemFault::WrongType(at) => NetFault::WrongType(at),
            ItemFault::NoMemory => NetFault::NoMemory,
        }
    }
}

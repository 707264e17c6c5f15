//! Why a text has no items.
ghost use Rattle.std.specs.Prelude.{◌≡◌};
ghost use Rattle.rg_grammar.specs.declared.fault.ItemFault.TheVariants as fault;

use rg_lexer::{LexFault, Want};
use std::alloc::{AllocError, AllocFailed};

/// The first fault of a text in its tokens or in the grammar of its items. Each position is the number of a
/// byte, from 0.
#[derive(Clone, Copy, Debug, PartialEq, Eq)]
pub enum ItemFault {
    /// No token, blank byte or comment begins with the byte at this position.
    BadByte(u32),
    /// No `"` follows the `"` at this position.
    OpenString(u32),
    /// No `*/` follows the `/*` at this position.
    OpenComment(u32),
    /// More than 255 name bytes follow each other from this position on.
    LongName(u32),
    /// The token at this position, or the end of the text, can't continue the grammar, which wants this.
    Expected(u32, Want),
    /// The name at this position, after `.type`, is none of the types that the grammar has.
    WrongType(u32),
    /// There is no memory for what is read.
    NoMemory,
}

impl From<AllocError> for ItemFault {
    ghost from_gives = { λ _ e. e ≡ fault.NoMemory };

    fn from(_: AllocError) -> ItemFault {
        ItemFault::NoMemory
    }
}

impl<T: Drop> From<AllocFailed<T>> for ItemFault {
    ghost from_gives = { λ _ e. e ≡ fault.NoMemory };

    fn from(_: AllocFailed<T>) -> ItemFault {
        ItemFault::NoMemory
    }
}

impl From<LexFault> for ItemFault {
    ghost use Rattle.std.specs.Prelude.{◌≡◌};
    ghost use Rattle.rg_grammar.specs.Text.{of_lexer};

    ghost from_gives = { λ e t. t ≡ of_lexer e };

    fn from(e: LexFault) -> ItemFault {
        match e {
            LexFault::BadByte(at) => ItemFault::BadByte(at),
            LexFault::OpenString(at) => ItemFault::OpenString(at),
            LexFault::OpenComment(at) => ItemFault::OpenComment(at),
            LexFault::LongName(at) => ItemFault::LongName(at),
            LexFault::NoMemory => ItemFault::NoMemory,
        }
    }
}

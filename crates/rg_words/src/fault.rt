//! Why a word list isn't read.
ghost use Rattle.std.specs.Prelude.{◌≡◌};
ghost use Rattle.rg_words.specs.declared.fault.WordFault.TheVariants as fault;

use std::alloc::{AllocError, AllocFailed};

/// The first fault of a text that is no word list. Lines are numbered from 1.
#[derive(Clone, Copy, Debug, PartialEq, Eq)]
pub enum WordFault {
    /// In this line a label has a byte that isn't allowed in a name.
    BadByte(u32),
    /// With this line there are more than 4,096 states.
    TooManyStates(u32),
    /// With this line there are more than 256 labels.
    TooManyLabels(u32),
    /// A label in this line begins with more than 255 name bytes.
    LongName(u32),
    /// Memory ran out.
    NoMemory,
}

impl From<AllocError> for WordFault {
    ghost from_gives = { λ _ e. e ≡ fault.NoMemory };

    fn from(_: AllocError) -> WordFault {
        WordFault::NoMemory
    }
}

impl<T: Drop> From<AllocFailed<T>> for WordFault {
    ghost from_gives = { λ _ e. e ≡ fault.NoMemory };

    fn from(_: AllocFailed<T>) -> WordFault {
        WordFault::NoMemory
    }
}

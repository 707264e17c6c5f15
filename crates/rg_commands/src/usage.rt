//! Why words are refused.
ghost use Rattle.std.specs.Prelude.{◌≡◌};
ghost use Rattle.rg_commands.specs.declared.usage.WordsStop.TheVariants as stop;

use rg_theory::ClassFault;
use std::alloc::AllocError;

/// Why the words are refused: the first of these in order that holds.
#[derive(Clone, Copy, Debug, PartialEq, Eq)]
pub enum Usage {
    /// There is no word.
    NoCommand,
    /// The first word is no command.
    UnknownCommand,
    /// `clap` refuses the words of the command: one is missing or there is one too many, an option is none of the
    /// command's or is repeated, it has no value, or it is a flag and has one.
    Words,
    /// The class word is refused.
    ClassWord(ClassFault),
    /// The form to write is neither `apt` nor `graph`.
    FormWord,
    /// The family is neither `grid`, `doubling` nor `lock`.
    KindWord,
    /// The form to read, that of the one file or of the other, is neither `apt`, `graph` nor `words`.
    FromWord,
    /// The jobs are no number from 1 to 16 of at most nine digits.
    JobsWord,
    /// The number is none of the family's or of a self test, or it isn't written in one to nine digits.
    NumberWord,
}

/// Why the words give no request.
#[derive(Clone, Copy, Debug, PartialEq, Eq)]
pub enum WordsStop {
    /// They are refused.
    Refused(Usage),
    /// Memory ran out.
    NoMemory,
}

impl From<Usage> for WordsStop {
    ghost from_gives = { λ usage s. s ≡ stop.Refused usage };

    fn from(usage: Usage) -> WordsStop {
        WordsStop::Refused(usage)
    }
}

impl From<AllocError> for WordsStop {
    ghost from_gives = { λ _ s. s ≡ stop.NoMemory };

    fn from(_: AllocError) -> WordsStop {
        WordsStop::NoMemory
    }
}

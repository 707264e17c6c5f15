//! Tokens, and why a text has none.
ghost use Rattle.std.specs.Prelude.{◌≡◌};
ghost use Rattle.rg_lexer.specs.declared.token.LexFault.TheVariants as fault;

use std::alloc::{AllocError, AllocFailed};

/// What a token is.
#[derive(Clone, Copy, Debug, PartialEq, Eq)]
pub enum Kind {
    /// 1 to 255 name bytes, as many as follow each other: ASCII letters, digits and `_`.
    Name,
    /// `.` and such a name.
    Word,
    /// Any bytes but `"` between two `"`.
    Text,
    /// `[`
    LeftBracket,
    /// `]`
    RightBracket,
    /// `{`
    LeftBrace,
    /// `}`
    RightBrace,
    /// `,`
    Comma,
    /// `=`
    Equals,
    /// `:`
    Colon,
    /// `*`
    Star,
    /// `->`
    Arrow,
}

/// A token, and the range of its bytes in the text: from the byte `from` up to the byte before `to`, both counted
/// from 0. The quotes of a `Text` and the `.` of a `Word` belong to it.
#[derive(Clone, Copy, Debug, PartialEq, Eq)]
pub struct Token {
    pub kind: Kind,
    pub from: u32,
    pub to: u32,
}

/// What a grammar of systems or nets expects at another token, or at the end of the text.
#[derive(Clone, Copy, Debug, PartialEq, Eq)]
pub enum Want {
    /// A word that begins an item.
    Section,
    /// A name.
    Name,
    /// A text in quotes.
    Text,
    /// The key of an option.
    Key,
    /// What goes on with or closes an option list.
    CloseList,
    /// The value of an option: a text or a name.
    Value,
    /// `:`
    Colon,
    /// A set, so `{`.
    Set,
    /// `->`
    Arrow,
    /// A member of a set: a name, or a number, `*` and a name.
    Member,
    /// What goes on with or closes a set.
    CloseSet,
    /// A name of digits alone.
    Number,
}

/// Why a text has no tokens. Each position is the number of a byte, from 0.
#[derive(Clone, Copy, Debug, PartialEq, Eq)]
pub enum LexFault {
    /// No token, blank byte or comment begins with the byte at this position.
    BadByte(u32),
    /// No `"` follows the `"` at this position.
    OpenString(u32),
    /// No `*/` follows the `/*` at this position.
    OpenComment(u32),
    /// More than 255 name bytes follow each other from this position on.
    LongName(u32),
    /// There is no memory for the list of tokens.
    NoMemory,
}

impl From<AllocError> for LexFault {
    ghost from_gives = { λ _ e. e ≡ fault.NoMemory };

    fn from(_: AllocError) -> LexFault {
        LexFault::NoMemory
    }
}

impl<T: Drop> From<AllocFailed<T>> for LexFault {
    ghost from_gives = { λ _ e. e ≡ fault.NoMemory };

    fn from(_: AllocFailed<T>) -> LexFault {
        LexFault::NoMemory
    }
}

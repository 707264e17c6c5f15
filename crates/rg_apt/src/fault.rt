//! Why a text spells no system.
use rg_grammar::ItemFault;
use rg_lexer::Want;

/// The first fault of a text. Each position is the number of a byte, from 0.
#[derive(Clone, Copy, Debug, PartialEq, Eq)]
pub enum TextFault {
    /// No token, blank byte or comment begins with the byte at this position.
    BadByte(u32),
    /// No `"` follows the `"` at this position.
    OpenString(u32),
    /// No `*/` follows the `/*` at this position.
    OpenComment(u32),
    /// More than 255 name bytes follow each other from this position on.
    LongName(u32),
    /// The token at this position can't go on with the text before it, or the text ends at this position and can't
    /// end yet. The other value says what is wanted instead.
    Expected(u32, Want),
    /// The text has no `.type`.
    NoType,
    /// The name at this position, after `.type`, is neither `LTS` nor `TS`.
    WrongType(u32),
    /// The name at this position is that of a state that was declared before.
    TwiceState(u32),
    /// The name at this position is that of a label that was declared before.
    TwiceLabel(u32),
    /// The name at this position, the first or third of an arc, is that of no state.
    UnknownState(u32),
    /// The name at this position, the second of an arc, is that of no label.
    UnknownLabel(u32),
    /// The state whose name is at this position is marked initial, and so is one before it.
    TwoInitial(u32),
    /// No state is marked initial.
    NoInitial,
    /// The name at this position is that of a new state, and 4,096 were declared before.
    TooManyStates(u32),
    /// The name at this position is that of a new label, and 256 were declared before.
    TooManyLabels(u32),
    /// The name at this position is the first of a new arc, and 262,144 were declared before, repetitions not
    /// counted.
    TooManyArcs(u32),
    /// Memory ran out.
    NoMemory,
}

impl From<ItemFault> for TextFault {
    ghost use Rattle.std.specs.Prelude.{◌≡◌};
    ghost use Rattle.rg_apt.specs.Spells.{of_items};

    ghost from_gives = { λ e f. f ≡ of_items e };

    fn from(e: ItemFault) -> TextFault {
        match e {
            ItemFault::BadByte(at) => TextFault::BadByte(at),
            ItemFault::OpenString(at) => TextFault::OpenString(at),
            ItemFault::OpenComment(at) => TextFault::OpenComment(at),
            ItemFault::LongName(at) => TextFault::LongName(at),
            ItemFault::Expected(at, want) => TextFault::Expected(at, want),
            ItemFault::WrongType(at) => TextFault::WrongType(at),
            ItemFault::NoMemory => TextFault::NoMemory,
        }
    }
}

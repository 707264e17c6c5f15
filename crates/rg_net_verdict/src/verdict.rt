//! The verdict on a net.
use rg_integers::Wide;
use rg_net::ClassBreak;

/// Whether a net solves a system and is of a class.
#[derive(Clone, Copy, Debug, PartialEq, Eq)]
pub enum NetVerdict {
    /// It solves the system and is of the class.
    Yes,
    /// One of the two is false, and this is the first difference.
    No(NetNo),
}

/// The first difference between a net and a system or a class. States, labels and places are given by their numbers.
#[derive(Clone, Copy, Debug, PartialEq, Eq)]
pub enum NetNo {
    /// The least state that can't be reached.
    Unreachable(u32),
    /// The first state and label with two arcs, and the two least states to which these lead.
    Fork(u32, u32, u32, u32),
    /// The label has an arc at the state and isn't enabled there.
    NotEnabled(u32, u32),
    /// The two states have one marking.
    SameMarking(u32, u32),
    /// The label has no arc at the state and is enabled there.
    Enabled(u32, u32),
    /// The label has an arc at the state, and its firing doesn't give the marking of the arc's target.
    WrongStep(u32, u32),
    /// The first break of the class, over the markings of the states by number.
    Class(ClassBreak),
}

/// Why there is no verdict.
#[derive(Clone, Copy, Debug, PartialEq, Eq)]
pub enum CheckStop {
    /// A marking is out of range.
    Wide(CheckWide),
    /// Memory ran out.
    NoMemory,
}

/// A firing that leaves more than `2^127 - 1` tokens on a place: the state that its arc enters, the first such
/// place, and the sum of what is left after the label took its tokens and of those that it puts, as the term
/// `a*1 - c*1` with `c` the opposite of what it puts.
#[derive(Clone, Copy, Debug, PartialEq, Eq)]
pub struct CheckWide {
    pub state: u32,
    pub place: u32,
    pub wide: Wide,
}

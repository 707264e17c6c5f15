//! The problems that a place is the first to separate.

/// The problems that a place of a list is the first to separate: none of the places before it separates them.
///
/// They show whether the place can be left out of a net: it can if the places after it separate them all. A net from
/// which no place can be left out is called irredundant (Badouel, Bernardinello and Darondeau, *Petri Net
/// Synthesis*).
#[derive(Drop)]
pub struct Firsts {
    /// The states, each with a label that the place stops there and no place in front does.
    pub events: Vec<(u32, u32)>,
    /// The cells of the places in front, a number for each state, where the place splits one.
    pub cells: Option<Vec<u32>>,
}

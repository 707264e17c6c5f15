//! What places of a system separate, as marks and numbers: one look finds whether one of them separates a problem,
//! however many they are.
//!
//! A place that is a region stops a label at the states at which it has fewer tokens than the label takes, and
//! distinguishes two states if it has different numbers of tokens at them (Badouel, Bernardinello and Darondeau,
//! *Petri Net Synthesis*).
#![tactic(auto)]

mod cells;
mod compact_place;
mod firsts;
mod region_place;
mod separated;
mod stops;
mod tokens;

pub use compact_place::CompactPlace;
pub use firsts::Firsts;
pub use region_place::RegionPlace;
pub use separated::Separated;
pub use tokens::{fill_tokens, no_tokens};

//! Bases of cycle equations for tests, whose chords may be any.
#![tactic(auto)]

mod bases;

pub use bases::{is_in_range, solved};

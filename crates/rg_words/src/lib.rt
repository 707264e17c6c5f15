//! Word lists: what a text spells, its first fault, and the tree of its words.
#![tactic(auto)]

mod fault;
mod label;
mod laws;
mod reading;

pub use fault::WordFault;
pub use laws::{one_answer, spelled_is_well_formed};
pub use reading::read_words;

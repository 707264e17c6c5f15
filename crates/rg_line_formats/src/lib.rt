//! What state graphs and word lists share: lines and their words, names in the order of first appearance, and the
//! system with given parts.
#![tactic(auto)]

mod building;
mod laws;
mod lines;
mod names;

pub use building::build;
pub use laws::one_system;
pub use lines::{cut_line, cut_word, words};
pub use names::{add_label, add_state, as_name};

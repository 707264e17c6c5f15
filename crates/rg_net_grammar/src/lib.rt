//! The grammar of net files: what a file declares, or its first fault in tokens or grammar.
#![tactic(auto)]

mod found;
mod laws;
mod position;
mod set_position;
mod whole;

pub use found::{Found, FoundFlow, Member, Transition};
pub use laws::{one_answer, tokens_go_on};
pub use rg_grammar::ItemFault;
pub use whole::read_items;

//! State graphs, as Genet and petrify write them: what a text spells, its first fault, and the text of a system.
#![tactic(auto)]

mod fault;
mod laws;
mod line;
mod print;
mod reading;

pub use fault::{GraphFault, GraphLoss};
pub use laws::{one_answer, printed_is_read_again, spelled_is_well_formed};
pub use print::print_graph;
pub use reading::read_graph;

//! The spanning tree of a system, with Parikh vectors and chords.
#![tactic(auto)]

mod arcs;
mod chords;
mod counts;
mod growth;
mod laws;
mod table;
mod tree;

pub use arcs::TreeArcs;
pub use laws::each_state_once;
pub use rg_memory::NoMemory;
pub use tree::{GrowStop, Tree};

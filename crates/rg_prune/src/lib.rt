//! Places without which a net still solves its system are dropped, from the last one to the first.
//!
//! A net from which no place can be left out is called irredundant (Badouel, Bernardinello and Darondeau, *Petri Net
//! Synthesis*). It need not be the smallest.
#![tactic(auto)]

mod differing;
mod firsts;
mod pruning;
mod stops;

pub use pruning::{compact_all, prune, prune_with_firsts};
pub use rg_memory::NoMemory;

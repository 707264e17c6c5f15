//! All separation problems of a system, block by block.
//!
//! Places that separate all problems, kept one after the other, are the usual way to a net (Badouel, Bernardinello
//! and Darondeau, *Petri Net Synthesis*). The problems of a block are solved by parts that run in parallel, and their
//! outcomes are taken over in the order of the problems, so that the result is the same as if they were solved one
//! after the other. Before the parts begin, the first problem of a block is solved on the calling thread and its
//! place is kept, so that they know it. A part leaves a problem unsolved if a kept place separates it, or a place
//! that the part made; such a problem is solved in its turn, unless a kept place separates it by then. A place that
//! waits until it is taken over has neither its tokens nor its weights of 0.
#![tactic(auto)]

mod block;
mod keeping;
mod left;
mod search;
mod separation;
mod solving;
mod taking;

pub use block::{next_block, solve_block};
pub use keeping::Keeping;
pub use left::next_problem;
pub use rg_memory::NoMemory;
pub use search::{Progress, Search};
pub use separation::solve_all;
pub use solving::{ProblemOutcome, SolvedProblem, Solving, WaitingOutcome};
pub use taking::{solve_in_turn, take_over};

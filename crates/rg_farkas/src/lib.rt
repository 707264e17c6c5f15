//! Multipliers of a system's rows, spread over chords and the arcs of the spanning tree to a leaf of a
//! certificate.
//!
//! A system without a solution has positive multipliers of its rows that add up to a contradiction, by the lemma
//! of Farkas (Schrijver, *Theory of Linear and Integer Programming*). Its rows are written over the tokens of the
//! initial state and the free effects; here the arcs that this rested on get multipliers too, so that the rows
//! of the leaf add up to a contradiction with nothing left over.
#![tactic(auto)]

mod chords;
mod counts;
mod laws;
mod leaf;
mod listing;
mod multiplied;
mod parts;
mod rows;
mod sizes;
mod summed;
mod sums;
mod triples;

pub use laws::node_multipliers_refute;
pub use leaf::spread_in;
pub use triples::spread;

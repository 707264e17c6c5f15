//! Rows, places and leaves of separation problems, as computations that stop at their first step out of range.
//! Each function here has an empty body: its contract is a law.
//!
//! A place that separates is looked for among the regions, written by a number of the initial state and
//! the effects of the labels on a spanning tree (Badouel, Bernardinello and Darondeau, *Petri Net
//! Synthesis*).
#![tactic(auto)]

pub mod folds;
pub mod meaning;
pub mod rows;
pub mod shown;
pub mod spanning;

//! The place that a point of a case's system makes: a region of the class that separates the problem.
//!
//! A region is given by a number of the initial state and the effects of the labels, and a place that
//! separates by a region whose rows say so (Badouel, Bernardinello and Darondeau, *Petri Net Synthesis*).
#![tactic(auto)]

mod columns;
mod effects;
mod laws;
mod making;
mod numbers;
mod weights;
mod whole;

pub use laws::{place_is_region, points_make_places};
pub use making::make_place;

//! Places with their tokens at the states.

use rg_net::Place;

/// A place, and how many tokens it has at each state.
///
/// Of a region these are the numbers that the place gives to the states (Badouel, Bernardinello and
/// Darondeau, *Petri Net Synthesis*): they say which problems the place separates.
#[derive(Debug, Drop)]
pub struct RegionPlace {
    pub place: Place,
    /// One entry for each state, in order.
    pub tokens: Vec<u128>,
}

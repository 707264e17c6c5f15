//! Calls of the solver's crates on small systems that are worked by hand: rows and what counts in them, places, and
//! whole separations.
#![tactic(auto)]

#[cfg(test)]
mod asked;
#[cfg(test)]
mod bases;
#[cfg(test)]
mod calls;
#[cfg(test)]
mod expressions;
#[cfg(test)]
mod leaves;
#[cfg(test)]
mod places;
#[cfg(test)]
mod refusals;
#[cfg(test)]
mod rows;
#[cfg(test)]
mod same_systems;
#[cfg(test)]
mod separations;
#[cfg(test)]
mod shared_rows;

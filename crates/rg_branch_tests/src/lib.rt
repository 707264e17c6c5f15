//! Calls of `solve_whole` on small systems that are worked by hand, and branching written a second time, plainly.
#![tactic(auto)]

#[cfg(test)]
mod agreeing;
#[cfg(test)]
mod asking;
mod bounds;
#[cfg(test)]
mod plain;
#[cfg(test)]
mod random;
#[cfg(test)]
mod systems;
#[cfg(test)]
mod turning;
#[cfg(test)]
mod worked;

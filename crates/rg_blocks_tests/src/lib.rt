//! Tests of blocks of tasks, and of the loop over all problems with places and a solving of their own.
#![tactic(auto)]

#[cfg(test)]
mod answers;
#[cfg(test)]
mod meeting;
#[cfg(test)]
mod passes;
#[cfg(test)]
mod phases;
#[cfg(test)]
mod places;
#[cfg(test)]
mod refuted;
#[cfg(test)]
mod rows;

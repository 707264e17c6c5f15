//! Tests of the check of nets, of pruning, and of what places separate: systems, nets and rows of places worked by
//! hand, and a slow second check of nets.
#![tactic(auto)]

#[cfg(test)]
mod changed;
#[cfg(test)]
mod classes;
#[cfg(test)]
mod compact;
#[cfg(test)]
mod firing;
#[cfg(test)]
mod rows;
#[cfg(test)]
mod samples;
#[cfg(test)]
mod second;
#[cfg(test)]
mod separated;
#[cfg(test)]
mod tokens;

//! Tests of single calls of the crates of texts, in memory and on paper: what no clause says, with values from
//! outside, and that each call can succeed; the sizes of families.
#![tactic(auto)]

#[cfg(test)]
mod bytes;
#[cfg(test)]
mod family_counts;
#[cfg(test)]
mod name_lists;
#[cfg(test)]
mod net_items;
#[cfg(test)]
mod nets;
#[cfg(test)]
mod options;
#[cfg(test)]
mod samples;
#[cfg(test)]
mod systems;

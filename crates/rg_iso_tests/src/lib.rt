//! Tests of single calls: whether two systems are isomorphic, the flaws of a system, the counterexamples of
//! properties, and the report on it.
#![tactic(auto)]

#[cfg(test)]
mod comparisons;
#[cfg(test)]
mod counterexamples;
#[cfg(test)]
mod flaws;
#[cfg(test)]
mod reports;
#[cfg(test)]
mod samples;

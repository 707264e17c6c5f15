//! Tests of single calls: classes, the outside, walks and trees, certificates printed again.
#![tactic(auto)]

#[cfg(test)]
mod certificates;
#[cfg(test)]
mod classes;
#[cfg(test)]
mod outside;
#[cfg(test)]
mod trees;
#[cfg(test)]
mod walks;

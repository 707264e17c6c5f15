//! Tests of the words of the program, those that are taken and those that are refused, and of the lines of output that
//! no whole run shows; the others are in cases of whole runs.
#![tactic(auto)]

#[cfg(test)]
mod files;
#[cfg(test)]
mod refused;
#[cfg(test)]
mod samples;
#[cfg(test)]
mod taken;
#[cfg(test)]
mod trials;
#[cfg(test)]
mod words;

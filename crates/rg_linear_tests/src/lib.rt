//! Calls of the crates of numbers, rows, dictionaries, descents and cycle equations, worked by hand.
#![tactic(auto)]

#[cfg(test)]
mod cycles;
#[cfg(test)]
mod descents;
#[cfg(test)]
mod dictionaries;
#[cfg(test)]
mod fractions;
#[cfg(test)]
mod joined;
#[cfg(test)]
mod narrow;
#[cfg(test)]
mod plain;
#[cfg(test)]
mod revised;
#[cfg(test)]
mod walks;

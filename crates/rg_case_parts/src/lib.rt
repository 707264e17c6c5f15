//! The parts of a case's system: its setting, the rows of the chords, its columns, how often they count in what
//! the named rows of a certificate say, and rows of fractions brought to whole numbers.
//!
//! The terms of a row are tokens of states and effects of labels; here they are counted over the tokens of the
//! initial state and the effects of labels. A row of fractions says the same as its multiple by a common denominator,
//! whose numbers are whole (Schrijver, *Theory of Linear and Integer Programming*): the multiple is the least one,
//! and the first step in which a number is out of range is returned.
#![tactic(auto)]

mod chord_ends;
mod columns;
mod denominators;
mod label_counts;
mod scaled;
mod setting;
mod states;
mod term_counts;
mod tree_chords;

pub use chord_ends::ChordEnds;
pub use columns::{Columns, has_start, used_labels};
pub use denominators::{common_denominator, products, without_denominators};
pub use label_counts::counts;
pub use scaled::Scaled;
pub use setting::{CaseSetting, Setting};
pub use states::states_with;
pub use term_counts::{count, start};
pub use tree_chords::TreeChords;

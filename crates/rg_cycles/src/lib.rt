//! The equations that the cycles of a transition system impose on the effects of its labels, solved.
//!
//! A region gives each label an effect, and along each cycle the effects add up to 0 (Badouel, Bernardinello and
//! Darondeau, *Petri Net Synthesis*). `reduce` finds labels whose effects are free, and for each other label how its
//! effect follows from theirs.
#![tactic(auto)]

mod basis;
mod chord_entry;
mod chord_rows;
mod columns;
mod distinct;
mod reading;
mod relation;
mod relations;
mod solving;
mod stop;
mod substitution;
mod walk;
mod whole;
mod widen;

pub use basis::Basis;
pub use chord_entry::ChordEntry;
pub use chord_rows::ChordRows;
pub use relation::Relation;
pub use rg_fraction::FoldStop;
pub use solving::{reduce, reduce_rows};
pub use stop::{CycleWide, Stop};
pub use substitution::{FreeRow, dependent, substitute};
pub use whole::whole_sums;

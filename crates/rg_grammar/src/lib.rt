//! What the texts of systems and nets share: names, options, entries, lists of things, grammars as tables of
//! positions, and the loop that reads a text by such a grammar, or returns its first fault.
#![tactic(auto)]

mod fault;
mod list_position;
mod reading;
mod texts;

pub use fault::ItemFault;
pub use list_position::{ListPosition, ListStep, Setting, list_lead, list_wanted, setting_of};
pub use reading::{Reader, read};
pub use texts::{name_of, text_of, value_of};

//! Systems as texts in the format of APT, the tool for the analysis of Petri nets and transition systems.
//! A text is a list of items, in any order, each sort of them as often as one likes:
//!
//! - `.type` and a name, `LTS` or `TS`,
//! - `.states` and entries, each a name and optionally an option list,
//! - `.labels` and entries of the same shape,
//! - `.arcs` and triples, each three names, of the state that the arc leaves, of its label and of the state
//!   that it enters, and optionally an option list,
//! - any other word and a text in quotes, as `.name` or `.description`, which is passed over.
//!
//! An option list is `[`, options separated by commas, and `]`. An option is a name, or a name, `=` and a text
//! in quotes or a name. The state is initial whose list has `initial`, alone or with the value `true`. All
//! other options are passed over. States and labels are numbered from 0 in the order of their entries, and a
//! triple that is repeated is the same arc.
#![tactic(auto)]

mod building;
mod fault;
mod found;
mod laws;
mod position;
mod print;
mod whole;

pub use fault::TextFault;
pub use laws::{
    items_are_read, one_answer, plain_is_spelled, printed_is_spelled, spelled_is_well_formed,
};
pub use print::print_lts;
pub use rg_memory::NoMemory;
pub use whole::read_lts;

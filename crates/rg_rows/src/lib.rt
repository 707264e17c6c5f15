//! Separation problems as systems of linear rows.
//!
//! A region that separates a problem is a solution of linear inequalities over the tokens of states and the
//! effects of labels (Badouel, Bernardinello and Darondeau, *Petri Net Synthesis*). Here they are written over
//! the tokens of the initial state and the effects that the cycle equations leave free.
#![tactic(auto)]

mod case;
mod case_row;
mod common;
mod form_terms;
mod forms;
mod held_row;
mod kept;
mod kind;
mod named_case;
mod named_form;
mod named_system;
mod names;
mod problem_names;
mod rewriting;
mod row_numbers;
mod shared_part;
mod shared_rows;

pub use case::cases;
pub use common::Common;
pub use named_case::{NamedCase, system_with};
pub use named_form::NamedForm;
pub use named_system::{NamedSystem, system};

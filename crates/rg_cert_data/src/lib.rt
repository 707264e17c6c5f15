//! Certificates that a system has no net, in memory, and what their rows say.
//!
//! A separation problem is a system of linear inequalities over the tokens of states and the effects of labels
//! (Badouel, Bernardinello and Darondeau, *Petri Net Synthesis*). A certificate names them; here a name becomes a sum
//! of terms.
#![tactic(auto)]

mod certificate;
mod problem_case;
mod rows;
mod sum;
mod term;
mod wide_at;

pub use certificate::{Case, Certificate, Node, Reason};
pub use problem_case::ProblemCase;
pub use rg_theory::Problem;
pub use rows::expression;
pub use sum::Expression;
pub use term::Term;
pub use wide_at::{Stage, WideAt};

//! Tokens of the texts of systems and nets in the format of APT, the tool for the analysis of Petri nets and
//! transition systems. Between tokens there are blank bytes and comments: `//` up to the end of its line, or `/*` up
//! to the next `*/`.
#![tactic(auto)]

mod laws;
mod scan;
mod token;
mod whole;

pub use laws::{one_answer, spans};
pub use token::{Kind, LexFault, Token, Want};
pub use whole::tokens;

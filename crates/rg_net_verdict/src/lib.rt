//! The judge of nets: whether a net solves a system and is of a class, and if not, the first difference.
#![tactic(auto)]

mod check;
mod flow;
mod laws;
mod moves;
mod rows;
mod same;
mod verdict;
mod wrong;

pub use check::check_net;
pub use laws::{solving_net_gets_yes, verdict_is_one, verdict_is_sound};
pub use verdict::{CheckStop, CheckWide, NetNo, NetVerdict};

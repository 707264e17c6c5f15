//! Certificates judged.
#![tactic(auto)]

mod cases;
mod judging;
mod laws;
mod leaves;
mod opposites;
mod standing;
mod sums;
mod verdict;

pub use judging::verify;
pub use laws::one_verdict;
pub use rg_cert_meaning::Variable;
pub use rg_memory::NoMemory;
pub use rg_net_verdict::{CheckStop, CheckWide, NetNo, NetVerdict, check_net};
pub use verdict::{Defect, Verdict};

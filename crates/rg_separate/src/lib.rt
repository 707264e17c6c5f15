//! Places that separate all problems of a system, or why there are none.
#![tactic(auto)]

mod case;
mod dead;
mod kept;
mod place;
mod placing;
mod problem;
mod refusal;
mod refuting;
mod search;
mod separation;
mod shares;
mod sides;
mod solving;

pub use place::make_place;
pub use refusal::find_refusal;
pub use rg_cert_data::{Stage, WideAt};
pub use rg_memory::NoMemory;
pub use separation::{Separation, SeparationWithFirsts, separate, separate_with_firsts};

//! The one answer for a system and a class: a net whose reachability graph is the system, or why there is none.
//!
//! A net of the class exists exactly where every state is reachable, no label leads from a state to two, and regions
//! of the class separate all separation problems (Badouel, Bernardinello and Darondeau, *Petri Net Synthesis*).
#![tactic(auto)]

mod answer;
mod laws;
mod refusing;
mod synthesis;

pub use answer::Answer;
pub use laws::net_is_small;
pub use refusing::refuse;
pub use rg_cert_data::{Stage, WideAt};
pub use rg_memory::NoMemory;
pub use synthesis::synthesize;

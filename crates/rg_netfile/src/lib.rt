//! Net files.
#![tactic(auto)]

mod building;
mod fault;
mod filling;
mod flows;
mod known;
mod labelled;
mod labels;
mod laws;
mod names;
mod numbers;
mod prefix;
mod print;
mod sets;
mod slot;
mod sums;
mod whole;

pub use fault::NetFault;
pub use labelled::print_labelled;
pub use laws::{
    labelled_net_is_spelled, labelled_net_is_told, one_answer, printed_is_spelled,
    spelled_is_for_the_system,
};
pub use print::print_net;
pub use rg_memory::NoMemory;
pub use whole::read_net;

//! Place/transition nets.
#![tactic(auto)]

mod class_break;
mod firing;
mod laws;
mod net;
mod weights;

pub use class_break::{ClassBreak, in_class};
pub use firing::{FireStop, enabled, fire};
pub use laws::{net_is_told, prefix_is_free};
pub use net::{Net, Place};
pub use rg_memory::NoMemory;
pub use rg_theory::{Class, ClassFault, class_is_told, class_text};

//! Labelled transition systems in memory, and their builder.
#![tactic(auto)]

mod arc_set;
mod arcs_from;
mod builder;
mod fault;
mod lts;
mod name_list;
mod names;
mod naming;
mod slots;

pub use arc_set::MOST_ARCS;
pub use builder::{LtsBuilder, MOST_LABELS, MOST_STATES};
pub use fault::BuildFault;
pub use lts::Lts;
pub use name_list::NameList;
pub use naming::is_name;
pub use rg_theory::Arc;

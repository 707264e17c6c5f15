//! The lines of out and err.
#![tactic(auto)]

mod checked;
mod compared;
mod factored;
mod fault;
mod fault_words;
mod flaw;
mod full;
mod judged;
mod laws;
mod lost;
mod pieces;
mod trials;
mod usages;
mod wide;

pub use checked::{check_text, yes_text};
pub use compared::{comparison_has_names, same_text};
pub use factored::{factors_text, one_block_text, sizes_text, unsolvable_factor_text};
pub use fault::{Fault, FileFault, file_text};
pub use flaw::{file_flaw_text, flaw_text};
pub use full::full_text;
pub use judged::{accepted_text, defect_text, fault_text};
pub use laws::{loss_has_name, verdict_has_names};
pub use lost::{label_loss_text, state_loss_text};
pub use trials::{solved_text, unsolvable_text};
pub use usages::usage_text;
pub use wide::{WideCause, wide_text};

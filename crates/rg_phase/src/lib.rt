//! Tasks with numbers, done by parts that run in parallel. A part may keep something from number to number; what is
//! known of the answers doesn't depend on the parts.
#![tactic(auto)]

mod alone;
mod parts;
mod work;

pub use alone::block;
pub use parts::block_of_parts;
pub use rg_memory::NoMemory;
pub use work::{PartTask, Task};

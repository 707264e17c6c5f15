//! Systems of linear rows, decided exactly: a point that meets every row, multipliers that show that none
//! does, or the first term out of range.
//!
//! Each row in turn is made to hold by exchanges that keep the rows before it, and always the least
//! variable leaves, as in Bland's rule (Chvátal, *Linear Programming*). The multipliers are those of Farkas'
//! lemma (Schrijver, *Theory of Linear and Integer Programming*).
#![tactic(auto)]

mod descent;
mod dictionary;
mod relation_table;
mod row;
mod settled;
mod step;
mod table;

pub use dictionary::Dictionary;
pub use relation_table::RelationTable;
pub use rg_linear::{JoinedSystem, Row, System};
pub use rg_memory::NoMemory;
pub use settled::{PivotWide, Settled};
pub use table::ExchangeWide;

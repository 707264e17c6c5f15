//! Families of systems, each of them given by a number.
#![tactic(auto)]

ghost use Rattle.std.specs.Prelude.{◌≡◌, ◌↔◌, ◌≤◌, IsTrue, IfOk};
ghost use Rattle.rg_families.specs.Families.{IsFamilyNumber, IsOfFamily, greatest};

mod doubling;
mod grid;
mod laws;
mod lock;
mod named;

pub use doubling::MOST_DOUBLING;
pub use grid::MOST_GRID;
pub use laws::{arcs_are_counted, one_of_each, states_are_counted, systems_are_open};
pub use lock::MOST_LOCK;
use rg_lts::Lts;
use rg_memory::NoMemory;
use std::alloc::Global;

/// A family of systems.
#[derive(Clone, Copy, Debug, PartialEq, Eq)]
pub enum Kind {
    /// Two counters that count up to the number.
    Grid,
    /// Labels each of which has twice the effect of the one before it, so many doublings.
    Doubling,
    /// So many users of one lock.
    Lock,
}

/// Returns the greatest number of the family's systems: 63 for grids, 255 for doublings, 9 for locks.
pub fn greatest(kind: Kind) -> u32
    ensures { result ≡ greatest kind }
{
    match kind {
        Kind::Grid => MOST_GRID,
        Kind::Doubling => MOST_DOUBLING,
        Kind::Lock => MOST_LOCK,
    }
}

/// Returns whether the family has a system of this number: from 1 to its greatest number.
pub fn is_family_number(kind: Kind, n: u32) -> bool
    ensures { IsTrue result ↔ IsFamilyNumber kind n }
{
    1 <= n && n <= greatest(kind)
}

/// Returns the system of the family for a number for which `is_family_number` holds. Returns `NoMemory` if memory
/// runs out, and for no other reason.
pub fn generate(alloc: Global, kind: Kind, n: u32) -> Result<Lts, NoMemory>
    requires { IsFamilyNumber kind n }
    ensures { IfOk result (IsOfFamily kind n) }
{
    match kind {
        Kind::Grid => grid::grid(alloc, n),
        Kind::Doubling => doubling::doubling(alloc, n),
        Kind::Lock => lock::lock(alloc, n),
    }
}

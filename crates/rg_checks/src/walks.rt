//! How each state is reached.
ghost use Rattle.std.specs.Prelude.{IfOk};
ghost use Rattle.rg_checks.specs.Met.{AreSteps};

use crate::graph::{Graph, closure};
use rg_lts::Lts;
use rg_memory::NoMemory;
use std::alloc::Global;

/// The last arc of a walk: the state that it leaves, and its label.
#[derive(Clone, Copy, Debug, PartialEq, Eq)]
pub struct Step {
    pub before: u32,
    pub label: u32,
}

/// Returns how each state is reached from the initial one, one entry per state: None for the initial state and for
/// each state that can't be reached, else the last arc of a walk whose earlier arcs are the entries of the states
/// before. Returns `NoMemory` if the entries, or the states whose arcs aren't followed yet, don't fit into memory.
pub fn reach(alloc: Global, lts: &Lts) -> Result<Vec<Option<Step>>, NoMemory>
    ensures { IfOk result (λ steps. AreSteps lts.now steps.items) }
{
    let labels = vec![in alloc; true; lts.labels() as usize]?;
    closure(
        alloc,
        Graph {
            arcs: lts.arcs(),
            labels: &labels,
            states: lts.states(),
            initial: lts.initial(),
        },
    )
}

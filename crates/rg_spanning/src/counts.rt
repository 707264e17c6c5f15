//! How often each label occurs on the way to each state.
ghost use Rattle.std.specs.Prelude.{◌≡◌, length, IfOk};
ghost use Rattle.rg_theory.specs.System.{labels};
ghost use Rattle.rg_theory.specs.Tree.{IsTree};
ghost use Rattle.rg_spanning.specs.Growing.{IsGrowing};
ghost use Rattle.rg_spanning.specs.Tables.{HasRows};

use crate::growth::Growth;
use crate::table::Table;
use rg_lts::Lts;
use std::alloc::{AllocError, Global};

// The rows of the states, for a tree that is complete.
pub(crate) fn count_rows(alloc: Global, lts: &Lts, growth: &Growth) -> Result<Table, AllocError>
    requires growing { IsGrowing lts.now growth.now.order.items growth.now.arcs.items growth.now.entries.items }
    requires tree { IsTree lts.now growth.now.arcs.items }
    ensures one_each { IfOk result (λ rows. length rows ≡ length growth.now.entries.items) }
    ensures rows { IfOk result (HasRows (labels lts.now) growth.now.arcs.items growth.now.order.items) }
{
    let mut counts = Table::zeros(alloc, lts.states(), lts.labels())?;
    for a in &growth.arcs {
        counts.copy_row(a.from, a.to);
        counts.add_one(a.to, a.label);
    }
    Ok(counts)
}

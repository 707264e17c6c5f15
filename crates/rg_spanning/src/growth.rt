//! Growing the tree breadth first.
ghost use Rattle.std.specs.Prelude.{◌≡◌, ◌↔◌, ℕ, ◌+◌, ◌<◌, ◌≤◌, IsTrue, [], ◌∷◌, ◌++◌, length, AllPairs, Contains, IfOk, OnOk, IfSome, IfNone, slice_index_or};
ghost use Rattle.rg_theory.specs.declared.Arc.{Arc};
ghost use Rattle.rg_theory.specs.System.{states, IsArcBefore};
ghost use Rattle.rg_theory.specs.Tree.{Joins, IsTree};
ghost use Rattle.rg_spanning.specs.Growing.{IsGrowing, IsSettled};

use rg_lts::Lts;
use rg_theory::Arc;
use std::alloc::{AllocError, Global};

/// The states met so far in their order, the arcs that joined, and the arc that entered each state.
#[derive(Drop)]
pub(crate) struct Growth {
    pub(crate) order: Vec<u32>,
    pub(crate) arcs: Vec<Arc>,
    pub(crate) entries: Vec<Option<Arc>>,
}

// The whole tree of the system.
pub(crate) fn grow_tree(alloc: Global, lts: &Lts) -> Result<Growth, AllocError>
    ensures growing { IfOk result (λ g. IsGrowing lts.now g.order.items g.arcs.items g.entries.items) }
    ensures tree { IfOk result (λ g. IsTree lts.now g.arcs.items) }
{
    let mut growth = root_tree(alloc, lts)?;
    let mut index = 0;
    while index < growth.order.len() {
        join_arcs_of(lts, &mut growth, index)?;
        index += 1;
    }
    Ok(growth)
}

// The tree of the initial state alone.
fn root_tree(alloc: Global, lts: &Lts) -> Result<Growth, AllocError>
    ensures { IfOk result (λ g. IsGrowing lts.now g.order.items g.arcs.items g.entries.items) }
{
    let mut order = Vec::new(alloc);
    order.push(lts.initial())?;
    let entries = vec![in alloc; None; lts.states() as usize]?;
    Ok(Growth {
        order,
        arcs: Vec::new(alloc),
        entries,
    })
}

// Adds the arcs that join from the state at this index.
fn join_arcs_of(lts: &Lts, growth: &mut Growth, index: usize) -> Result<(), AllocError>
    requires growing { IsGrowing lts.now growth.old.order.items growth.old.arcs.items growth.old.entries.items }
    requires settled { IsSettled lts.now growth.old.order.items index }
    requires within { index < length growth.old.order.items }
    ensures growing { OnOk result (IsGrowing lts.now growth.new.order.items growth.new.arcs.items growth.new.entries.items) }
    ensures settled { OnOk result (IsSettled lts.now growth.new.order.items (index + 1)) }
    ensures within { OnOk result (index < length growth.new.order.items) }
{
    let s = growth.order[index];
    for a in lts.arcs_from(s) {
        if !is_met(lts, growth, a.to) {
            join(lts, growth, *a)?;
        }
    }
    Ok(())
}

// Whether the state is met.
pub(crate) fn is_met(lts: &Lts, growth: &Growth, s: u32) -> bool
    requires growing { IsGrowing lts.now growth.now.order.items growth.now.arcs.items growth.now.entries.items }
    requires state { s < states lts.now }
    ensures { IsTrue result ↔ Contains growth.now.order.items s }
{
    s == lts.initial() || growth.entries[s as usize].is_some()
}

// The least state that isn't met; None where all are met.
pub(crate) fn first_unmet(lts: &Lts, growth: &Growth) -> Option<u32>
    requires { IsGrowing lts.now growth.now.order.items growth.now.arcs.items growth.now.entries.items }
    ensures state { IfSome result (λ s. s < states lts.now) }
    ensures unmet { IfSome result (λ s. ¬ Contains growth.now.order.items s) }
    ensures least { IfSome result (λ s. (r : ℕ) → r < s → Contains growth.now.order.items r) }
    ensures none { IfNone result ((s : ℕ) → s < states lts.now → Contains growth.now.order.items s) }
{
    for s in 0..lts.states() {
        if !is_met(lts, growth, s) {
            return Some(s);
        }
    }
    None
}

// Adds an arc that joins.
fn join(lts: &Lts, growth: &mut Growth, a: Arc) -> Result<(), AllocError>
    requires growing { IsGrowing lts.now growth.old.order.items growth.old.arcs.items growth.old.entries.items }
    requires joins { Joins lts.now growth.old.order.items a }
    ensures growing { OnOk result (IsGrowing lts.now growth.new.order.items growth.new.arcs.items growth.new.entries.items) }
    ensures order { OnOk result (growth.new.order.items ≡ growth.old.order.items ++ a.to ∷ []) }
{
    growth.order.push(a.to)?;
    growth.arcs.push(a)?;
    growth.entries[a.to as usize] = Some(a);
    Ok(())
}

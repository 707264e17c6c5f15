//! The arcs that aren't in the tree.
ghost use Rattle.std.specs.Prelude.{◌≡◌, ◌<◌, IfOk};
ghost use Rattle.rg_theory.specs.System.{states};
ghost use Rattle.rg_theory.specs.Tree.{chords, is_among};
ghost use Rattle.rg_spanning.specs.Growing.{IsGrowing};

use crate::growth::Growth;
use rg_lts::Lts;
use rg_theory::Arc;
use std::alloc::{AllocError, Global};

// The arcs that are not in the tree.
pub(crate) fn beside(alloc: Global, lts: &Lts, growth: &Growth) -> Result<Vec<Arc>, AllocError>
    requires { IsGrowing lts.now growth.now.order.items growth.now.arcs.items growth.now.entries.items }
    ensures { IfOk result (λ v. v.items ≡ chords lts.now growth.now.arcs.items) }
{
    let mut beside = Vec::new(alloc);
    for a in lts.arcs() {
        if !is_in_tree(lts, growth, a) {
            beside.push(*a)?;
        }
    }
    Ok(beside)
}

// Whether the arc is in the tree, which is where it entered its target.
fn is_in_tree(lts: &Lts, growth: &Growth, a: &Arc) -> bool
    requires growing { IsGrowing lts.now growth.now.order.items growth.now.arcs.items growth.now.entries.items }
    requires state { a.now.to < states lts.now }
    ensures { result ≡ is_among growth.now.arcs.items a.now }
{
    match growth.entries[a.to as usize] {
        Some(b) => b == *a,
        None => false,
    }
}

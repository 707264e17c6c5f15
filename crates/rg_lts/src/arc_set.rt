//! The arcs of a system that is being built.
ghost use Rattle.std.specs.Prelude.{◌≡◌, ◌↔◌, ◌⊎◌, ◌≤◌, length, AllPairs, Contains, IfOk, IfErr, OnOk, OnErr, IsErrOf};
ghost use Rattle.rg_theory.specs.declared.Arc.{Arc};
ghost use Rattle.rg_theory.specs.System.{IsArcBefore};
ghost use Rattle.rg_theory.specs.Limits.{most_arcs};
ghost use Rattle.rg_lts.specs.declared.fault.BuildFault.TheVariants as fault;

use crate::fault::BuildFault;
use rg_theory::Arc;
use std::alloc::{AllocError, Global};
use std::collections::BTreeSet;

/// The most arcs of a system.
pub const MOST_ARCS: usize = 262_144;

// Adds the arc, if it isn't there.
pub(crate) fn add(arcs: &mut BTreeSet<Arc>, arc: Arc) -> Result<(), BuildFault>
    requires { length arcs.old.keys ≤ most_arcs }
    ensures members { OnOk result ((b : Arc) → Contains arcs.new.keys b ↔ (Contains arcs.old.keys b ⊎ (b ≡ arc))) }
    ensures order { OnOk result (AllPairs IsArcBefore arcs.new.keys) }
    ensures few { OnOk result (length arcs.new.keys ≤ most_arcs) }
    ensures too_many { IsErrOf result fault.TooManyArcs ↔ ((¬ Contains arcs.old.keys arc) × (most_arcs ≤ length arcs.old.keys)) }
    ensures cause { IfErr result (λ e. (e ≡ fault.TooManyArcs) ⊎ (e ≡ fault.NoMemory)) }
    ensures err { OnErr result (arcs.new.keys ≡ arcs.old.keys) }
{
    if arcs.len() >= MOST_ARCS && !arcs.contains(&arc) {
        return Err(BuildFault::TooManyArcs);
    }
    arcs.insert(arc)?;
    Ok(())
}

// The arcs in order.
pub(crate) fn list_arcs(alloc: Global, arcs: &BTreeSet<Arc>) -> Result<Vec<Arc>, AllocError>
    ensures { IfOk result (λ v. v.items ≡ arcs.now.keys) }
{
    arcs.iter().copied().collect(alloc)
}

//! Names that were seen.
ghost use Rattle.std.specs.Prelude.{◌≡◌, ℕ, true, not, if◌then◌else◌, List, IfOk, IfErr, OnOk};
ghost use Rattle.std.specs.BTreeSet.{contains_text};
ghost use Rattle.std.specs.Str.{bytes_eq};
ghost use Rattle.rg_netfile.specs.declared.fault.NetFault.TheVariants as fault;

use crate::fault::NetFault;
use std::alloc::Global;
use std::collections::BTreeSet;

// Adds a name to those that are seen, and returns whether it is new.
pub(crate) fn see(alloc: Global, seen: &mut BTreeSet<String>, name: &str) -> Result<bool, NetFault>
    ensures new { IfOk result (λ new. new ≡ not (contains_text seen.old name.now)) }
    ensures seen { OnOk result ((other : List ℕ) → contains_text seen.new other ≡ (if bytes_eq name.now other then true else contains_text seen.old other)) }
    ensures cause { IfErr result (λ e. e ≡ fault.NoMemory) }
{
    let owned = String::from_str(alloc, name)?;
    let new = seen.insert(owned)?;
    Ok(new)
}

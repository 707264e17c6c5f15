//! The first problem that no region separates, where some places are known.
ghost use Rattle.std.specs.Prelude.{◌≤◌, All, IfOk, IfSome, IfNone};
ghost use Rattle.rg_theory.specs.System.{IsAllReachable};
ghost use Rattle.rg_separate.specs.Keeping.{IsKept};
ghost use Rattle.rg_separate.specs.Refusals.{IsRefusedBy, IsNotRefused};

use crate::search::{Resources, search_from};
use crate::separation::SeparationWithFirsts;
use rg_cert_data::Certificate;
use rg_lts::Lts;
use rg_marks::CompactPlace;
use rg_memory::NoMemory;
use rg_ports::Gate;
use rg_theory::ALL_NETS;
use std::alloc::Global;
use std::thread::Threads;

/// Looks for the first separation problem that no region of the system separates, where these regions are known. All
/// states of the system are reachable. Returns the certificate that `separate` returns for the class of all nets, and
/// the regions that are known then. Returns None if that search isn't `Unsolvable`. Known regions change how many
/// problems are solved, and nothing else (`refusal_is_one`). Returns `NoMemory` if memory runs out.
pub fn find_refusal<R: Threads + Sync, G: Gate + Sync>(
    rt: &R,
    alloc: Global,
    lts: &Lts,
    jobs: u8,
    gate: &G,
    known: &[CompactPlace],
) -> Result<Option<(Certificate, Vec<CompactPlace>)>, NoMemory>
    requires reachable { IsAllReachable lts.now }
    requires some { 1 ≤ jobs }
    requires known { All (IsKept lts.now) known.now }
    ensures refused { IfOk result (λ r. IfSome r (λ p. IsRefusedBy lts.now p.0 p.1.items)) }
    ensures not_refused { IfOk result (λ r. IfNone r (IsNotRefused lts.now)) }
{
    lts.is_well_formed();
    match search_from(rt, Resources { alloc, jobs, gate }, lts, ALL_NETS, known)? {
        SeparationWithFirsts::Unsolvable(certificate, places) => Ok(Some((certificate, places))),
        SeparationWithFirsts::Places(_, _) => Ok(None),
        SeparationWithFirsts::TooWide(_) => Ok(None),
    }
}

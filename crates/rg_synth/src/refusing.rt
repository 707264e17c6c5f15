//! Why no net has a system, where some regions are known.
ghost use Rattle.std.specs.Prelude.{◌≤◌, All, IfOk, IfSome, IfNone};
ghost use Rattle.rg_separate.specs.Keeping.{IsKept};
ghost use Rattle.rg_synth.specs.Answer.{IsRightRefusal, IsUnrefused};

use crate::synthesis::flaw_certificate;
use rg_cert_data::Certificate;
use rg_checks::first_flaw;
use rg_lts::Lts;
use rg_marks::CompactPlace;
use rg_memory::NoMemory;
use rg_ports::Gate;
use rg_separate::find_refusal;
use rg_theory::ALL_NETS;
use std::alloc::Global;
use std::thread::Threads;

/// Returns the certificate that no net has the system as its reachability graph, if that is the answer of
/// `synthesize` for the class of all nets, with regions of the system: if there is no flaw, those that are known and
/// those that were found. Returns None if the answer is another one. Known regions save work and change nothing else. Returns `NoMemory` if
/// memory runs out.
pub fn refuse<R: Threads + Sync, G: Gate + Sync>(
    rt: &R,
    alloc: Global,
    lts: &Lts,
    jobs: u8,
    gate: &G,
    known: &[CompactPlace],
) -> Result<Option<(Certificate, Vec<CompactPlace>)>, NoMemory>
    requires some { 1 ≤ jobs }
    requires known { All (IsKept lts.now) known.now }
    ensures refused { IfOk result (λ r. IfSome r (λ p. IsRightRefusal lts.now p.0 p.1.items)) }
    ensures not_refused { IfOk result (λ r. IfNone r (IsUnrefused lts.now)) }
{
    lts.is_well_formed();
    match first_flaw(alloc, lts)? {
        None => find_refusal(rt, alloc, lts, jobs, gate, known),
        Some(flaw) => {
            let certificate = flaw_certificate(lts, ALL_NETS, flaw);
            Ok(Some((certificate, Vec::new(alloc))))
        }
    }
}

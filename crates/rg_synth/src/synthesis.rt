//! The order of work on a system.
ghost use Rattle.std.specs.Prelude.{◌≡◌, ◌≤◌, All, IfOk};
ghost use Rattle.rg_theory.specs.System.{labels, IsAllReachable};
ghost use Rattle.rg_theory.specs.ClassWords.{HasNumbersInRange};
ghost use Rattle.rg_checks.specs.Flaws.{IsFlawless, IsFirstFlaw, IsShown};
ghost use Rattle.rg_theory.specs.Problem.{SeparateAll};
ghost use Rattle.rg_net.specs.Range.{IsNetInRange};
ghost use Rattle.rg_theory.specs.Pruned.{IsPruned};
ghost use Rattle.rg_marks.specs.Firsts.{AreAllFirsts};
ghost use Rattle.rg_marks.specs.Tokens.{IsNarrow};
ghost use Rattle.rg_case_folds.specs.Shown.{ShownWide};
ghost use Rattle.rg_cert_data.specs.Certificates.{reason_of};
ghost use Rattle.rg_outcome.specs.Outcome.{Out, Answer.unsolvable as of_reason};
ghost use Rattle.rg_separate.specs.View.{shown_of};
ghost use Rattle.rg_synth.specs.Answer.{answer_of, IsSolvingNet, IsRightCertificate, IfNet, IfUnsolvable, IfTooWide};

use crate::answer::Answer;
use rg_cert_data::{Certificate, Reason};
use rg_checks::{Flaw, first_flaw};
use rg_lts::Lts;
use rg_marks::{CompactPlace, Firsts};
use rg_memory::NoMemory;
use rg_net::Net;
use rg_ports::Gate;
use rg_prune::prune_with_firsts;
use rg_separate::{SeparationWithFirsts, separate_with_firsts};
use rg_theory::Class;
use std::alloc::Global;
use std::thread::Threads;

/// Returns the answer for the system and the class: a net of the class whose reachability graph is the system, or a
/// certificate that no net of the class has it (Badouel, Bernardinello and Darondeau, *Petri Net Synthesis*).
///
/// The least unreachable state is the first reason, if there is one; then the first fork; and then the first
/// separation problem that no region of the class separates. If there is none of these, the regions that were found
/// make the net, but for those that the others make superfluous: no place of the net can be left out. Returns
/// `TooWide` if a number of the work on the problems is out of range and no answer was found without it, and
/// `NoMemory` if memory runs out.
///
/// There is one answer for a system and a class, for any number of jobs and any gate (`out`, with `outcome_is_one`).
/// The problems are solved on at most `jobs` threads.
pub fn synthesize<R: Threads + Sync, G: Gate + Sync>(
    rt: &R,
    alloc: Global,
    lts: &Lts,
    class: Class,
    jobs: u8,
    gate: &G,
) -> Result<Answer, NoMemory>
    requires bound { HasNumbersInRange class }
    requires some { 1 ≤ jobs }
    ensures out { IfOk result (λ a. Out lts.now class (answer_of a)) }
    ensures net { IfOk result (λ a. IfNet a (IsSolvingNet lts.now class)) }
    ensures unsolvable { IfOk result (λ a. IfUnsolvable a (IsRightCertificate lts.now class)) }
    ensures too_wide { IfOk result (λ a. IfTooWide a (λ w. IsFlawless lts.now × ShownWide lts.now class (shown_of w))) }
{
    match first_flaw(alloc, lts)? {
        None => flawless_answer(rt, alloc, lts, class, jobs, gate),
        Some(flaw) => Ok(Answer::Unsolvable(flaw_certificate(lts, class, flaw))),
    }
}

// The certificate that no net has the system with this flaw, the first.
pub(crate) fn flaw_certificate(lts: &Lts, class: Class, flaw: Flaw) -> Certificate
    requires first { IsFirstFlaw lts.now flaw }
    requires shown { IsShown lts.now flaw }
    requires bound { HasNumbersInRange class }
    ensures out { Out lts.now class (of_reason (reason_of result.reason)) }
    ensures right { IsRightCertificate lts.now class result }
{
    lts.is_well_formed();
    let reason = match flaw {
        Flaw::Unreachable(s) => Reason::Unreachable(s),
        Flaw::Fork(fork) => Reason::Fork(fork.from, fork.label, fork.to, fork.other),
    };
    Certificate { class, reason }
}

// The answer for a system without an unreachable state or a fork.
fn flawless_answer<R: Threads + Sync, G: Gate + Sync>(
    rt: &R,
    alloc: Global,
    lts: &Lts,
    class: Class,
    jobs: u8,
    gate: &G,
) -> Result<Answer, NoMemory>
    requires flawless { IsFlawless lts.now }
    requires bound { HasNumbersInRange class }
    requires some { 1 ≤ jobs }
    ensures out { IfOk result (λ a. Out lts.now class (answer_of a)) }
    ensures net { IfOk result (λ a. IfNet a (IsSolvingNet lts.now class)) }
    ensures unsolvable { IfOk result (λ a. IfUnsolvable a (IsRightCertificate lts.now class)) }
    ensures too_wide { IfOk result (λ a. IfTooWide a (λ w. IsFlawless lts.now × ShownWide lts.now class (shown_of w))) }
{
    lts.is_well_formed();
    match separate_with_firsts(rt, alloc, lts, class, jobs, gate)? {
        SeparationWithFirsts::Places(places, firsts) => {
            let net = net_of_those_needed(alloc, lts, places, firsts)?;
            Ok(Answer::Net(net))
        }
        SeparationWithFirsts::Unsolvable(cert, _) => Ok(Answer::Unsolvable(cert)),
        SeparationWithFirsts::TooWide(at) => Ok(Answer::TooWide(at)),
    }
}

// The net of those places of which none can be left out, given with the problems that each is the first to separate.
fn net_of_those_needed(
    alloc: Global,
    lts: &Lts,
    places: Vec<CompactPlace>,
    firsts: Vec<Firsts>,
) -> Result<Net, NoMemory>
    requires reachable { IsAllReachable lts.now }
    requires narrow { All (IsNarrow lts.now) places.items }
    requires separate { SeparateAll places.items lts.now }
    requires firsts { AreAllFirsts lts.now places.items firsts.items }
    requires in_range { IsNetInRange (record { labels = labels lts.now; places = places.items }) }
    ensures labels { IfOk result (λ net. net.labels ≡ labels lts.now) }
    ensures in_range { IfOk result IsNetInRange }
    ensures pruned { IfOk result (λ net. IsPruned lts.now places.items net.places) }
{
    let labels = lts.labels();
    let needed = prune_with_firsts(alloc, lts, places, firsts)?;
    Ok(Net::new(labels, needed))
}

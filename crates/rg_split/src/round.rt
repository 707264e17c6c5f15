//! One round: the system with one label more.
ghost use Rattle.std.specs.Prelude.{◌≡◌, ◌<◌, ◌≤◌, ◌++◌, ◌∷◌, [], ℕ, List, map, length, All, IfOk};
ghost use Rattle.std.specs.List.{range_with_len};
ghost use Rattle.rg_theory.specs.declared.Arc.{Arc};
ghost use Rattle.rg_theory.specs.System.{labels};
ghost use Rattle.rg_theory.specs.Limits.{most_labels};
ghost use Rattle.rg_theory.specs.ClassWords.{no_condition};
ghost use Rattle.rg_lts.specs.WellFormed.{IsWellFormed};
ghost use Rattle.rg_cert_data.specs.Certificates.{reason_of, HasWholeCases};
ghost use Rattle.rg_outcome.specs.Outcome.{Out, Answer.unsolvable as of_reason};
ghost use Rattle.rg_separate.specs.Keeping.{IsKept};
ghost use Rattle.rg_synth.specs.Answer.{IsRightCertificate, IsUnrefused};
ghost use Rattle.rg_split.specs.Round.{IsToldApart};
ghost use Rattle.rg_split.specs.Rounds.{itself, IsNext, HasLabel, SplitsTo};
ghost use Rattle.rg_split.specs.Answer.{labelling_of, IfEnds, IfGoesOn, EndsRound, LeadsTo, LeadsOn};

use crate::building::{label_names, with_labels};
use crate::lifting::lift;
use crate::name::new_name;
use crate::relabelling::relabelling_of;
use crate::splitting::Splitting;
use rg_cert_data::{Certificate, Reason};
use rg_lts::{Lts, MOST_LABELS};
use rg_marks::CompactPlace;
use rg_memory::NoMemory;
use rg_ports::Gate;
use rg_synth::{Answer, refuse, synthesize};
use rg_theory::{ALL_NETS, Arc};
use std::alloc::Global;
use std::thread::Threads;

// A system, for each of its labels the label of the file's system that it comes from, and regions of the system that
// are known.
#[derive(Drop)]
pub(crate) struct Labelling {
    pub(crate) system: Lts,
    pub(crate) old: Vec<u32>,
    pub(crate) known: Vec<CompactPlace>,
}

// What a round comes to.
#[derive(Drop)]
pub(crate) enum Round {
    Ends(Splitting),
    GoesOn(Labelling),
}

// The file's system, each label of which comes from itself.
pub(crate) fn first_labelling(alloc: Global, lts: &Lts) -> Result<Labelling, NoMemory>
    ensures itself { IfOk result (λ n. labelling_of n ≡ itself lts.now) }
    ensures known { IfOk result (λ n. All (IsKept n.system) n.known.items) }
{
    lts.is_well_formed();
    let names = label_names(alloc, lts)?;
    let labels = labels_of(alloc, lts.arcs())?;
    let system = with_labels(alloc, lts, &names, &labels)?;
    let old = numbers_below(alloc, lts.labels())?;
    let known = Vec::new(alloc);
    Ok(Labelling { system, old, known })
}

// The labels of the arcs.
fn labels_of(alloc: Global, arcs: &[Arc]) -> Result<Vec<u32>, NoMemory>
    ensures { IfOk result (λ v. v.items ≡ map (λ a. a.label) arcs.now) }
{
    let mut labels = Vec::new(alloc);
    for a in arcs {
        labels.push(a.label)?;
    }
    Ok(labels)
}

// The numbers below this one.
fn numbers_below(alloc: Global, count: u32) -> Result<Vec<u32>, NoMemory>
    ensures { IfOk result (λ v. v.items ≡ range_with_len 0 count) }
{
    let mut numbers = Vec::new(alloc);
    for n in 0..count {
        numbers.push(n)?;
    }
    Ok(numbers)
}

// One round from this labelling on.
pub(crate) fn take_round<R: Threads + Sync, G: Gate + Sync>(
    rt: &R,
    alloc: Global,
    lts: &Lts,
    now: Labelling,
    jobs: u8,
    gate: &G,
) -> Result<Round, NoMemory>
    requires some { 1 ≤ jobs }
    requires apart { IsToldApart lts.now (labelling_of now) }
    requires known { All (IsKept now.system) now.known.items }
    ensures ends { IfOk result (λ r. IfEnds r (EndsRound lts.now (labelling_of now))) }
    ensures goes_on { IfOk result (λ r. IfGoesOn r (λ n. LeadsTo lts.now (labelling_of now) (labelling_of n))) }
    ensures known { IfOk result (λ r. IfGoesOn r (λ n. All (IsKept n.system) n.known.items)) }
{
    match refuse(rt, alloc, &now.system, jobs, gate, &now.known)? {
        Some((certificate, known)) => {
            let now = Labelling {
                system: now.system,
                old: now.old,
                known,
            };
            after_refusal(alloc, lts, now, certificate)
        }
        None => last_round(rt, alloc, lts, now, jobs, gate),
    }
}

// The round in which the answer is no reason.
fn last_round<R: Threads + Sync, G: Gate + Sync>(
    rt: &R,
    alloc: Global,
    lts: &Lts,
    now: Labelling,
    jobs: u8,
    gate: &G,
) -> Result<Round, NoMemory>
    requires some { 1 ≤ jobs }
    requires apart { IsToldApart lts.now (labelling_of now) }
    requires unrefused { IsUnrefused now.system }
    ensures ends { IfOk result (λ r. IfEnds r (EndsRound lts.now (labelling_of now))) }
    ensures ended { IfOk result (λ r. IfGoesOn r (λ n. ⊥)) }
{
    match synthesize(rt, alloc, &now.system, ALL_NETS, jobs, gate)? {
        Answer::Net(net) => Ok(Round::Ends(Splitting::Done {
            system: now.system,
            old: now.old,
            net,
        })),
        Answer::TooWide(at) => Ok(Round::Ends(Splitting::TooWide {
            system: now.system,
            old: now.old,
            at,
        })),
        Answer::Unsolvable(_) => unreachable!(),
    }
}

// What a round comes to in which no net was found.
fn after_refusal(
    alloc: Global,
    lts: &Lts,
    now: Labelling,
    certificate: Certificate,
) -> Result<Round, NoMemory>
    requires apart { IsToldApart lts.now (labelling_of now) }
    requires known { All (IsKept now.system) now.known.items }
    requires answer { Out now.system no_condition (of_reason (reason_of certificate.reason)) }
    requires right { IsRightCertificate now.system no_condition certificate }
    ensures ends { IfOk result (λ r. IfEnds r (EndsRound lts.now (labelling_of now))) }
    ensures goes_on { IfOk result (λ r. IfGoesOn r (λ n. LeadsTo lts.now (labelling_of now) (labelling_of n))) }
    ensures known { IfOk result (λ r. IfGoesOn r (λ n. All (IsKept n.system) n.known.items)) }
{
    lts.is_well_formed();
    if let Reason::Unreachable(s) = &certificate.reason {
        return Ok(Round::Ends(Splitting::Unreachable(*s)));
    }
    if now.system.labels() as usize == MOST_LABELS {
        return Ok(Round::Ends(Splitting::Full {
            system: now.system,
            old: now.old,
            certificate,
        }));
    }
    Ok(Round::GoesOn(next(alloc, lts, &now, &certificate.reason)?))
}

// The labelling after this one.
fn next(alloc: Global, lts: &Lts, now: &Labelling, reason: &Reason) -> Result<Labelling, NoMemory>
    requires apart { IsToldApart lts.now (labelling_of now.now) }
    requires answer { Out now.now.system no_condition (of_reason (reason_of reason.now)) }
    requires whole { HasWholeCases reason.now }
    requires has_label { HasLabel (reason_of reason.now) }
    requires room { labels now.now.system < most_labels }
    requires known { All (IsKept now.now.system) now.now.known.items }
    ensures { IfOk result (LeadsOn lts.now (reason_of reason.now) now.now) }
{
    lts.is_well_formed();
    now.system.is_well_formed();
    let relabelling = relabelling_of(alloc, &now.system, reason)?;
    let first = now.old[relabelling.label as usize];
    let name = new_name(alloc, &now.system, lts.label_name(first))?;
    let mut names = label_names(alloc, &now.system)?;
    names.push(name.as_str())?;
    let system = with_labels(alloc, &now.system, &names, &relabelling.labels)?;
    let mut old = Vec::new(alloc);
    old.extend_from_slice(&now.old)?;
    old.push(first)?;
    let known = lift(alloc, &now.known, relabelling.label)?;
    Ok(Labelling { system, old, known })
}

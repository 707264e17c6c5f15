//! A second judge of nets, slow and plain: it fires every way by single firings.
ghost use Rattle.std.specs.Prelude.{◌<◌, ◌≤◌, IsTrue, All};
ghost use Rattle.rg_integers.specs.Range.{greatest};

use crate::classes::fit;
use rg_integers::GREATEST;
use rg_lts::{Arc, Lts};
use rg_net::{Class, FireStop, Net, enabled, fire, in_class};
use rg_net_verdict::{NetNo, NetVerdict};
use std::alloc::{AllocError, AllocFailed, Global};

/// What the second judge says: a verdict, or the state that is entered and the place on which a firing passes.
#[derive(Clone, Copy, Debug, PartialEq, Eq)]
pub(crate) enum Told {
    Verdict(NetVerdict),
    Passes(u32, u32),
}

// Why the judge ends before the last test: it has an answer, or it can't go on.
#[derive(Clone, Copy, Debug, PartialEq, Eq)]
enum Ended {
    Told(Told),
    Stuck,
}

impl From<AllocError> for Ended {
    fn from(_: AllocError) -> Ended {
        Ended::Stuck
    }
}

impl<T: Drop> From<AllocFailed<T>> for Ended {
    fn from(_: AllocFailed<T>) -> Ended {
        Ended::Stuck
    }
}

// What comes of a label at a marking.
#[derive(Drop)]
enum Outcome {
    Stopped,
    Passes(u32),
    To(Vec<u128>),
}

// The second judge is for small systems.
const MOST_MARKINGS: usize = 4096;

// A state that was met, and its marking.
#[derive(Drop)]
struct Met {
    state: u32,
    marking: Vec<u128>,
}

/// Returns the verdict on the net, by single firings; None if memory runs out.
pub(crate) fn second_verdict(alloc: Global, lts: &Lts, net: &Net, class: Class) -> Option<Told> {
    match judge(alloc, lts, net, class) {
        Ok(()) => Some(Told::Verdict(NetVerdict::Yes)),
        Err(Ended::Told(told)) => Some(told),
        Err(Ended::Stuck) => None,
    }
}

fn no(no: NetNo) -> Ended {
    Ended::Told(Told::Verdict(NetVerdict::No(no)))
}

fn judge(alloc: Global, lts: &Lts, net: &Net, class: Class) -> Result<(), Ended> {
    all_reached(alloc, lts)?;
    fork(lts)?;
    let met = all_met(alloc, lts, net)?;
    same(lts, &met)?;
    wrong(alloc, lts, net, &met)?;
    of_class(alloc, lts, net, &met, class)
}

// Ends at the first state that can't be reached.
fn all_reached(alloc: Global, lts: &Lts) -> Result<(), Ended> {
    let reached = reach_states(alloc, lts)?;
    for s in 0..lts.states() {
        if !reached.contains(&s) {
            return Err(no(NetNo::Unreachable(s)));
        }
    }
    Ok(())
}

// The states that can be reached.
fn reach_states(alloc: Global, lts: &Lts) -> Result<Vec<u32>, AllocError> {
    let mut seen = Vec::new(alloc);
    seen.push(lts.initial())?;
    for _ in 0..lts.states() {
        spread_once(lts, &mut seen)?;
    }
    Ok(seen)
}

// Adds the targets of the arcs from states that were seen.
fn spread_once(lts: &Lts, seen: &mut Vec<u32>) -> Result<(), AllocError> {
    for a in lts.arcs() {
        if seen.contains(&a.from) && !seen.contains(&a.to) {
            seen.push(a.to)?;
        }
    }
    Ok(())
}

// Ends at the first two arcs that lead by one label from one state to two.
fn fork(lts: &Lts) -> Result<(), Ended> {
    for a in lts.arcs() {
        for b in lts.arcs() {
            if a.from == b.from && a.label == b.label && a.to < b.to {
                return Err(no(NetNo::Fork(a.from, a.label, a.to, b.to)));
            }
        }
    }
    Ok(())
}

// The start of each place.
fn start_of(alloc: Global, net: &Net) -> Result<Vec<u128>, AllocError> {
    let mut start = Vec::new(alloc);
    for place in net.places() {
        start.push(place.start)?;
    }
    Ok(start)
}

// Whether no number is out of range.
fn all_in_range(marking: &[u128]) -> bool
    ensures { IsTrue result → All (λ n. n ≤ greatest) marking.now }
{
    for tokens in marking {
        if *tokens > GREATEST as u128 {
            return false;
        }
    }
    true
}

// What comes of the label at the marking.
fn step(alloc: Global, net: &Net, marking: &[u128], t: u32) -> Result<Outcome, Ended> {
    if marking.len() != net.places().len() || t >= net.labels() || !all_in_range(marking) {
        return Err(Ended::Stuck);
    }
    if !enabled(net, marking, t) {
        return Ok(Outcome::Stopped);
    }
    match fire(alloc, net, marking, t) {
        Ok(after) => Ok(Outcome::To(after)),
        Err(FireStop::Passes(place)) => Ok(Outcome::Passes(place)),
        Err(FireStop::NoMemory) => Err(Ended::Stuck),
    }
}

// The marking of a state that was met.
fn marking_at(met: &[Met], s: u32) -> Option<&[u128]> {
    for m in met {
        if m.state == s {
            return Some(m.marking.as_slice());
        }
    }
    None
}

// The initial state, and its marking.
fn first_met(alloc: Global, lts: &Lts, net: &Net) -> Result<Vec<Met>, AllocError> {
    let marking = start_of(alloc, net)?;
    let mut met = Vec::new(alloc);
    met.push(Met {
        state: lts.initial(),
        marking,
    })?;
    Ok(met)
}

// The states in the order in which they are met, and their markings.
fn all_met(alloc: Global, lts: &Lts, net: &Net) -> Result<Vec<Met>, Ended> {
    let mut met = first_met(alloc, lts, net)?;
    for next in 0..lts.states() {
        grow(alloc, lts, net, &mut met, next as usize)?;
    }
    Ok(met)
}

// Fires along the arcs of the state with this number among those met, to states that weren't met.
fn grow(alloc: Global, lts: &Lts, net: &Net, met: &mut Vec<Met>, next: usize) -> Result<(), Ended> {
    let source = match met.get(next) {
        Some(m) => m.state,
        None => return Err(Ended::Stuck),
    };
    for a in lts.arcs() {
        if a.from == source && marking_at(met, a.to).is_none() {
            let marking = marking_after(alloc, net, met, *a)?;
            met.push(Met {
                state: a.to,
                marking,
            })?;
        }
    }
    Ok(())
}

// The marking to which an arc leads from that of its source.
fn marking_after(alloc: Global, net: &Net, met: &[Met], a: Arc) -> Result<Vec<u128>, Ended> {
    let marking = marking_at(met, a.from).ok_or(Ended::Stuck)?;
    match step(alloc, net, marking, a.label)? {
        Outcome::Stopped => Err(no(NetNo::NotEnabled(a.from, a.label))),
        Outcome::Passes(place) => Err(Ended::Told(Told::Passes(a.to, place))),
        Outcome::To(marking) => Ok(marking),
    }
}

// Ends at the first two states with one marking.
fn same(lts: &Lts, met: &[Met]) -> Result<(), Ended> {
    for s in 0..lts.states() {
        same_as(lts, met, s)?;
    }
    Ok(())
}

// Ends at the first state after this one with its marking.
fn same_as(lts: &Lts, met: &[Met], s: u32) -> Result<(), Ended>
    requires { s < 4294967295 }
{
    let marking = marking_at(met, s);
    for r in s + 1..lts.states() {
        if marking == marking_at(met, r) {
            return Err(no(NetNo::SameMarking(s, r)));
        }
    }
    Ok(())
}

// Ends at the first state and label that aren't as the arcs say.
fn wrong(alloc: Global, lts: &Lts, net: &Net, met: &[Met]) -> Result<(), Ended> {
    for s in 0..lts.states() {
        wrong_at(alloc, lts, net, met, s)?;
    }
    Ok(())
}

// Ends at the first label at the state that isn't as the arcs say.
fn wrong_at(alloc: Global, lts: &Lts, net: &Net, met: &[Met], s: u32) -> Result<(), Ended> {
    let marking = marking_at(met, s).ok_or(Ended::Stuck)?;
    for t in 0..lts.labels() {
        let after = step(alloc, net, marking, t)?;
        as_arcs_say(lts, met, &after, s, t)?;
    }
    Ok(())
}

// Ends where what comes of the label at the state isn't as the arcs say.
fn as_arcs_say(lts: &Lts, met: &[Met], after: &Outcome, s: u32, t: u32) -> Result<(), Ended> {
    match target_of(lts, s, t) {
        None => stops(after, s, t),
        Some(to) => {
            let target = marking_at(met, to).ok_or(Ended::Stuck)?;
            leads(after, target, s, t)
        }
    }
}

// Ends where the label is enabled.
fn stops(after: &Outcome, s: u32, t: u32) -> Result<(), Ended> {
    match after {
        Outcome::Stopped => Ok(()),
        _ => Err(no(NetNo::Enabled(s, t))),
    }
}

// Ends where the label doesn't lead to the target's marking.
fn leads(after: &Outcome, target: &[u128], s: u32, t: u32) -> Result<(), Ended> {
    match after {
        Outcome::Stopped => Err(no(NetNo::NotEnabled(s, t))),
        Outcome::To(marking) if marking.as_slice() == target => Ok(()),
        _ => Err(no(NetNo::WrongStep(s, t))),
    }
}

// Where the arc of the label leads.
fn target_of(lts: &Lts, s: u32, t: u32) -> Option<u32> {
    for a in lts.arcs() {
        if a.from == s && a.label == t {
            return Some(a.to);
        }
    }
    None
}

// The markings of all states, in the order of the states.
fn markings_of(alloc: Global, lts: &Lts, met: &[Met]) -> Result<Vec<Vec<u128>>, Ended> {
    let mut markings = Vec::new(alloc);
    for s in 0..lts.states() {
        let marking = marking_at(met, s).ok_or(Ended::Stuck)?;
        let marking = Vec::from_slice(alloc, marking)?;
        markings.push(marking)?;
    }
    Ok(markings)
}

// Ends at the first break of the class.
fn of_class(alloc: Global, lts: &Lts, net: &Net, met: &[Met], class: Class) -> Result<(), Ended> {
    let markings = markings_of(alloc, lts, met)?;
    if markings.len() > MOST_MARKINGS || !fit(net, &markings) {
        return Err(Ended::Stuck);
    }
    in_class(net, &markings, class).map_err(|first| no(NetNo::Class(first)))
}

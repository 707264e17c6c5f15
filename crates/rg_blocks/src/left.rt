//! The next problem that is left.
ghost use Rattle.std.specs.Prelude.{◌+◌, ◌<◌, ◌≤◌, IfSome, IfNone};
ghost use Rattle.rg_theory.specs.System.{states, labels};
ghost use Rattle.rg_theory.specs.declared.Problem.TheVariants as problem;
ghost use Rattle.rg_theory.specs.Problem.{IsProblem};
ghost use Rattle.rg_outcome.specs.Coming.{IsNext, IsDone};
ghost use Rattle.rg_blocks.specs.Left.{HaveNoArc, IsFirstFrom, NoneBetween, NoneFrom};

use crate::keeping::Keeping;
use rg_lts::Lts;
use rg_theory::Problem;

// The first event problem of state `s` that is left, of the labels from `from` on below `to`, none of which has an
// arc there.
fn event_between<K: Keeping>(lts: &Lts, kept: &K, s: u32, from: u32, to: u32) -> Option<Problem>
    requires kept { K.keeps_for kept.now lts.now }
    requires state { s < states lts.now }
    requires labels { to ≤ labels lts.now }
    requires no_arc { HaveNoArc lts.now s from to }
    ensures some { IfSome result (IsFirstFrom lts.now (K.places kept.now) (problem.Event s from)) }
    ensures none { IfNone result (NoneBetween lts.now (K.places kept.now) (problem.Event s from) (problem.Event s to)) }
{
    for t in from..to {
        let problem = Problem::Event(s, t);
        if kept.separates(lts, problem) {
            continue;
        }
        return Some(problem);
    }
    None
}

// The first event problem of state `s` that is left, from label `first` on.
fn event_of_state<K: Keeping>(lts: &Lts, kept: &K, s: u32, first: u32) -> Option<Problem>
    requires kept { K.keeps_for kept.now lts.now }
    requires state { s < states lts.now }
    ensures some { IfSome result (IsFirstFrom lts.now (K.places kept.now) (problem.Event s first)) }
    ensures none { IfNone result (NoneBetween lts.now (K.places kept.now) (problem.Event s first) (problem.Event (s + 1) 0)) }
{
    let labels = lts.labels();
    let mut next = first;
    for arc in lts.arcs_from(s) {
        let found = event_between(lts, kept, s, next, arc.label);
        if found.is_some() {
            return found;
        }
        next = next.max(arc.label + 1);
    }
    event_between(lts, kept, s, next, labels)
}

// The first state problem of state `s` and a later one that is left, from the other state `first` on.
fn states_of_state<K: Keeping>(lts: &Lts, kept: &K, s: u32, first: u32) -> Option<Problem>
    requires kept { K.keeps_for kept.now lts.now }
    requires later { s < first }
    ensures some { IfSome result (IsFirstFrom lts.now (K.places kept.now) (problem.States s first)) }
    ensures none { IfNone result (NoneBetween lts.now (K.places kept.now) (problem.States s first) (problem.States (s + 1) 0)) }
{
    for other in first..lts.states() {
        let problem = Problem::States(s, other);
        if kept.separates(lts, problem) {
            continue;
        }
        return Some(problem);
    }
    None
}

// The first event problem that is left, from state `s` and label `first` on.
fn event_left<K: Keeping>(lts: &Lts, kept: &K, s: u32, first: u32) -> Option<Problem>
    requires kept { K.keeps_for kept.now lts.now }
    requires state { s < states lts.now }
    ensures some { IfSome result (IsFirstFrom lts.now (K.places kept.now) (problem.Event s first)) }
    ensures none { IfNone result (NoneBetween lts.now (K.places kept.now) (problem.Event s first) (problem.States 0 0)) }
{
    let states = lts.states();
    let found = event_of_state(lts, kept, s, first);
    if found.is_some() {
        return found;
    }
    for q in s + 1..states {
        let found = event_of_state(lts, kept, q, 0);
        if found.is_some() {
            return found;
        }
    }
    None
}

// The first state problem that is left, from state `s` and the other state `first` on.
fn states_left<K: Keeping>(lts: &Lts, kept: &K, s: u32, first: u32) -> Option<Problem>
    requires kept { K.keeps_for kept.now lts.now }
    requires state { s < states lts.now }
    requires later { s < first }
    ensures some { IfSome result (IsFirstFrom lts.now (K.places kept.now) (problem.States s first)) }
    ensures none { IfNone result (NoneFrom lts.now (K.places kept.now) (problem.States s first)) }
{
    let states = lts.states();
    let found = states_of_state(lts, kept, s, first);
    if found.is_some() {
        return found;
    }
    for q in s + 1..states {
        let found = states_of_state(lts, kept, q, q + 1);
        if found.is_some() {
            return found;
        }
    }
    None
}

// The first problem that is left, from an event problem's numbers on.
#[tactic(auto, using(crate::proofs::LeftLemmas::none_with_states))]
fn first_left_from<K: Keeping>(lts: &Lts, kept: &K, s: u32, first: u32) -> Option<Problem>
    requires kept { K.keeps_for kept.now lts.now }
    requires state { s < states lts.now }
    ensures some { IfSome result (IsFirstFrom lts.now (K.places kept.now) (problem.Event s first)) }
    ensures none { IfNone result (NoneFrom lts.now (K.places kept.now) (problem.Event s first)) }
{
    let found = event_left(lts, kept, s, first);
    if found.is_some() {
        return found;
    }
    if kept.are_all_apart(lts) {
        return None;
    }
    states_left(lts, kept, 0, 1)
}

/// Returns the next problem: the first that no kept place separates, of those after `last`, or of all if it is None.
/// Event problems precede state problems, and each kind is in the order of its numbers. Returns None if no problem is
/// left.
pub fn next_problem<K: Keeping>(lts: &Lts, kept: &K, last: Option<Problem>) -> Option<Problem>
    requires kept { K.keeps_for kept.now lts.now }
    requires last { IfSome last (IsProblem lts.now) }
    ensures some { IfSome result (IsNext lts.now (K.places kept.now) last) }
    ensures none { IfNone result (IsDone lts.now (K.places kept.now) last) }
{
    let _states = lts.states();
    let _labels = lts.labels();
    match last {
        None => first_left_from(lts, kept, 0, 0),
        Some(Problem::Event(s, t)) => first_left_from(lts, kept, s, t + 1),
        Some(Problem::States(s, other)) => states_left(lts, kept, s, other + 1),
    }
}

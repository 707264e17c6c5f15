//! What the arcs of a graph reach.
ghost use Rattle.std.specs.Prelude.{◌≡◌, ◌≤◌, ◌↔◌, ℕ, ◌<◌, IfOk, OnOk, IsTrue, Contains, AllPairs, length};
ghost use Rattle.rg_theory.specs.declared.Arc.{Arc};
ghost use Rattle.rg_checks.specs.Closure.{IsGraph, follows, IsClosure, is_met, IsWalk, GoesOn};

use crate::walks::Step;
use rg_memory::NoMemory;
use rg_theory::Arc;
use std::alloc::Global;

/// A graph: its arcs, ordered by the state that they leave, of which those with certain labels are followed.
#[derive(Clone, Copy)]
pub struct Graph<'a> {
    pub arcs: &'a [Arc],
    /// For each label whether its arcs are followed.
    pub labels: &'a [bool],
    pub states: u32,
    pub initial: u32,
}

/// Returns how each state is reached from the initial one, one entry per state: None for the initial state and for
/// each state that can't be reached, else the last arc of a walk whose earlier arcs are the entries of the states
/// before. Returns `NoMemory` if memory runs out for the entries, or for the states whose arcs aren't followed yet.
pub fn closure(alloc: Global, graph: Graph<'_>) -> Result<Vec<Option<Step>>, NoMemory>
    requires { IsGraph graph }
    ensures { IfOk result (λ steps. IsClosure (follows graph.entry) graph.entry.states graph.entry.initial steps.items) }
{
    let mut walk = begin_walk(alloc, graph)?;
    while let Some(s) = walk.waiting.pop() {
        follow(graph, &mut walk, s)?;
    }
    Ok(walk.steps)
}

// The step that leads to each state, and the states that are met whose arcs aren't followed yet.
#[derive(Drop)]
struct Walk {
    steps: Vec<Option<Step>>,
    waiting: Vec<u32>,
}

// The walk that has met the initial state alone.
fn begin_walk(alloc: Global, graph: Graph<'_>) -> Result<Walk, NoMemory>
    requires { IsGraph graph }
    ensures walk { IfOk result (λ w. IsWalk (follows graph.entry) graph.entry.states graph.entry.initial w.steps.items w.waiting.items) }
    ensures waits { IfOk result (λ w. Contains w.waiting.items graph.entry.initial) }
    ensures alone { IfOk result (λ w. (s : ℕ) → IsTrue (is_met graph.entry.initial w.steps.items s) → s ≡ graph.entry.initial) }
{
    let steps = vec![in alloc; None; graph.states as usize]?;
    let mut waiting = Vec::new(alloc);
    waiting.push(graph.initial)?;
    Ok(Walk { steps, waiting })
}

// Meets the states to which an arc leads from a state that is met.
fn follow(graph: Graph<'_>, walk: &mut Walk, s: u32) -> Result<(), NoMemory>
    requires graph { IsGraph graph }
    requires walk { IsWalk (follows graph) graph.states graph.initial walk.old.steps.items walk.old.waiting.items }
    requires met { IsTrue (is_met graph.initial walk.old.steps.items s) }
    ensures walk { OnOk result (IsWalk (follows graph.entry) graph.entry.states graph.entry.initial walk.new.steps.items walk.new.waiting.items) }
    ensures goes_on { OnOk result (GoesOn graph.entry.initial walk.old.steps.items walk.old.waiting.items walk.new.steps.items walk.new.waiting.items) }
    ensures all { OnOk result ((a : Arc) → follows graph.entry a → a.from ≡ s → IsTrue (is_met graph.entry.initial walk.new.steps.items a.to)) }
{
    for arc in leaving(graph.arcs, s) {
        if graph.labels[arc.label as usize] {
            meet(graph, walk, arc)?;
        }
    }
    Ok(())
}

// Meets the state to which the arc leads.
fn meet(graph: Graph<'_>, walk: &mut Walk, arc: &Arc) -> Result<(), NoMemory>
    requires graph { IsGraph graph }
    requires walk { IsWalk (follows graph) graph.states graph.initial walk.old.steps.items walk.old.waiting.items }
    requires follows { follows graph arc.now }
    requires met { IsTrue (is_met graph.initial walk.old.steps.items arc.now.from) }
    ensures walk { OnOk result (IsWalk (follows graph.entry) graph.entry.states graph.entry.initial walk.new.steps.items walk.new.waiting.items) }
    ensures goes_on { OnOk result (GoesOn graph.entry.initial walk.old.steps.items walk.old.waiting.items walk.new.steps.items walk.new.waiting.items) }
    ensures meets { OnOk result (IsTrue (is_met graph.entry.initial walk.new.steps.items arc.now.to)) }
{
    if is_met(&walk.steps, graph.initial, arc.to) {
        return Ok(());
    }
    walk.waiting.push(arc.to)?;
    walk.steps[arc.to as usize] = Some(Step {
        before: arc.from,
        label: arc.label,
    });
    Ok(())
}

/// Returns whether the state is the initial one, or a step leads to it.
pub fn is_met(steps: &[Option<Step>], initial: u32, s: u32) -> bool
    requires { s < length steps.now }
    ensures { result ≡ is_met initial steps.now s }
{
    s == initial || steps[s as usize].is_some()
}

// The arcs that leave the state, of arcs ordered by the state that they leave.
fn leaving(arcs: &[Arc], s: u32) -> &[Arc]
    requires { AllPairs (λ a b. a.from ≤ b.from) arcs.now }
    ensures { (a : Arc) → Contains result.now a ↔ (Contains arcs.now a × (a.from ≡ s)) }
{
    let start = arcs.partition_point(|a| a.from < s);
    let end = arcs.partition_point(|a| a.from <= s);
    &arcs[start..end]
}

//! Systems whose numbers, names and order are right.
ghost use Rattle.std.specs.Prelude.{◌≡◌, ℕ, ◌<◌, ◌≤◌, length, AllPairs, IsTrue, false, slice_index_or, Contains, Some, IfSome, IfNone, slice_get};
ghost use Rattle.rg_theory.specs.declared.Arc.{Arc};
ghost use Rattle.rg_theory.specs.System.{arc, System, HasArc, IsArcBefore, states, labels};
ghost use Rattle.rg_lts.specs.WellFormed.{IsWellFormed, system_of, is_earlier};

use crate::name_list::NameList;
use crate::names::number_of;
use rg_theory::Arc;
use std::marker::Model;

/// A finite labelled transition system with an initial state. States and labels are numbered from 0
/// in the order of their names.
#[derive(Drop)]
pub struct Lts {
    state_names: NameList,
    label_names: NameList,
    arcs: Vec<Arc>,
    initial: u32,
}

impl Model for Lts {
    ghost use Rattle.rg_theory.specs.System.{System};
    ghost use Rattle.rg_lts.specs.WellFormed.{IsWellFormed, system_of};

    ghost Value = { System };

    ghost view = { λ l. system_of l.state_names l.label_names l.arcs.items l.initial };

    ghost invariant = { λ l. IsWellFormed (system_of l.state_names l.label_names l.arcs.items l.initial) };
}

impl Lts {
    // The system of these parts.
    pub(crate) fn from_parts(
        state_names: NameList,
        label_names: NameList,
        arcs: Vec<Arc>,
        initial: u32,
    ) -> Lts
        requires { IsWellFormed (system_of state_names label_names arcs.items initial) }
        ensures { result ≡ system_of state_names label_names arcs.items initial }
    {
        Lts {
            state_names,
            label_names,
            arcs,
            initial,
        }
    }

    /// Law: a system in memory is well formed. Its numbers are in range, its names differ, its arcs are in order, and
    /// it is within all limits.
    pub fn is_well_formed(&self)
        ensures { IsWellFormed self.now }
    {
        let _initial = self.initial;
    }

    /// Returns how many states there are, 1 to 4,096.
    pub fn states(&self) -> u32
        ensures value { result ≡ states self.now }
        ensures well_formed { IsWellFormed self.now }
    {
        self.state_names.len() as u32
    }

    /// Returns how many labels there are, at most 256.
    pub fn labels(&self) -> u32
        ensures value { result ≡ labels self.now }
        ensures well_formed { IsWellFormed self.now }
    {
        self.label_names.len() as u32
    }

    /// Returns the initial state.
    pub fn initial(&self) -> u32
        ensures value { result ≡ self.now.initial }
        ensures in_range { result < states self.now }
    {
        self.initial
    }

    /// Returns all arcs, each once, ordered by the state that they leave, label, and the state that they enter.
    pub fn arcs(&self) -> &[Arc]
        ensures value { result.now ≡ self.now.arcs }
        ensures well_formed { IsWellFormed self.now }
    {
        &self.arcs
    }

    /// Returns where the first arc of label `t` at state `s` leads, which is the least such state; None where `t` has
    /// no arc there.
    pub fn arc_at(&self, s: u32, t: u32) -> Option<u32>
        requires state { s < states self.now }
        requires label { t < labels self.now }
        ensures found { IfSome result (λ to. HasArc self.now s t to) }
        ensures least { IfSome result (λ to. (other : ℕ) → HasArc self.now s t other → to ≤ other) }
        ensures none { IfNone result ((to : ℕ) → ¬ HasArc self.now s t to) }
    {
        first_target(&self.arcs, s, t)
    }

    /// Returns the name of state `s`.
    pub fn state_name(&self, s: u32) -> &str
        requires { s < states self.now }
        ensures { slice_get self.now.state_names s ≡ Some result.now }
    {
        self.state_names.name(s as usize)
    }

    /// Returns the name of label `t`.
    pub fn label_name(&self, t: u32) -> &str
        requires { t < labels self.now }
        ensures { slice_get self.now.label_names t ≡ Some result.now }
    {
        self.label_names.name(t as usize)
    }

    /// Returns the state with the name, or None if there is none.
    pub fn state_number(&self, name: &str) -> Option<u32>
        ensures within { IfSome result (λ s. s < states self.now) }
        ensures found { IfSome result (λ s. slice_get self.now.state_names s ≡ Some name.now) }
        ensures none { IfNone result (¬ Contains self.now.state_names name.now) }
    {
        number_of(&self.state_names, name)
    }

    /// Returns the label with the name, or None if there is none.
    pub fn label_number(&self, name: &str) -> Option<u32>
        ensures within { IfSome result (λ t. t < labels self.now) }
        ensures found { IfSome result (λ t. slice_get self.now.label_names t ≡ Some name.now) }
        ensures none { IfNone result (¬ Contains self.now.label_names name.now) }
    {
        number_of(&self.label_names, name)
    }
}

// Asks that values of a type may move to another thread, and that threads may share them.
fn crosses_threads<T: Send + Sync>() {}

// Systems cross threads.
fn systems_cross_threads() {
    crosses_threads::<Lts>()
}

// Where the first arc of label t at state s leads, in a list in order.
fn first_target(arcs: &[Arc], s: u32, t: u32) -> Option<u32>
    requires { AllPairs IsArcBefore arcs.now }
    ensures found { IfSome result (λ to. Contains arcs.now (arc s t to)) }
    ensures least { IfSome result (λ to. (other : ℕ) → Contains arcs.now (arc s t other) → to ≤ other) }
    ensures none { IfNone result ((to : ℕ) → ¬ Contains arcs.now (arc s t to)) }
{
    let index = first_index(arcs, s, t);
    match arcs.get(index) {
        Some(a) if a.from == s && a.label == t => Some(a.to),
        _ => None,
    }
}

// How many arcs come before all arcs of label t at state s.
pub(crate) fn first_index(arcs: &[Arc], s: u32, t: u32) -> usize
    requires { AllPairs IsArcBefore arcs.now }
    ensures within { result ≤ length arcs.now }
    ensures before { (k : ℕ) (d : Arc) → k < result → IsTrue (is_earlier s t (slice_index_or arcs.now k d)) }
    ensures behind { (k : ℕ) (d : Arc) → result ≤ k → k < length arcs.now → is_earlier s t (slice_index_or arcs.now k d) ≡ false }
{
    arcs.partition_point(|a| is_earlier(a, s, t))
}

// Whether the arc leaves an earlier state than s, or s by an earlier label than t.
fn is_earlier(a: &Arc, s: u32, t: u32) -> bool
    ensures { result ≡ is_earlier s t a.now }
{
    a.from < s || a.from == s && a.label < t
}

//! Building a system call by call.
ghost use Rattle.std.specs.Prelude.{◌≡◌, ◌↔◌, ◌⊎◌, ℕ, ◌<◌, ◌≤◌, length, Contains, Some, None, [], ◌∷◌, ◌++◌, slice_get, IfOk, IfErr, OnOk, OnErr, IfSome, IfNone, IsErrOf};
ghost use Rattle.rg_text.specs.Byte.{IsName};
ghost use Rattle.rg_theory.specs.declared.Arc.{Arc};
ghost use Rattle.rg_theory.specs.Limits.{most_states, most_labels, most_arcs};
ghost use Rattle.rg_lts.specs.WellFormed.{IsWellFormed};
ghost use Rattle.rg_lts.specs.Draft.{Draft, IsWellFormedDraft, blank, finished, names_alone, IsArcNamed, IsArcWithin, AddsArc, LacksState, LacksLabel, IsArcOverLimit, IsOtherInitial};
ghost use Rattle.rg_lts.specs.Faults.{IsStateFault, IsLabelFault, IsArcFault, IsInitialFault, IsFinishFault};
ghost use Rattle.rg_lts.specs.declared.fault.BuildFault.TheVariants as fault;

use crate::arc_set;
use crate::fault::BuildFault;
use crate::lts::Lts;
use crate::name_list::NameList;
use crate::names::number_of;
use rg_theory::Arc;
use std::alloc::Global;
use std::collections::BTreeSet;
use std::marker::Model;

/// The most states of a system.
pub const MOST_STATES: usize = 4_096;

/// The most labels of a system.
pub const MOST_LABELS: usize = 256;

/// A system that is being built: names in the order in which they came, arcs as a set.
#[derive(Drop)]
pub struct LtsBuilder {
    alloc: Global,
    state_names: NameList,
    label_names: NameList,
    arcs: BTreeSet<Arc>,
    initial: Option<u32>,
}

impl Model for LtsBuilder {
    ghost use Rattle.rg_lts.specs.Draft.{Draft, IsWellFormedDraft, draft_of};

    ghost Value = { Draft };

    ghost view = { λ b. draft_of b.state_names b.label_names b.arcs.keys b.initial };

    ghost invariant = { λ b. IsWellFormedDraft (draft_of b.state_names b.label_names b.arcs.keys b.initial) };
}

impl LtsBuilder {
    /// Returns a builder of a system without states.
    pub fn new(alloc: Global) -> LtsBuilder
        ensures { result ≡ blank }
    {
        LtsBuilder {
            alloc,
            state_names: NameList::new(alloc, MOST_STATES),
            label_names: NameList::new(alloc, MOST_LABELS),
            arcs: BTreeSet::new(alloc),
            initial: None,
        }
    }

    /// Adds a state, and returns its number. Returns `TwiceState` if there is a state of that name,
    /// `TooManyStates` if the name is new and there are 4,096 states, and `NoMemory` if memory runs out.
    pub fn state(&mut self, name: &str) -> Result<u32, BuildFault>
        requires { IsName name.now }
        ensures ok { IfOk result (λ s. s ≡ length self.old.state_names) }
        ensures added { OnOk result (self.new ≡ record self.old { state_names = self.old.state_names ++ name.now ∷ [] }) }
        ensures twice { IsErrOf result fault.TwiceState ↔ Contains self.old.state_names name.now }
        ensures too_many { IsErrOf result fault.TooManyStates ↔ ((¬ Contains self.old.state_names name.now) × (most_states ≤ length self.old.state_names)) }
        ensures cause { IfErr result IsStateFault }
        ensures err { OnErr result (self.new ≡ self.old) }
    {
        if let Some(_) = number_of(&self.state_names, name) {
            return Err(BuildFault::TwiceState);
        }
        let s = self.state_names.len();
        if s >= MOST_STATES {
            return Err(BuildFault::TooManyStates);
        }
        self.state_names.add(self.alloc, name)?;
        Ok(s as u32)
    }

    /// Adds a label, and returns its number. Returns `TwiceLabel` if there is a label of that name,
    /// `TooManyLabels` if the name is new and there are 256 labels, and `NoMemory` if memory runs out.
    pub fn label(&mut self, name: &str) -> Result<u32, BuildFault>
        requires { IsName name.now }
        ensures ok { IfOk result (λ t. t ≡ length self.old.label_names) }
        ensures added { OnOk result (self.new ≡ record self.old { label_names = self.old.label_names ++ name.now ∷ [] }) }
        ensures twice { IsErrOf result fault.TwiceLabel ↔ Contains self.old.label_names name.now }
        ensures too_many { IsErrOf result fault.TooManyLabels ↔ ((¬ Contains self.old.label_names name.now) × (most_labels ≤ length self.old.label_names)) }
        ensures cause { IfErr result IsLabelFault }
        ensures err { OnErr result (self.new ≡ self.old) }
    {
        if let Some(_) = number_of(&self.label_names, name) {
            return Err(BuildFault::TwiceLabel);
        }
        let t = self.label_names.len();
        if t >= MOST_LABELS {
            return Err(BuildFault::TooManyLabels);
        }
        self.label_names.add(self.alloc, name)?;
        Ok(t as u32)
    }

    /// Returns the state with the name, or None if there is none.
    pub fn state_number(&self, name: &str) -> Option<u32>
        ensures within { IfSome result (λ s. s < length self.now.state_names) }
        ensures found { IfSome result (λ s. slice_get self.now.state_names s ≡ Some name.now) }
        ensures none { IfNone result (¬ Contains self.now.state_names name.now) }
    {
        number_of(&self.state_names, name)
    }

    /// Returns the label with the name, or None if there is none.
    pub fn label_number(&self, name: &str) -> Option<u32>
        ensures within { IfSome result (λ t. t < length self.now.label_names) }
        ensures found { IfSome result (λ t. slice_get self.now.label_names t ≡ Some name.now) }
        ensures none { IfNone result (¬ Contains self.now.label_names name.now) }
    {
        number_of(&self.label_names, name)
    }

    /// Adds the arc between two states that were added before. An arc that is there already changes nothing. Returns
    /// `UnknownState` or `UnknownLabel` for the first of the three names that wasn't added, and `TooManyArcs` if the
    /// arc is new and there are 262,144 arcs.
    pub fn arc(&mut self, from: &str, label: &str, to: &str) -> Result<(), BuildFault>
        ensures ok { OnOk result ((a : Arc) × IsArcNamed self.old from.now label.now to.now a × AddsArc self.old self.new a) }
        ensures unknown_state { IsErrOf result fault.UnknownState ↔ LacksState self.old from.now label.now to.now }
        ensures unknown_label { IsErrOf result fault.UnknownLabel ↔ LacksLabel self.old from.now label.now }
        ensures too_many { IsErrOf result fault.TooManyArcs ↔ IsArcOverLimit self.old from.now label.now to.now }
        ensures well_formed { IsWellFormedDraft self.old }
        ensures cause { IfErr result IsArcFault }
        ensures err { OnErr result (self.new ≡ self.old) }
    {
        let arc = named_arc(&self.state_names, &self.label_names, from, label, to)?;
        arc_set::add(&mut self.arcs, arc)?;
        Ok(())
    }

    /// Adds the arc between two states that are there, by their numbers. An arc that is there already changes
    /// nothing. Returns `TooManyArcs` if the arc is new and there are 262,144 arcs, and `NoMemory` if memory runs
    /// out.
    pub fn arc_between(&mut self, arc: Arc) -> Result<(), BuildFault>
        requires { IsArcWithin self.old arc }
        ensures ok { OnOk result (AddsArc self.old self.new arc) }
        ensures too_many { IsErrOf result fault.TooManyArcs ↔ ((¬ Contains self.old.arcs arc) × (most_arcs ≤ length self.old.arcs)) }
        ensures well_formed { IsWellFormedDraft self.old }
        ensures cause { IfErr result (λ e. (e ≡ fault.TooManyArcs) ⊎ (e ≡ fault.NoMemory)) }
        ensures err { OnErr result (self.new ≡ self.old) }
    {
        arc_set::add(&mut self.arcs, arc)?;
        Ok(())
    }

    /// Names the initial state. Naming the same state again changes nothing. Returns `UnknownState` if there is no
    /// state of that name, and `TwoInitial` if another state is initial. It takes no memory.
    pub fn initial(&mut self, name: &str) -> Result<(), BuildFault>
        ensures ok { OnOk result ((s : ℕ) × (slice_get self.old.state_names s ≡ Some name.now) × (self.new ≡ record self.old { initial = Some s })) }
        ensures unknown { IsErrOf result fault.UnknownState ↔ (¬ Contains self.old.state_names name.now) }
        ensures two { IsErrOf result fault.TwoInitial ↔ IsOtherInitial self.old name.now }
        ensures cause { IfErr result IsInitialFault }
        ensures err { OnErr result (self.new ≡ self.old) }
    {
        let Some(s) = number_of(&self.state_names, name) else {
            return Err(BuildFault::UnknownState);
        };
        match self.initial {
            Some(other) if other != s => Err(BuildFault::TwoInitial),
            _ => {
                self.initial = Some(s);
                Ok(())
            }
        }
    }

    /// Returns the system of the names and arcs. Returns `NoInitial` if no state is initial.
    pub fn finish(self) -> Result<Lts, BuildFault>
        ensures ok { IfOk result (λ lts. (self.initial ≡ Some lts.initial) × (lts ≡ finished self lts.initial)) }
        ensures well_formed { IfOk result IsWellFormed }
        ensures no_initial { IsErrOf result fault.NoInitial ↔ (self.initial ≡ None) }
        ensures cause { IfErr result IsFinishFault }
    {
        let Some(initial) = self.initial else {
            return Err(BuildFault::NoInitial);
        };
        let arcs = arc_set::list_arcs(self.alloc, &self.arcs)?;
        Ok(Lts::from_parts(self.state_names, self.label_names, arcs, initial))
    }
}

// The arc with these names.
fn named_arc(
    state_names: &NameList,
    label_names: &NameList,
    from: &str,
    label: &str,
    to: &str,
) -> Result<Arc, BuildFault>
    requires states { length state_names.now ≤ most_states }
    requires labels { length label_names.now ≤ most_labels }
    ensures ok { let d = names_alone state_names.now label_names.now in
        IfOk result (IsArcNamed d from.now label.now to.now) }
    ensures unknown_state { let d = names_alone state_names.now label_names.now in
        IsErrOf result fault.UnknownState ↔ LacksState d from.now label.now to.now }
    ensures unknown_label { let d = names_alone state_names.now label_names.now in
        IsErrOf result fault.UnknownLabel ↔ LacksLabel d from.now label.now }
    ensures cause { IfErr result (λ e. (e ≡ fault.UnknownState) ⊎ (e ≡ fault.UnknownLabel)) }
{
    let Some(from) = number_of(state_names, from) else {
        return Err(BuildFault::UnknownState);
    };
    let Some(label) = number_of(label_names, label) else {
        return Err(BuildFault::UnknownLabel);
    };
    let Some(to) = number_of(state_names, to) else {
        return Err(BuildFault::UnknownState);
    };
    Ok(Arc { from, label, to })
}

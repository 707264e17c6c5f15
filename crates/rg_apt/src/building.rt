//! The system of what a file declares.
ghost use Rattle.std.specs.Prelude.{◌≡◌, ◌≢◌, ◌++◌, ◌∷◌, [], ℕ, List, All, map, string_bytes, ◌⊎◌, Contains, IsErrOf, ◌≤◌, length, IfOk, IfErr, OnOk, Option, None, Some};
ghost use Rattle.rg_text.specs.Byte.{IsName};
ghost use Rattle.rg_theory.specs.declared.Arc.{Arc};
ghost use Rattle.rg_lexer.specs.Lexeme.{Lexeme, lexeme};
ghost use Rattle.rg_grammar.specs.Entry.{IsNameOf};
ghost use Rattle.rg_theory.specs.Limits.{most_states, most_labels};
ghost use Rattle.rg_lts.specs.Draft.{Draft, blank, IsArcNamed, IsOtherInitial, IsStateNamed, AddsArc, IsWellFormedDraft};
ghost use Rattle.rg_apt.specs.Contents.{StateEntry, ArcNames, Declared, state_fault, label_fault, arc_fault, faults, IsSystemOf};
ghost use Rattle.rg_text.specs.Faults.{faults_after, IsFirst, AreNone};
ghost use Rattle.rg_apt.specs.View.{state_in, states_in, labels_in, arc_in, arcs_in, found_in, IsStateOf, IsArcOf, HoldsNames};
ghost use Rattle.rg_apt.specs.Built.{label_text, HasStates, HasLabels, HasArcs, IsArcOfNames, IsNewName, IsNameFault, IsUnknown, IsUnknownOf, HasNamesOf, IsOverLimit};
ghost use Rattle.rg_apt.specs.declared.fault.TextFault.TheVariants as fault;

use crate::fault::TextFault;
use crate::found::{ArcNames, Found, StateEntry};
use rg_grammar::name_of;
use rg_lexer::Token;
use rg_lts::{Arc, BuildFault, Lts, LtsBuilder};
use std::alloc::Global;

// Adds a state of this name, which is at a position.
fn add_name(builder: &mut LtsBuilder, name: &str, at: u32) -> Result<(), TextFault>
    requires { IsName name.now }
    ensures added { OnOk result (builder.new ≡ record builder.old { state_names = builder.old.state_names ++ name.now ∷ [] }) }
    ensures new { OnOk result (IsNewName builder.old.state_names most_states name.now) }
    ensures fault { IfErr result (λ f. f ≢ fault.NoMemory
        → IsNameFault builder.old.state_names most_states name.now (fault.TwiceState at) (fault.TooManyStates at) f) }
    ensures memory { IsErrOf result fault.NoMemory → ¬ Contains builder.old.state_names name.now }
    ensures room { IsErrOf result fault.NoMemory → ¬ (most_states ≤ length builder.old.state_names) }
{
    match builder.state(name) {
        Ok(_) => Ok(()),
        Err(BuildFault::TwiceState) => Err(TextFault::TwiceState(at)),
        Err(BuildFault::TooManyStates) => Err(TextFault::TooManyStates(at)),
        Err(BuildFault::NoMemory) => Err(TextFault::NoMemory),
        Err(_) => unreachable!(),
    }
}

// Makes the state of this name, which is at a position, the initial one. It takes no memory.
fn mark(builder: &mut LtsBuilder, name: &str, at: u32) -> Result<(), TextFault>
    requires { Contains builder.old.state_names name.now }
    ensures marked { OnOk result ((s : ℕ) × IsStateNamed builder.old s name.now × (builder.new ≡ record builder.old { initial = Some s })) }
    ensures alone { OnOk result (¬ IsOtherInitial builder.old name.now) }
    ensures fault { IfErr result (λ f. (f ≡ fault.TwoInitial at) × IsOtherInitial builder.old name.now) }
{
    match builder.initial(name) {
        Ok(()) => Ok(()),
        Err(BuildFault::TwoInitial) => Err(TextFault::TwoInitial(at)),
        Err(_) => unreachable!(),
    }
}

// Adds a declared state.
fn add_state(
    builder: &mut LtsBuilder,
    bytes: &[u8],
    state: StateEntry<Token>,
) -> Result<(), TextFault>
    requires { IsStateOf bytes.now state }
    ensures ok { OnOk result ((before : List (StateEntry Lexeme)) → HasStates before builder.old
        → (state_fault before (state_in bytes.now state) ≡ None) × HasStates (before ++ state_in bytes.now state ∷ []) builder.new) }
    ensures fault { IfErr result (λ f. f ≢ fault.NoMemory → (before : List (StateEntry Lexeme)) → HasStates before builder.old
        → state_fault before (state_in bytes.now state) ≡ Some f) }
{
    let name = name_of(bytes, state.name);
    add_name(builder, name, state.name.from)?;
    if state.initial {
        mark(builder, name, state.name.from)?;
    }
    Ok(())
}

// Adds all declared states.
fn add_states(
    builder: &mut LtsBuilder,
    bytes: &[u8],
    states: &[StateEntry<Token>],
) -> Result<(), TextFault>
    requires names { All (IsStateOf bytes.now) states.now }
    requires blank { builder.old ≡ blank }
    ensures none { OnOk result (AreNone (faults_after state_fault [] (states_in bytes.now states.now))) }
    ensures has { OnOk result (HasStates (states_in bytes.now states.now) builder.new) }
    ensures fault { IfErr result (λ f. f ≢ fault.NoMemory → IsFirst (faults_after state_fault [] (states_in bytes.now states.now)) f) }
{
    for state in states {
        add_state(builder, bytes, *state)?;
    }
    Ok(())
}

// Adds a declared label.
fn add_label(builder: &mut LtsBuilder, bytes: &[u8], label: Token) -> Result<(), TextFault>
    requires { IsNameOf bytes.now label }
    ensures added { OnOk result (builder.new ≡ record builder.old { label_names = builder.old.label_names ++ (lexeme bytes.now label).text ∷ [] }) }
    ensures new { OnOk result (IsNewName builder.old.label_names most_labels (lexeme bytes.now label).text) }
    ensures fault { IfErr result (λ f. f ≢ fault.NoMemory
        → IsNameFault builder.old.label_names most_labels (lexeme bytes.now label).text (fault.TwiceLabel label.from) (fault.TooManyLabels label.from) f) }
    ensures memory { IsErrOf result fault.NoMemory → ¬ Contains builder.old.label_names (lexeme bytes.now label).text }
    ensures room { IsErrOf result fault.NoMemory → ¬ (most_labels ≤ length builder.old.label_names) }
{
    match builder.label(name_of(bytes, label)) {
        Ok(_) => Ok(()),
        Err(BuildFault::TwiceLabel) => Err(TextFault::TwiceLabel(label.from)),
        Err(BuildFault::TooManyLabels) => Err(TextFault::TooManyLabels(label.from)),
        Err(BuildFault::NoMemory) => Err(TextFault::NoMemory),
        Err(_) => unreachable!(),
    }
}

// Adds all declared labels.
fn add_labels(builder: &mut LtsBuilder, bytes: &[u8], labels: &[Token]) -> Result<(), TextFault>
    requires names { All (IsNameOf bytes.now) labels.now }
    requires blank { builder.old.label_names ≡ [] }
    ensures none { OnOk result (AreNone (faults_after label_fault [] (labels_in bytes.now labels.now))) }
    ensures has { OnOk result (builder.new ≡ record builder.old { label_names = map label_text (labels_in bytes.now labels.now) }) }
    ensures fault { IfErr result (λ f. f ≢ fault.NoMemory → IsFirst (faults_after label_fault [] (labels_in bytes.now labels.now)) f) }
{
    for label in labels {
        add_label(builder, bytes, *label)?;
    }
    Ok(())
}

// The arc with these names, or the fault of the first of them that isn't there.
fn known_arc(
    builder: &LtsBuilder,
    from: &str,
    label: &str,
    to: &str,
    arc: ArcNames<Token>,
) -> Result<Arc, TextFault>
    ensures ok { IfOk result (IsArcNamed builder.now from.now label.now to.now) }
    ensures fault { IfErr result (λ f. IsUnknown builder.now from.now label.now to.now arc.from.from arc.label.from arc.to.from f) }
{
    let Some(from) = builder.state_number(from) else {
        return Err(TextFault::UnknownState(arc.from.from));
    };
    let Some(label) = builder.label_number(label) else {
        return Err(TextFault::UnknownLabel(arc.label.from));
    };
    let Some(to) = builder.state_number(to) else {
        return Err(TextFault::UnknownState(arc.to.from));
    };
    Ok(Arc { from, label, to })
}

// Adds a declared arc.
fn add_arc(builder: &mut LtsBuilder, bytes: &[u8], arc: ArcNames<Token>) -> Result<(), TextFault>
    requires { IsArcOf bytes.now arc }
    ensures known { OnOk result (HasNamesOf builder.old (arc_in bytes.now arc)) }
    ensures added { OnOk result ((a : Arc) × IsArcOfNames builder.old (arc_in bytes.now arc) a × AddsArc builder.old builder.new a) }
    ensures within { OnOk result (¬ IsOverLimit builder.old (arc_in bytes.now arc)) }
    ensures formed { OnOk result (IsWellFormedDraft builder.old) }
    ensures fault { IfErr result (λ f. f ≢ fault.NoMemory → IsUnknownOf builder.old (arc_in bytes.now arc) f
        ⊎ ((f ≡ fault.TooManyArcs arc.from.from) × IsOverLimit builder.old (arc_in bytes.now arc) × IsWellFormedDraft builder.old)) }
    ensures memory { IsErrOf result fault.NoMemory → HasNamesOf builder.old (arc_in bytes.now arc) }
    ensures room { IsErrOf result fault.NoMemory → ¬ IsOverLimit builder.old (arc_in bytes.now arc) }
{
    let from = name_of(bytes, arc.from);
    let label = name_of(bytes, arc.label);
    let to = name_of(bytes, arc.to);
    let known = known_arc(builder, from, label, to, arc)?;
    match builder.arc_between(known) {
        Ok(()) => Ok(()),
        Err(BuildFault::TooManyArcs) => Err(TextFault::TooManyArcs(arc.from.from)),
        Err(BuildFault::NoMemory) => Err(TextFault::NoMemory),
        Err(_) => unreachable!(),
    }
}

// Adds all declared arcs.
fn add_arcs(
    builder: &mut LtsBuilder,
    bytes: &[u8],
    arcs: &[ArcNames<Token>],
) -> Result<(), TextFault>
    requires { All (IsArcOf bytes.now) arcs.now }
    ensures ok { OnOk result ((d : Declared) → HasLabels d.states d.labels builder.old
        → AreNone (faults_after (arc_fault d) [] (arcs_in bytes.now arcs.now)) × HasArcs d (arcs_in bytes.now arcs.now) builder.new) }
    ensures fault { IfErr result (λ f. f ≢ fault.NoMemory → (d : Declared) → HasLabels d.states d.labels builder.old
        → IsFirst (faults_after (arc_fault d) [] (arcs_in bytes.now arcs.now)) f) }
{
    for arc in arcs {
        add_arc(builder, bytes, *arc)?;
    }
    Ok(())
}

/// Returns the system of what is declared, or the first fault of it: `NoType`, then by state `TwiceState`,
/// `TooManyStates` or `TwoInitial`, then by label `TwiceLabel` or `TooManyLabels`, then by arc `UnknownState`,
/// `UnknownLabel` or `TooManyArcs`, then `NoInitial`.
pub fn build(alloc: Global, bytes: &[u8], found: &Found) -> Result<Lts, TextFault>
    requires { HoldsNames bytes.now found.now }
    ensures none { IfOk result (λ lts. AreNone (faults (found_in bytes.now found.now))) }
    ensures system { IfOk result (λ lts. IsSystemOf (found_in bytes.now found.now) lts) }
    ensures fault { IfErr result (λ f. f ≢ fault.NoMemory → IsFirst (faults (found_in bytes.now found.now)) f) }
{
    if !found.typed {
        return Err(TextFault::NoType);
    }
    let mut builder = LtsBuilder::new(alloc);
    add_states(&mut builder, bytes, &found.states)?;
    add_labels(&mut builder, bytes, &found.labels)?;
    add_arcs(&mut builder, bytes, &found.arcs)?;
    match builder.finish() {
        Ok(lts) => Ok(lts),
        Err(BuildFault::NoInitial) => Err(TextFault::NoInitial),
        Err(BuildFault::NoMemory) => Err(TextFault::NoMemory),
        Err(_) => unreachable!(),
    }
}

//! The text of a state graph.
ghost use Rattle.std.specs.Prelude.{◌≡◌, ◌↔◌, ◌==◌, ◌||◌, ◌++◌, ◌∷◌, [], ℕ, All, map, IfNone, IfOk, IfSome, IsErrOf, OnOk};
ghost use Rattle.std.specs.List.{list_any};
ghost use Rattle.rg_theory.specs.declared.Arc as theory;
ghost use Rattle.rg_genet.specs.Loss.{IsFirstDead, IsFirstLost, IsLabelKept, IsStateKept};
ghost use Rattle.rg_genet.specs.declared.fault.GraphLoss.TheVariants as loss;
ghost use Rattle.rg_text.specs.Line.{fed};
ghost use Rattle.rg_theory.specs.System.{System, IsArcInRange};
ghost use Rattle.rg_lts.specs.WellFormed.{IsWellFormed};
ghost use Rattle.rg_genet.specs.Same.{IsSameByNames};
ghost use Rattle.rg_genet.specs.Spells.{Spells};
ghost use Rattle.rg_genet.specs.Text.{names_of, triple_text, graph_text, labels_text};

use crate::fault::GraphLoss;
use rg_lts::{Arc, Lts};
use rg_memory::NoMemory;
use std::alloc::Global;

/// Returns the text of the system as a state graph, of lines that a line feed ends, each of them the last one too:
/// `.model lts`; `.outputs` with each label after a space; `.state graph`; a line for each arc, the names of the
/// state that it leaves, of its label and of the state that it enters, with one space between; `.marking {NAME}` with
/// the initial state's name; `.end`. It spells a system with the same names, initial state and arcs between names;
/// numbers may differ, since `read_graph` numbers states and labels in the order of the arcs. Returns `Label` if a
/// label has no arc; else `State` if there are two states or more and one is on no arc; else `NoMemory`.
pub fn print_graph(alloc: Global, lts: &Lts) -> Result<Vec<u8>, GraphLoss>
    ensures text { IfOk result (λ text. text.items ≡ graph_text lts.now) }
    ensures read_again { IfOk result (λ text. (read : System) × Spells text.items read × IsSameByNames lts.now read) }
    ensures kept { OnOk result (IsLabelKept lts.now × IsStateKept lts.now) }
    ensures label { (t : ℕ) → IsErrOf result (loss.Label t) ↔ IsFirstDead lts.now t }
    ensures state { (s : ℕ) → IsErrOf result (loss.State s) ↔ IsFirstLost lts.now s }
{
    if let Some(t) = dead_label(lts) {
        return Err(GraphLoss::Label(t));
    }
    if let Some(s) = lost_state(lts) {
        return Err(GraphLoss::State(s));
    }
    let mut text = Vec::new(alloc);
    push_graph(&mut text, lts)?;
    Ok(text)
}

// Adds the text.
fn push_graph(text: &mut Vec<u8>, lts: &Lts) -> Result<(), NoMemory>
    ensures text { OnOk result (text.new.items ≡ text.old.items ++ graph_text lts.now) }
    ensures well_formed { OnOk result (IsWellFormed lts.now) }
{
    text.extend_from_slice(b".model lts\n.outputs")?;
    push_labels(text, lts)?;
    text.extend_from_slice(b"\n.state graph\n")?;
    push_arcs(text, lts, lts.arcs())?;
    text.extend_from_slice(b".marking {")?;
    text.extend_from_slice(lts.state_name(lts.initial()).as_bytes())?;
    text.extend_from_slice(b"}\n.end\n")?;
    Ok(())
}

// Adds each label after a space.
fn push_labels(text: &mut Vec<u8>, lts: &Lts) -> Result<(), NoMemory>
    ensures { OnOk result (text.new.items ≡ text.old.items ++ labels_text lts.now.label_names) }
{
    for t in 0..lts.labels() {
        text.push(b' ')?;
        text.extend_from_slice(lts.label_name(t).as_bytes())?;
    }
    Ok(())
}

// Adds a line for each of these arcs.
fn push_arcs(text: &mut Vec<u8>, lts: &Lts, arcs: &[Arc]) -> Result<(), NoMemory>
    requires { All (IsArcInRange lts.now) arcs.now }
    ensures { OnOk result (text.new.items ≡ text.old.items ++ fed (map (λ a. triple_text (names_of lts.now a)) arcs.now)) }
{
    for a in arcs {
        push_arc(text, lts, *a)?;
    }
    Ok(())
}

// The first label without an arc.
fn dead_label(lts: &Lts) -> Option<u32>
    ensures some { IfSome result (IsFirstDead lts.now) }
    ensures none { IfNone result (IsLabelKept lts.now) }
{
    let arcs = lts.arcs();
    for t in 0..lts.labels() {
        if !has_label(arcs, t) {
            return Some(t);
        }
    }
    None
}

// Whether an arc has the label.
fn has_label(arcs: &[Arc], t: u32) -> bool
    ensures { result ≡ list_any (λ (a : theory.Arc). a.label == t) arcs.now }
{
    arcs.iter().any(|a| a.label == t)
}

// The first state on no arc, of two states or more.
fn lost_state(lts: &Lts) -> Option<u32>
    requires { IsLabelKept lts.now }
    ensures some { IfSome result (IsFirstLost lts.now) }
    ensures none { IfNone result (IsStateKept lts.now) }
{
    let arcs = lts.arcs();
    let states = lts.states();
    if states < 2 {
        return None;
    }
    for s in 0..states {
        if !is_on_arc(arcs, s) {
            return Some(s);
        }
    }
    None
}

// Whether an arc leaves the state or enters it.
fn is_on_arc(arcs: &[Arc], s: u32) -> bool
    ensures { result ≡ list_any (λ (a : theory.Arc). (a.from == s) || (a.to == s)) arcs.now }
{
    arcs.iter().any(|a| a.from == s || a.to == s)
}

// Adds the line of an arc.
fn push_arc(text: &mut Vec<u8>, lts: &Lts, arc: Arc) -> Result<(), NoMemory>
    requires { IsArcInRange lts.now arc }
    ensures { OnOk result (text.new.items ≡ text.old.items ++ (triple_text (names_of lts.now arc) ++ 10 ∷ [])) }
{
    text.extend_from_slice(lts.state_name(arc.from).as_bytes())?;
    text.push(b' ')?;
    text.extend_from_slice(lts.label_name(arc.label).as_bytes())?;
    text.push(b' ')?;
    text.extend_from_slice(lts.state_name(arc.to).as_bytes())?;
    text.push(b'\n')?;
    Ok(())
}

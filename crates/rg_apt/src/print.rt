//! The text of a system.
ghost use Rattle.std.specs.Prelude.{◌≡◌, ◌++◌, ◌∷◌, [], map, All, codes, if◌then◌else◌, IfOk, OnOk};
ghost use Rattle.rg_text.specs.Line.{fed};
ghost use Rattle.rg_theory.specs.System.{IsArcInRange};
ghost use Rattle.rg_apt.specs.Plain.{state_line, state_lines, arc_line, lts_text};
ghost use Rattle.rg_apt.specs.Spells.{Spells};

use rg_lts::{Arc, Lts};
use rg_memory::NoMemory;
use std::alloc::Global;

/// Returns the text of the system in the plain layout, a text of lines that a line feed ends, each of them the last
/// one too: `.type LTS`; `.states`, and a line for each state, its name, and directly after that of the initial state
/// `[initial]`; `.labels`, and a line for each label, its name; `.arcs`, and a line for each arc, the names of the
/// state that it leaves, of its label and of the state that it enters, with one space between. `read_lts` reads it as
/// the same system. Returns `NoMemory` if the text doesn't fit into memory.
pub fn print_lts(alloc: Global, lts: &Lts) -> Result<Vec<u8>, NoMemory>
    ensures text { IfOk result (λ text. text.items ≡ lts_text lts.now) }
    ensures read_again { IfOk result (λ text. Spells text.items lts.now) }
{
    let mut text = Vec::new(alloc);
    text.extend_from_slice(b".type LTS\n.states\n")?;
    push_states(&mut text, lts)?;
    text.extend_from_slice(b".labels\n")?;
    push_labels(&mut text, lts)?;
    text.extend_from_slice(b".arcs\n")?;
    push_arcs(&mut text, lts, lts.arcs())?;
    Ok(text)
}

// A line for each state.
fn push_states(text: &mut Vec<u8>, lts: &Lts) -> Result<(), NoMemory>
    ensures { OnOk result (text.new.items ≡ text.old.items ++ fed (state_lines lts.now.initial 0 lts.now.state_names)) }
{
    let initial = lts.initial();
    for s in 0..lts.states() {
        push_state(text, lts.state_name(s).as_bytes(), s == initial)?;
    }
    Ok(())
}

// The line of a state, with its mark or without.
fn push_state(text: &mut Vec<u8>, name: &[u8], initial: bool) -> Result<(), NoMemory>
    ensures { OnOk result (text.new.items ≡ text.old.items ++ ((if initial then name.now ++ codes "[initial]" else name.now) ++ 10 ∷ [])) }
{
    text.extend_from_slice(name)?;
    if initial {
        text.extend_from_slice(b"[initial]")?;
    }
    text.push(b'\n')?;
    Ok(())
}

// A line for each label, with its name.
fn push_labels(text: &mut Vec<u8>, lts: &Lts) -> Result<(), NoMemory>
    ensures { OnOk result (text.new.items ≡ text.old.items ++ fed lts.now.label_names) }
{
    for t in 0..lts.labels() {
        text.extend_from_slice(lts.label_name(t).as_bytes())?;
        text.push(b'\n')?;
    }
    Ok(())
}

// A line for each of these arcs.
fn push_arcs(text: &mut Vec<u8>, lts: &Lts, arcs: &[Arc]) -> Result<(), NoMemory>
    requires { All (IsArcInRange lts.now) arcs.now }
    ensures { OnOk result (text.new.items ≡ text.old.items ++ fed (map (arc_line lts.now) arcs.now)) }
{
    for arc in arcs {
        push_arc(text, lts, *arc)?;
    }
    Ok(())
}

// The line of an arc.
fn push_arc(text: &mut Vec<u8>, lts: &Lts, arc: Arc) -> Result<(), NoMemory>
    requires { IsArcInRange lts.now arc }
    ensures { OnOk result (text.new.items ≡ text.old.items ++ (arc_line lts.now arc ++ 10 ∷ [])) }
{
    text.extend_from_slice(lts.state_name(arc.from).as_bytes())?;
    text.push(b' ')?;
    text.extend_from_slice(lts.label_name(arc.label).as_bytes())?;
    text.push(b' ')?;
    text.extend_from_slice(lts.state_name(arc.to).as_bytes())?;
    text.push(b'\n')?;
    Ok(())
}

//! The text of a net whose transitions have labels.
ghost use Rattle.std.specs.Prelude.{◌≡◌, ◌++◌, ◌∷◌, [], ◌<◌, Some, length, All, slice_get, IfOk, OnOk};
ghost use Rattle.rg_text.specs.Line.{fed};
ghost use Rattle.rg_theory.specs.System.{labels};
ghost use Rattle.rg_netfile.specs.LabelledTexts.{labelled_line, labelled_lines, named_labels, labelled_text};

use crate::prefix::free_prefix;
use crate::print::{push_flows, push_marking, push_places};
use rg_lts::Lts;
use rg_memory::NoMemory;
use rg_net::Net;
use std::alloc::Global;

/// Returns the text of the net in the shape of APT's files of labelled nets: that of `print_net` for `system`, whose
/// labels are the transitions, with `.type LPN`, and each transition is followed by its label, as `a_2[label="a"]`.
/// Transition `t` has label number `old[t]` of `lts`. Returns `NoMemory` if the text doesn't fit into memory.
pub fn print_labelled(
    alloc: Global,
    net: &Net,
    system: &Lts,
    old: &[u32],
    lts: &Lts,
) -> Result<Vec<u8>, NoMemory>
    requires transitions { net.now.labels ≡ labels system.now }
    requires each { length old.now ≡ labels system.now }
    requires within { All (λ t. t < labels lts.now) old.now }
    ensures { IfOk result (λ text. text.items ≡ labelled_text net.now system.now (named_labels lts.now old.now)) }
{
    let prefix = free_prefix(alloc, system)?;
    let mut text = Vec::new(alloc);
    text.extend_from_slice(b".type LPN\n.places\n")?;
    push_places(&mut text, &prefix, net.places().len())?;
    text.extend_from_slice(b".transitions\n")?;
    push_labelled(&mut text, system, old, lts)?;
    text.extend_from_slice(b".flows\n")?;
    push_flows(alloc, &mut text, &prefix, net, system)?;
    push_marking(alloc, &mut text, &prefix, net)?;
    Ok(text)
}

// A line for each label of the system, with its name and the name of its label in the other.
fn push_labelled(text: &mut Vec<u8>, system: &Lts, old: &[u32], lts: &Lts) -> Result<(), NoMemory>
    requires each { length old.now ≡ labels system.now }
    requires within { All (λ t. t < labels lts.now) old.now }
    ensures { OnOk result (text.new.items ≡ text.old.items ++ fed (labelled_lines system.now.label_names (named_labels lts.now old.now))) }
{
    for t in 0..system.labels() {
        let label = lts.label_name(old[t as usize]);
        push_line(text, system.label_name(t).as_bytes(), label.as_bytes())?;
    }
    Ok(())
}

// The line of a transition with its label.
fn push_line(text: &mut Vec<u8>, name: &[u8], label: &[u8]) -> Result<(), NoMemory>
    ensures { OnOk result (text.new.items ≡ text.old.items ++ (labelled_line name.now label.now ++ 10 ∷ [])) }
{
    text.extend_from_slice(name)?;
    text.extend_from_slice(b"[label=\"")?;
    text.extend_from_slice(label)?;
    text.extend_from_slice(b"\"]\n")?;
    Ok(())
}

//! The text of a net.
ghost use Rattle.std.specs.Prelude.{◌≡◌, ◌++◌, ◌∷◌, [], ℕ, map, IfOk, OnOk, codes};
ghost use Rattle.std.specs.List.{range_with_len};
ghost use Rattle.rg_text.specs.Line.{fed};
ghost use Rattle.rg_theory.specs.Net.{Net};
ghost use Rattle.rg_theory.specs.System.{labels};
ghost use Rattle.rg_net.specs.NetText.{place_name, set_text, flow_line, flow_lines, starts, net_text};
ghost use Rattle.rg_netfile.specs.ListedSets.{IsFlow};

use crate::flows::{Flow, flows_of, starts};
use crate::prefix::free_prefix;
use crate::sets::{push_place, push_set};
use rg_lts::Lts;
use rg_memory::NoMemory;
use rg_net::Net;
use std::alloc::Global;

/// Returns the text of the net in the shape of APT's net files: the names of its places, its transitions (the
/// system's labels, in order), the flow of each, and the initial marking. A place is named by a prefix and its
/// number, and the prefix is the first of `p`, `p1_`, `p2_`, .. that followed by a number is no label. The net has a
/// transition for each label of the system. Returns `NoMemory` if the text doesn't fit into memory.
pub fn print_net(alloc: Global, net: &Net, lts: &Lts) -> Result<Vec<u8>, NoMemory>
    requires { net.now.labels ≡ labels lts.now }
    ensures { IfOk result (λ text. text.items ≡ net_text net.now lts.now) }
{
    let prefix = free_prefix(alloc, lts)?;
    let mut text = Vec::new(alloc);
    text.extend_from_slice(b".type PN\n.places\n")?;
    push_places(&mut text, &prefix, net.places().len())?;
    text.extend_from_slice(b".transitions\n")?;
    push_transitions(&mut text, lts)?;
    text.extend_from_slice(b".flows\n")?;
    push_flows(alloc, &mut text, &prefix, net, lts)?;
    push_marking(alloc, &mut text, &prefix, net)?;
    Ok(text)
}

// A line for each of so many places, with its name.
pub(crate) fn push_places(text: &mut Vec<u8>, prefix: &[u8], count: usize) -> Result<(), NoMemory>
    ensures { OnOk result (text.new.items ≡ text.old.items ++ fed (map (place_name prefix.now) (range_with_len 0 count))) }
{
    for i in 0..count {
        push_place(text, prefix, i)?;
        text.push(b'\n')?;
    }
    Ok(())
}

// A line for each label, with its name.
fn push_transitions(text: &mut Vec<u8>, lts: &Lts) -> Result<(), NoMemory>
    ensures { OnOk result (text.new.items ≡ text.old.items ++ fed lts.now.label_names) }
{
    for t in 0..lts.labels() {
        text.extend_from_slice(lts.label_name(t).as_bytes())?;
        text.push(b'\n')?;
    }
    Ok(())
}

// A line for each label, with its flow.
pub(crate) fn push_flows(
    alloc: Global,
    text: &mut Vec<u8>,
    prefix: &[u8],
    net: &Net,
    lts: &Lts,
) -> Result<(), NoMemory>
    requires { net.now.labels ≡ labels lts.now }
    ensures { OnOk result (text.new.items ≡ text.old.items ++ fed (flow_lines prefix.now net.now 0 lts.now.label_names)) }
{
    let flows = flows_of(alloc, net)?;
    for t in 0..lts.labels() {
        push_flow(
            text,
            prefix,
            lts.label_name(t).as_bytes(),
            &flows[t as usize],
        )?;
    }
    Ok(())
}

// The line with the flow of a label.
fn push_flow(text: &mut Vec<u8>, prefix: &[u8], name: &[u8], flow: &Flow) -> Result<(), NoMemory>
    ensures { OnOk result ((net : Net) (t : ℕ) → IsFlow net t flow.now → text.new.items ≡ text.old.items ++ (flow_line prefix.now net t name.now ++ 10 ∷ [])) }
{
    text.extend_from_slice(name)?;
    text.extend_from_slice(b": ")?;
    push_set(text, prefix, &flow.taken)?;
    text.extend_from_slice(b" -> ")?;
    push_set(text, prefix, &flow.put)?;
    text.push(b'\n')?;
    Ok(())
}

// The line with the initial marking.
pub(crate) fn push_marking(
    alloc: Global,
    text: &mut Vec<u8>,
    prefix: &[u8],
    net: &Net,
) -> Result<(), NoMemory>
    ensures { OnOk result (text.new.items ≡ text.old.items ++ (codes ".initial_marking " ++ set_text prefix.now (starts net.now) ++ 10 ∷ [])) }
{
    let marked = starts(alloc, net)?;
    text.extend_from_slice(b".initial_marking ")?;
    push_set(text, prefix, &marked)?;
    text.push(b'\n')?;
    Ok(())
}

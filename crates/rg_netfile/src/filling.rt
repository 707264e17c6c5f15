//! The numbers of a net, flow by flow and member by member.
ghost use Rattle.std.specs.Prelude.{◌≡◌, ◌∷◌, [], ◌++◌, map, All, IfErr, OnOk};
ghost use Rattle.std.specs.List.{flat_map};
ghost use Rattle.rg_net_grammar.specs.View.{member_in, members_in, flow_in, flows_in, found_in, IsMemberOf, IsFlowOf, HoldsNames};
ghost use Rattle.rg_netfile.specs.Contents.{Cell, adds, steps_of_flow, steps};
ghost use Rattle.rg_netfile.specs.Built.{IsSlotIn, IsSlotFor, SameSize, Fits, Passes, Stops};

use crate::fault::NetFault;
use crate::known::Known;
use crate::numbers::{count_of, member_at};
use crate::slot::Slot;
use crate::sums::Sums;
use rg_grammar::name_of;
use rg_lexer::Token;
use rg_net_grammar::{Found, FoundFlow, Member};

// Adds a member to a number of its place.
fn add_member(
    sums: &mut Sums,
    known: &Known,
    bytes: &[u8],
    slot: Slot,
    member: Member<Token>,
) -> Result<(), NetFault>
    requires member { IsMemberOf bytes.now member }
    requires fits { Fits known.now sums.old }
    requires slot { IsSlotIn sums.old.labels slot }
    ensures same { OnOk result (SameSize sums.old sums.new) }
    ensures ok { OnOk result ((cell : Cell) → IsSlotFor known.now slot cell → Passes known.now (adds cell (member_in bytes.now member) ∷ []) sums.old sums.new) }
    ensures fault { IfErr result (λ f. (cell : Cell) → IsSlotFor known.now slot cell → Stops known.now (adds cell (member_in bytes.now member) ∷ []) sums.old f) }
{
    let count = count_of(bytes, member)?;
    match known.place(name_of(bytes, member.place)) {
        Some(i) => sums.add(i, slot, count, member_at(member)),
        None => Err(NetFault::UnknownPlace(member.place.from)),
    }
}

// Adds all members of a set.
fn add_members(
    sums: &mut Sums,
    known: &Known,
    bytes: &[u8],
    slot: Slot,
    members: &[Member<Token>],
) -> Result<(), NetFault>
    requires members { All (IsMemberOf bytes.now) members.now }
    requires fits { Fits known.now sums.old }
    requires slot { IsSlotIn sums.old.labels slot }
    ensures same { OnOk result (SameSize sums.old sums.new) }
    ensures ok { OnOk result ((cell : Cell) → IsSlotFor known.now slot cell → Passes known.now (map (adds cell) (members_in bytes.now members.now)) sums.old sums.new) }
    ensures fault { IfErr result (λ f. (cell : Cell) → IsSlotFor known.now slot cell → Stops known.now (map (adds cell) (members_in bytes.now members.now)) sums.old f) }
{
    for member in members {
        add_member(sums, known, bytes, slot, *member)?;
    }
    Ok(())
}

// Adds the two sets of a flow.
fn add_flow(sums: &mut Sums, known: &Known, bytes: &[u8], flow: &FoundFlow) -> Result<(), NetFault>
    requires flow { IsFlowOf bytes.now flow.now }
    requires fits { Fits known.now sums.old }
    ensures same { OnOk result (SameSize sums.old sums.new) }
    ensures ok { OnOk result (Passes known.now (steps_of_flow (flow_in bytes.now flow.now)) sums.old sums.new) }
    ensures fault { IfErr result (λ f. Stops known.now (steps_of_flow (flow_in bytes.now flow.now)) sums.old f) }
{
    match known.label(name_of(bytes, flow.name)) {
        Some(t) => {
            add_members(sums, known, bytes, Slot::Taken(t), &flow.pre)?;
            add_members(sums, known, bytes, Slot::Put(t), &flow.post)
        }
        None => Err(NetFault::UnknownTransition(flow.name.from)),
    }
}

// Adds all flows.
fn add_flows(
    sums: &mut Sums,
    known: &Known,
    bytes: &[u8],
    flows: &[FoundFlow],
) -> Result<(), NetFault>
    requires flows { All (IsFlowOf bytes.now) flows.now }
    requires fits { Fits known.now sums.old }
    ensures same { OnOk result (SameSize sums.old sums.new) }
    ensures ok { OnOk result (Passes known.now (flat_map steps_of_flow (flows_in bytes.now flows.now)) sums.old sums.new) }
    ensures fault { IfErr result (λ f. Stops known.now (flat_map steps_of_flow (flows_in bytes.now flows.now)) sums.old f) }
{
    for flow in flows {
        add_flow(sums, known, bytes, flow)?;
    }
    Ok(())
}

// Adds all flows and then the initial markings.
pub(crate) fn fill(
    sums: &mut Sums,
    known: &Known,
    bytes: &[u8],
    found: &Found,
) -> Result<(), NetFault>
    requires names { HoldsNames bytes.now found.now }
    requires fits { Fits known.now sums.old }
    ensures same { OnOk result (SameSize sums.old sums.new) }
    ensures ok { OnOk result (Passes known.now (steps (found_in bytes.now found.now)) sums.old sums.new) }
    ensures fault { IfErr result (λ f. Stops known.now (steps (found_in bytes.now found.now)) sums.old f) }
{
    add_flows(sums, known, bytes, &found.flows)?;
    add_members(sums, known, bytes, Slot::Start, &found.marking)
}

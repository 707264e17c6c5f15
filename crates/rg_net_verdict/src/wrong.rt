//! The labels at the states.
ghost use Rattle.std.specs.Prelude.{◌≡◌, ◌↔◌, ◌<◌, IsTrue, IfSome, IfNone};
ghost use Rattle.rg_theory.specs.System.{states, labels, HasArc};
ghost use Rattle.rg_theory.specs.Net.{Fires, IsEnabled};
ghost use Rattle.rg_theory.specs.Solves.{marking_of};
ghost use Rattle.rg_net.specs.ClassBreaks.{shown_markings};
ghost use Rattle.rg_net_verdict.specs.Marked.{IsMarked};
ghost use Rattle.rg_net_verdict.specs.Verdict.{IsRightAt, AreRightBefore};
ghost use Rattle.rg_net_verdict.specs.Wrong.{IsWrongAt, IsFirstWrong};

use crate::flow::Flow;
use crate::moves::{allows, leads};
use crate::verdict::NetNo;
use rg_lts::Lts;
use rg_net::Net;
use rg_spanning::TreeArcs;
use rg_theory::Arc;

// A system with its tree's arcs, a net with the places of each label, and the markings of the states.
#[derive(Clone, Copy)]
pub(crate) struct Marked<'a> {
    pub lts: &'a Lts,
    pub tree: &'a TreeArcs,
    pub net: &'a Net,
    pub flows: &'a [Vec<Flow>],
    pub rows: &'a [Vec<u128>],
}

// The first label at a state at which the net and the system differ.
pub(crate) fn first_wrong(marked: Marked<'_>) -> Option<NetNo>
    requires { IsMarked marked }
    ensures some { IfSome result (IsFirstWrong marked.entry.lts.now marked.entry.net.now (marking_of (shown_markings marked.entry.rows.now))) }
    ensures none { IfNone result (AreRightBefore marked.entry.lts.now marked.entry.net.now (marking_of (shown_markings marked.entry.rows.now)) (states marked.entry.lts.now) 0) }
{
    for s in 0..marked.lts.states() {
        if let Some(no) = first_wrong_at(marked, s) {
            return Some(no);
        }
    }
    None
}

// The first label at the state, while all labels at earlier states are right.
fn first_wrong_at(marked: Marked<'_>, s: u32) -> Option<NetNo>
    requires marked { IsMarked marked }
    requires state { s < states marked.lts.now }
    requires before { AreRightBefore marked.lts.now marked.net.now (marking_of (shown_markings marked.rows.now)) s 0 }
    ensures some { IfSome result (IsFirstWrong marked.entry.lts.now marked.entry.net.now (marking_of (shown_markings marked.entry.rows.now))) }
    ensures none { IfNone result (AreRightBefore marked.entry.lts.now marked.entry.net.now (marking_of (shown_markings marked.entry.rows.now)) s (labels marked.entry.lts.now)) }
{
    for t in 0..marked.lts.labels() {
        if let Some(no) = wrong_at(marked, s, t) {
            return Some(no);
        }
    }
    None
}

// What is wrong with the label at the state. An arc of the tree is right, since its target got its marking along it.
fn wrong_at(marked: Marked<'_>, s: u32, t: u32) -> Option<NetNo>
    requires marked { IsMarked marked }
    requires state { s < states marked.lts.now }
    requires label { t < labels marked.lts.now }
    ensures some { IfSome result (IsWrongAt marked.entry.lts.now marked.entry.net.now (marking_of (shown_markings marked.entry.rows.now)) s t) }
    ensures none { IfNone result (IsRightAt marked.entry.lts.now marked.entry.net.now (marking_of (shown_markings marked.entry.rows.now)) s t) }
{
    match marked.lts.arc_at(s, t) {
        None if is_enabled(marked, s, t) => Some(NetNo::Enabled(s, t)),
        None => None,
        Some(to) if is_grown(marked, s, t, to) => None,
        Some(to) if is_step(marked, s, t, to) => None,
        Some(_) if is_enabled(marked, s, t) => Some(NetNo::WrongStep(s, t)),
        Some(_) => Some(NetNo::NotEnabled(s, t)),
    }
}

// Whether the tree has this arc.
fn is_grown(marked: Marked<'_>, s: u32, t: u32, to: u32) -> bool
    requires marked { IsMarked marked }
    requires arc { HasArc marked.lts.now s t to }
    ensures { IsTrue result → Fires marked.entry.net.now (marking_of (shown_markings marked.entry.rows.now) s) t (marking_of (shown_markings marked.entry.rows.now) to) }
{
    match marked.tree.parents[to as usize] {
        Some(a) => a.from == s && a.label == t,
        None => false,
    }
}

// Whether the label is enabled at the state.
fn is_enabled(marked: Marked<'_>, s: u32, t: u32) -> bool
    requires marked { IsMarked marked }
    requires state { s < states marked.lts.now }
    requires label { t < labels marked.lts.now }
    ensures { IsTrue result ↔ IsEnabled marked.entry.net.now (marking_of (shown_markings marked.entry.rows.now) s) t }
{
    allows(&marked.flows[t as usize], &marked.rows[s as usize])
}

// Whether the label is enabled at the state and its firing leads along the arc.
fn is_step(marked: Marked<'_>, s: u32, t: u32, to: u32) -> bool
    requires marked { IsMarked marked }
    requires arc { HasArc marked.lts.now s t to }
    ensures { IsTrue result ↔ Fires marked.entry.net.now (marking_of (shown_markings marked.entry.rows.now) s) t (marking_of (shown_markings marked.entry.rows.now) to) }
{
    let flow = &marked.flows[t as usize];
    leads(flow, &marked.rows[s as usize], &marked.rows[to as usize])
}

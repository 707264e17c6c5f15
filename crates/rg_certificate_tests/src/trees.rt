//! That trees are grown, and what an unreachable state answers.
ghost use Rattle.rg_spanning.specs.Spanning.{IsTreeOf};

use rg_lts::Lts;
use rg_samples::system;
use rg_spanning::{GrowStop, Tree, TreeArcs};
use rg_theory::Arc;
use std::alloc::Global;

// Two states without an arc.
const NO_ARC: &str = ".type LTS .states s0[initial] s1 .labels a .arcs";

// Two users who ask for a lock, get it and put it back, user by user. A state says what each does: i is idle, w
// waits, c has the lock.
const LOCK_BY_USERS: &str =
    ".type LTS .states ii[initial] iw ic wi ww wc ci cw .labels ask1 get1 put1 ask2 get2 put2 .arcs ii ask1 wi iw ask1 ww ic ask1 wc wi get1 ci ww get1 cw ci put1 ii cw put1 iw ii ask2 iw wi ask2 ww ci ask2 cw iw get2 ic ww get2 wc ic put2 ii wc put2 wi";

// The arc (from, label, to).
fn arc(from: u32, label: u32, to: u32) -> Arc {
    Arc { from, label, to }
}

// Why no tree is grown of the system that a text spells.
fn stop_of(alloc: Global, text: &str) -> Option<GrowStop> {
    let lts = system(alloc, text)?;
    match Tree::grow(alloc, &lts) {
        Ok(_) => None,
        Err(stop) => Some(stop),
    }
}

#[test]
fn tells_the_least_unreachable_state(rt: HostRuntime) {
    assert!(rt; stop_of(rt.alloc(), NO_ARC) == Some(GrowStop::Unreachable(1)));
}

// Whether the right tree is grown of the system of the lock.
fn is_grown(alloc: Global) -> bool {
    let Some(lts) = system(alloc, LOCK_BY_USERS) else {
        return false;
    };
    match Tree::grow(alloc, &lts) {
        Ok(tree) => is_right(&lts, &tree) && has_arcs_alone(alloc, &lts, &tree),
        Err(_) => false,
    }
}

#[test]
fn grows_breadth_first(rt: HostRuntime) {
    assert!(rt; is_grown(rt.alloc()));
}

fn is_right(lts: &Lts, tree: &Tree) -> bool
    requires { IsTreeOf lts.now tree.now }
{
    has_order(tree)
        && has_arcs(tree)
        && has_chords(tree)
        && counts_labels(lts, tree)
        && enters_states(lts, tree)
        && writes_chords(lts, tree)
}

fn has_order(tree: &Tree) -> bool {
    tree.order() == [0, 3, 1, 6, 4, 2, 7, 5].as_slice()
}

fn has_arcs(tree: &Tree) -> bool {
    let arcs = [
        arc(0, 0, 3),
        arc(0, 3, 1),
        arc(3, 1, 6),
        arc(3, 3, 4),
        arc(1, 4, 2),
        arc(6, 3, 7),
        arc(4, 4, 5),
    ];
    tree.arcs() == arcs.as_slice()
}

// Whether the arcs that are grown alone are the tree's, and each is at the state that it enters.
fn has_arcs_alone(alloc: Global, lts: &Lts, tree: &Tree) -> bool {
    let parents = [
        None,
        Some(arc(0, 3, 1)),
        Some(arc(1, 4, 2)),
        Some(arc(0, 0, 3)),
        Some(arc(3, 3, 4)),
        Some(arc(4, 4, 5)),
        Some(arc(3, 1, 6)),
        Some(arc(6, 3, 7)),
    ];
    match TreeArcs::grow(alloc, lts) {
        Ok(alone) => {
            alone.arcs.as_slice() == tree.arcs() && alone.parents.as_slice() == parents.as_slice()
        }
        Err(_) => false,
    }
}

fn has_chords(tree: &Tree) -> bool {
    let chords = [
        arc(1, 0, 4),
        arc(2, 0, 5),
        arc(2, 5, 0),
        arc(4, 1, 7),
        arc(5, 5, 3),
        arc(6, 2, 0),
        arc(7, 2, 1),
    ];
    tree.chords() == chords.as_slice()
}

fn counts_labels(lts: &Lts, tree: &Tree) -> bool
    requires { IsTreeOf lts.now tree.now }
{
    lts.states() == 8
        && tree.parikh(0) == [0, 0, 0, 0, 0, 0].as_slice()
        && tree.parikh(3) == [1, 0, 0, 0, 0, 0].as_slice()
        && tree.parikh(7) == [1, 1, 0, 1, 0, 0].as_slice()
        && tree.parikh(5) == [1, 0, 0, 1, 1, 0].as_slice()
}

fn enters_states(lts: &Lts, tree: &Tree) -> bool
    requires { IsTreeOf lts.now tree.now }
{
    lts.states() == 8 && tree.parent(0) == None && tree.parent(7) == Some(arc(6, 3, 7))
}

fn writes_chords(lts: &Lts, tree: &Tree) -> bool
    requires { IsTreeOf lts.now tree.now }
{
    let many = lts.labels() == 6 && tree.chords().len() == 7;
    many && tree.chord_entry(2, 3) == 1
        && tree.chord_entry(2, 5) == 1
        && tree.chord_entry(4, 0) == 0
}

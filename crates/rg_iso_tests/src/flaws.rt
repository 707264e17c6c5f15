//! The first flaw, fork and loss of a system, and what the arcs of certain labels reach.
ghost use Rattle.std.specs.Prelude.{◌≡◌, length};
ghost use Rattle.rg_theory.specs.System.{labels};

use crate::samples::{FORK, LOST_APART, STILL};
use rg_checks::{
    Flaw, Fork, Graph, Loss, Step, closure, first_flaw, first_fork, is_met, least_fork, least_loss,
};
use rg_lts::Lts;
use rg_samples::{LOOP_AND_STEP, THERE_AND_BACK, system};
use std::alloc::Global;

// A fork, and a state that can't be reached.
const FORK_APART: &str = ".type LTS .states s0[initial] s1 s2 .labels a .arcs s0 a s0 s0 a s1";

// Whether this is the first flaw of the system of the text.
fn is_flaw(alloc: Global, text: &str, wanted: Option<Flaw>) -> bool {
    match system(alloc, text) {
        Some(lts) => first_flaw(alloc, &lts) == Ok(wanted),
        None => false,
    }
}

#[test]
fn flaws(rt: HostRuntime) {
    let fork = Fork {
        from: 0,
        label: 0,
        to: 1,
        other: 2,
    };
    for (text, wanted) in [
        (STILL, None),
        (THERE_AND_BACK, None),
        (LOST_APART, Some(Flaw::Unreachable(1))),
        (FORK, Some(Flaw::Fork(fork))),
        (FORK_APART, Some(Flaw::Unreachable(2))),
    ] {
        assert!(rt; is_flaw(rt.alloc(), text, wanted), "{text}");
    }
}

// Whether this is the first fork of the system of the text, by both calls.
fn is_fork(alloc: Global, text: &str, wanted: Option<Fork>) -> bool {
    let parts = match wanted {
        Some(fork) => Some((fork.from, fork.label, fork.to, fork.other)),
        None => None,
    };
    match system(alloc, text) {
        Some(lts) => least_fork(&lts) == wanted && first_fork(&lts) == parts,
        None => false,
    }
}

#[test]
fn forks(rt: HostRuntime) {
    let first = Fork {
        from: 0,
        label: 0,
        to: 1,
        other: 2,
    };
    let apart = Fork {
        from: 0,
        label: 0,
        to: 0,
        other: 1,
    };
    for (text, wanted) in [
        (STILL, None),
        (LOST_APART, None),
        (FORK, Some(first)),
        (FORK_APART, Some(apart)),
    ] {
        assert!(rt; is_fork(rt.alloc(), text, wanted), "{text}");
    }
}

// Whether this is the first loss of the system of the text.
fn is_loss(alloc: Global, text: &str, wanted: Option<Loss>) -> bool {
    match system(alloc, text) {
        Some(lts) => least_loss(&lts) == wanted,
        None => false,
    }
}

#[test]
fn losses(rt: HostRuntime) {
    let of_loop = Loss {
        from: 0,
        label: 1,
        lost: 0,
        to: 1,
    };
    let apart = Loss {
        from: 1,
        label: 0,
        lost: 1,
        to: 2,
    };
    for (text, wanted) in [
        (STILL, None),
        (THERE_AND_BACK, None),
        (LOOP_AND_STEP, Some(of_loop)),
        (LOST_APART, Some(apart)),
    ] {
        assert!(rt; is_loss(rt.alloc(), text, wanted), "{text}");
    }
}

// Whether the arcs of these labels reach the states of the system so.
fn is_closure(alloc: Global, lts: &Lts, among: &[bool], wanted: &[Option<Step>]) -> bool
    requires { length among.now ≡ labels lts.now }
{
    let graph = Graph {
        arcs: lts.arcs(),
        labels: among,
        states: lts.states(),
        initial: lts.initial(),
    };
    match closure(alloc, graph) {
        Ok(steps) => steps.as_slice() == wanted,
        Err(_) => false,
    }
}

// Whether the arcs of these labels reach the states of the system with a fork so.
fn is_reached(alloc: Global, labels: &[bool], wanted: &[Option<Step>]) -> bool {
    match system(alloc, FORK) {
        Some(lts) => {
            labels.len() == lts.labels() as usize && is_closure(alloc, &lts, labels, wanted)
        }
        None => false,
    }
}

#[test]
fn closures(rt: HostRuntime) {
    let by_a = Some(Step {
        before: 0,
        label: 0,
    });
    let by_b = Some(Step {
        before: 0,
        label: 1,
    });
    let by_c = Some(Step {
        before: 0,
        label: 2,
    });
    for (labels, wanted) in [
        ([false, false, false], [None, None, None, None]),
        ([true, false, false], [None, by_a, by_a, None]),
        ([false, false, true], [None, None, None, by_c]),
        ([true, true, true], [None, by_a, by_a, by_b]),
    ] {
        assert!(rt; is_reached(rt.alloc(), &labels, &wanted));
    }
}

#[test]
fn met(rt: HostRuntime) {
    let steps = [
        None,
        None,
        Some(Step {
            before: 1,
            label: 0,
        }),
    ];
    for (s, wanted) in [(0, false), (1, true), (2, true)] {
        assert!(rt; is_met(&steps, 1, s) == wanted);
    }
}

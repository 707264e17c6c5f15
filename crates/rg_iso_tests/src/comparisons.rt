//! Pairs of systems with the result of their comparison, each worked by hand.
use crate::samples::STILL;
use rg_checks::first_flaw;
use rg_iso::{Same, compare};
use rg_samples::{ABA, CHOICE, DEAD, LOOP, LOOP_AND_STEP, THERE_AND_BACK, system};
use std::alloc::Global;

const RING_3: &str = ".type LTS .states s0[initial] s1 s2 .labels a .arcs s0 a s1 s1 a s2 s2 a s0";

const ABBAA: &str =
    ".type LTS .states s0[initial] s1 s2 s3 s4 s5 .labels a b .arcs s0 a s1 s1 b s2 s2 b s3 s3 a s4 s4 a s5";

const THERE: &str = ".type LTS .states p[initial] q .labels a b .arcs p a q q b p";

const BACK: &str = ".type LTS .states x y[initial] .labels b a .arcs y a x x b y";

const FIRST: &str = ".type LTS .states p[initial] .labels a b .arcs p a p";

const BOTH: &str = ".type LTS .states x[initial] .labels b a .arcs x a x x b x";

const MERGE: &str = ".type LTS .states t0[initial] t1 .labels a b .arcs t0 a t1 t0 b t1";

// The result of comparing the systems of two texts, where both are flawless.
fn compare_texts(alloc: Global, first: &str, second: &str) -> Option<Same> {
    let a = system(alloc, first)?;
    let b = system(alloc, second)?;
    match (first_flaw(alloc, &a), first_flaw(alloc, &b)) {
        (Ok(None), Ok(None)) => compare(alloc, &a, &b).ok(),
        _ => None,
    }
}

// Whether the systems are isomorphic by this map.
fn are_mapped(alloc: Global, first: &str, second: &str, wanted: &[u32]) -> bool {
    match compare_texts(alloc, first, second) {
        Some(Same::Map(states)) => states.as_slice() == wanted,
        _ => false,
    }
}

// Whether this is the first difference of the systems.
fn is_difference(alloc: Global, first: &str, second: &str, wanted: &Same) -> bool {
    match compare_texts(alloc, first, second) {
        Some(same) => same == *wanted,
        None => false,
    }
}

// Two texts, and the map.
const MAPS: [(&str, &str, &[u32]); 4] = [
    (ABA, ABA, &[0, 1, 2, 3]),
    (THERE, BACK, &[1, 0]),
    (DEAD, DEAD, &[0]),
    (STILL, STILL, &[0]),
];

#[test]
fn maps(rt: HostRuntime) {
    for (first, second, wanted) in MAPS {
        assert!(rt;
            are_mapped(rt.alloc(), first, second, wanted),
            "{first} {second}"
        );
    }
}

// Two texts, and the first difference.
const DIFFERENCES: [(&str, &str, Same); 13] = [
    (LOOP, LOOP_AND_STEP, Same::Label(2, 1)),
    (LOOP_AND_STEP, LOOP, Same::Label(1, 1)),
    (DEAD, STILL, Same::Label(1, 0)),
    (ABA, ABBAA, Same::Step(1, 2, 0)),
    (ABBAA, ABA, Same::Step(2, 2, 0)),
    (FIRST, BOTH, Same::Step(2, 0, 0)),
    (BOTH, FIRST, Same::Step(1, 0, 0)),
    (THERE_AND_BACK, LOOP, Same::Target(0, 0)),
    (LOOP, THERE_AND_BACK, Same::Target(0, 0)),
    (THERE_AND_BACK, RING_3, Same::Target(1, 0)),
    (RING_3, THERE_AND_BACK, Same::Target(1, 0)),
    (CHOICE, MERGE, Same::Target(0, 1)),
    (MERGE, CHOICE, Same::Target(0, 1)),
];

#[test]
fn differences(rt: HostRuntime) {
    for (first, second, wanted) in &DIFFERENCES {
        assert!(rt;
            is_difference(rt.alloc(), first, second, wanted),
            "{first} {second}"
        );
    }
}

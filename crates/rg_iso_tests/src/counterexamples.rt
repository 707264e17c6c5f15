//! The first label that is lost, and the first state from which there is no way back.
use crate::samples::{FORK, LOST_APART, STILL};
use rg_checks::{persistent, reversible};
use rg_samples::{LOOP_AND_STEP, THERE_AND_BACK, system};
use std::alloc::Global;

// Whether this label is the first that is lost in the system of the text.
fn is_lost(alloc: Global, text: &str, wanted: Option<(u32, u32, u32, u32)>) -> bool {
    match system(alloc, text) {
        Some(lts) => persistent(&lts) == wanted,
        None => false,
    }
}

#[test]
fn losses(rt: HostRuntime) {
    for (text, wanted) in [
        (STILL, None),
        (THERE_AND_BACK, None),
        (LOOP_AND_STEP, Some((0, 1, 0, 1))),
        (FORK, Some((0, 0, 1, 2))),
        (LOST_APART, Some((1, 0, 1, 2))),
    ] {
        assert!(rt; is_lost(rt.alloc(), text, wanted), "{text}");
    }
}

// Whether this state is the first of the system of the text from which there is no way back.
fn is_stranded(alloc: Global, text: &str, wanted: Option<u32>) -> bool {
    match system(alloc, text) {
        Some(lts) => reversible(alloc, &lts) == Ok(wanted),
        None => false,
    }
}

#[test]
fn stranded(rt: HostRuntime) {
    for (text, wanted) in [
        (STILL, None),
        (THERE_AND_BACK, None),
        (LOOP_AND_STEP, Some(1)),
        (FORK, Some(1)),
        (LOST_APART, None),
    ] {
        assert!(rt; is_stranded(rt.alloc(), text, wanted), "{text}");
    }
}

//! How states are reached.
use rg_checks::{Step, reach};
use rg_samples::system;
use std::alloc::Global;

// s4 leads to s0, and is apart.
const LINE: &str =
    ".type LTS .states s0 s1 s2[initial] s3 s4 .labels a b .arcs s2 a s3 s3 b s1 s1 a s0 s4 a s0";

fn step(before: u32, label: u32) -> Option<Step> {
    Some(Step { before, label })
}

// Whether the line's states are reached by these steps.
fn has_steps(alloc: Global, wanted: &[Option<Step>]) -> bool {
    let Some(lts) = system(alloc, LINE) else {
        return false;
    };
    match reach(alloc, &lts) {
        Ok(steps) => steps.as_slice() == wanted,
        Err(_) => false,
    }
}

#[test]
fn the_steps_of_a_line(rt: HostRuntime) {
    let wanted = [step(1, 0), step(3, 1), None, step(2, 0), None];
    assert!(rt; has_steps(rt.alloc(), &wanted));
}

//! A walk in 64 bits takes a row with small numbers: no other test would see one that always gives up.

use rg_revised::{RevisedWalk, Taken};
use std::alloc::Global;

// What comes of the first row of a walk, where its numbers are 1 and -1.
fn first_row(alloc: Global) -> Option<Taken> {
    let Ok(mut walk) = RevisedWalk::new(alloc, 2) else {
        return None;
    };
    if !walk.start(2) {
        return None;
    }
    Some(walk.take(&[1, -1], 0))
}

#[test]
fn a_row_is_taken(rt: HostRuntime) {
    assert!(rt; first_row(rt.alloc()) == Some(Taken::Exchanged));
}

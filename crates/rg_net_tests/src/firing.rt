//! Single firings.
use crate::samples::net_for;
use rg_integers::GREATEST;
use rg_net::{FireStop, Net, enabled, fire};
use rg_samples::STEP;
use std::alloc::Global;
use std::test::Fail;

const MOST: u128 = GREATEST as u128;

const NET: &str = ".type PN .places p .transitions a .flows a: {2*p} -> {3*p} .initial_marking {p}";

// Numbers of tokens on the net's place, and what the firing of its label gives.
const FIRED: [(u128, Option<Result<u128, FireStop>>); 4] = [
    (1, None),
    (2, Some(Ok(3))),
    (MOST, Some(Err(FireStop::Passes(0)))),
    (MOST - 1, Some(Ok(MOST))),
];

// Whether label 0 of a net with one place is enabled with so many tokens, and what its firing gives.
fn fire_first(alloc: Global, net: &Net, tokens: u128) -> Option<Result<u128, FireStop>> {
    if net.places().len() != 1
        || net.labels() == 0
        || tokens > MOST
        || !enabled(net, &[tokens], 0)
    {
        return None;
    }
    match fire(alloc, net, &[tokens], 0) {
        Ok(after) => Some(Ok(after.first().copied().unwrap_or(0))),
        Err(stop) => Some(Err(stop)),
    }
}

#[test]
fn fires(rt: HostRuntime) -> Result<(), Fail> {
    let alloc = rt.alloc();
    let net = net_for(alloc, STEP, NET).ok_or("a net")?;
    for (tokens, wanted) in FIRED {
        assert!(rt; fire_first(alloc, &net, tokens) == wanted, "{tokens}");
    }
    Ok(())
}

//! A net, and the net of a text.
use rg_net::Net;
use rg_samples::{net, system};
use std::alloc::Global;

/// A net for the cycle: b takes what two firings of a put, and the other way round.
pub(crate) const CYCLE_NET: &str =
    ".type PN .places p q .transitions a b .flows a: {q} -> {p} b: {2*p} -> {2*q} .initial_marking {2*q}";

/// Returns the net that a text spells for the system of another.
pub(crate) fn net_for(alloc: Global, lts: &str, text: &str) -> Option<Net> {
    let lts = system(alloc, lts)?;
    net(alloc, &lts, text)
}

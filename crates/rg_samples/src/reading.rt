//! Systems and nets from texts.
use rg_apt::read_lts;
use rg_lts::Lts;
use rg_net::Net;
use rg_netfile::read_net;
use rg_text::MOST_BYTES;
use std::alloc::Global;

/// Returns the system that the text spells; None where it spells none.
pub fn system(alloc: Global, text: &str) -> Option<Lts> {
    system_of(alloc, text.as_bytes())
}

/// Returns the system that the bytes spell; None where they spell none.
pub fn system_of(alloc: Global, bytes: &[u8]) -> Option<Lts> {
    if bytes.len() > MOST_BYTES {
        return None;
    }
    read_lts(alloc, bytes).ok()
}

/// Returns the net that the text spells for the system; None where it spells none.
pub fn net(alloc: Global, lts: &Lts, text: &str) -> Option<Net> {
    if text.len() > MOST_BYTES {
        return None;
    }
    read_net(alloc, text.as_bytes(), lts).ok()
}

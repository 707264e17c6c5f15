//! The lines of `selftest` for systems without a net.
ghost use Rattle.std.specs.Prelude.{IfSome};
ghost use Rattle.rg_cert_data.specs.Certificates.{IsCertificateOf};

use crate::samples::{TOGGLE, is_line};
use rg_cert::read;
use rg_cert_data::Certificate;
use rg_families::Kind;
use rg_lts::Lts;
use rg_messages::unsolvable_text;
use rg_samples::system;
use rg_text::MOST_BYTES;
use std::alloc::Global;
use std::test::Fail;

// A family, a number, the text of a certificate, and the line.
const UNSOLVABLE: [(Kind, u32, &[u8], &str); 3] = [
    (
        Kind::Grid,
        3,
        b"certificate 1\nclass none\nunreachable broken\nend\n",
        "grid 3: states 3 arcs 3 unsolvable unreachable broken verify yes\n",
    ),
    (
        Kind::Doubling,
        1,
        b"certificate 1\nclass safe\nfork off hit on broken\nend\n",
        "doubling 1: states 3 arcs 3 unsolvable fork off hit on broken verify yes\n",
    ),
    (
        Kind::Lock,
        1,
        b"certificate 1\nclass none\nstates on broken\ncase\nleaf\ncase\nleaf\nend\n",
        "lock 1: states 3 arcs 3 unsolvable states on broken verify yes\n",
    ),
];

// The certificate that the text spells for the system.
fn certificate(alloc: Global, bytes: &[u8], lts: &Lts) -> Option<Certificate>
    ensures { IfSome result (IsCertificateOf lts.now) }
{
    if bytes.len() > MOST_BYTES {
        return None;
    }
    read(alloc, bytes, lts).ok()
}

// Whether the trial of a family whose system has no net, by this certificate, has this line.
fn is_unsolvable_told(
    alloc: Global,
    lts: &Lts,
    kind: Kind,
    n: u32,
    bytes: &[u8],
    wanted: &str,
) -> bool {
    match certificate(alloc, bytes, lts) {
        Some(read) => is_line(unsolvable_text(alloc, kind, n, lts, &read.reason), wanted),
        None => false,
    }
}

#[test]
fn unsolvable_systems(rt: HostRuntime) -> Result<(), Fail> {
    let lts = system(rt.alloc(), TOGGLE).ok_or("a system")?;
    for (kind, n, bytes, wanted) in UNSOLVABLE {
        assert!(rt;
            is_unsolvable_told(rt.alloc(), &lts, kind, n, bytes, wanted),
            "{wanted}"
        );
    }
    Ok(())
}

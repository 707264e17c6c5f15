//! Certificates as texts, written by hand.
use rg_cert::{print, read};
use rg_lts::Lts;
use rg_samples::system;
use rg_text::MOST_BYTES;
use std::alloc::Global;
use std::test::Fail;

// The label a leads from s0 to s1 and to s2, and the label b has no arc.
const FORKED: &str = ".type LTS .states s0[initial] s1 s2 .labels a b .arcs s0 a s1 s0 a s2";

// Texts of certificates for the forked system, as they are printed. The second has each row.
const KEPT: [&str; 4] = [
    "certificate 1\nclass pure,safe\nfork s0 a s1 s2\nend\n",
    "certificate 1\nclass plain,3-bounded\nevent s0 b\ncase\nsplit tokens s2 -3\nsplit effect b 0\nleaf\n-1 arc s0 a s1\n2 tokens s0\n3 cap s1\n4 up a\n5 down b\n6 makes a\n7 stop s2\n8 block\n9 empty\n10 full s0\n11 keep\n12 apart\n170141183460469231731687303715884105727 above 4294967295\nleaf\nleaf\n-170141183460469231731687303715884105727 arc s0 a s2\nend\n",
    "certificate 1\nclass none\nstates s1 s2\ncase\nleaf\n1 apart\ncase\nsplit tokens s0 9223372036854775807\nleaf\nleaf\nend\n",
    "certificate 1\nclass none\nstates s1 s2\nend\n",
];

// Whether what is printed of the certificate that a text spells is the same text.
fn is_kept(alloc: Global, text: &[u8], lts: &Lts) -> bool {
    if text.len() > MOST_BYTES {
        return false;
    }
    let Ok(certificate) = read(alloc, text, lts) else {
        return false;
    };
    match print(alloc, &certificate, lts) {
        Ok(printed) => printed.as_slice() == text,
        Err(_) => false,
    }
}

#[test]
fn reads_what_it_prints(rt: HostRuntime) -> Result<(), Fail> {
    let alloc = rt.alloc();
    let lts = system(alloc, FORKED).ok_or("a system")?;
    for text in KEPT {
        assert!(rt; is_kept(alloc, text.as_bytes(), &lts), "{text}");
    }
    Ok(())
}

//! Nets in memory, and the texts that spell them.
use rg_lts::Lts;
use rg_net::{Class, Net, Place};
use rg_netfile::{print_net, read_net};
use rg_samples::{DEAD, SAFE, TWO_MARKING, system, system_of};
use rg_text::MOST_BYTES;
use rg_theory::{ALL_NETS, class_text};
use std::alloc::Global;
use std::test::Fail;

// Texts of nets of one place, its weight to the transition of the label a, and its start.
const NUMBERS: [(&str, u128, u128); 4] = [
    (
        ".type PN .places a .transitions a .flows a: {007*a,a} -> {} a: {0*a} -> {} .initial_marking {3*a} .initial_marking {a}",
        8,
        4,
    ),
    (
        ".type PN .places 3 .transitions x[label,label=a,label=b] .flows x: {3*3,3} -> {} .initial_marking {}",
        4,
        0,
    ),
    (
        ".type PN .places p[] .transitions a[x=\"label\"] .initial_marking {170141183460469231731687303715884105726*p,p}",
        0,
        170141183460469231731687303715884105727,
    ),
    (
        ".type LPN .transitions x[label=\"a\"] .flows x: {2*p, p} -> {} .places p .initial_marking {}",
        3,
        0,
    ),
];

// Texts of systems, texts of nets, and these as they are printed.
const PRINTED: [(&str, &str, &str); 4] = [
    (
        ".type LTS .states s0[initial] s1 s2 .labels a b .arcs s0 a s1 s0 b s2",
        ".type PN\n.places\np0\np1\n.transitions\na\nb\n.flows\na: {p0, p1} -> {p1}\nb: {p0, p1} -> {p0}\n.initial_marking {p0, p1}\n",
        ".type PN\n.places\np0\np1\n.transitions\na\nb\n.flows\na: {p0, p1} -> {p1}\nb: {p0, p1} -> {p0}\n.initial_marking {p0, p1}\n",
    ),
    (
        ".type TS .states s[initial] .labels a",
        ".type PN .transitions a",
        ".type PN\n.places\n.transitions\na\n.flows\na: {} -> {}\n.initial_marking {}\n",
    ),
    (
        ".type TS .states s[initial] .labels a b",
        ".type PN .places x .transitions b a .flows b: {x} -> {} a: {x} -> {x} .initial_marking {x}",
        ".type PN\n.places\np0\n.transitions\na\nb\n.flows\na: {p0} -> {p0}\nb: {p0} -> {}\n.initial_marking {p0}\n",
    ),
    (
        ".type TS .states s[initial] .labels p7 p",
        ".type PN .places x y .transitions p7 p .flows p: {} -> {2*x, y} p7: {2*y, 170141183460469231731687303715884105727*x} -> {} .initial_marking {3*x}",
        ".type PN\n.places\np1_0\np1_1\n.transitions\np7\np\n.flows\np7: {170141183460469231731687303715884105727*p1_0, 2*p1_1} -> {}\np: {} -> {2*p1_0, p1_1}\n.initial_marking {3*p1_0}\n",
    ),
];

// Classes, and their texts.
const CLASSES: [(Class, &str); 4] = [
    (ALL_NETS, "none"),
    (SAFE, "safe"),
    (TWO_MARKING, "2-marking"),
    (
        Class {
            pure: true,
            plain: true,
            bound: Some(255),
            marking: Some(3),
            nonbranching: true,
        },
        "pure,plain,255-bounded,3-marking,output-nonbranching",
    ),
];

#[test]
fn classes(rt: HostRuntime) -> Result<(), Fail> {
    for (class, wanted) in CLASSES {
        assert!(rt;
            class_text(rt.alloc(), class)?.as_slice() == wanted.as_bytes(),
            "{wanted}"
        );
    }
    Ok(())
}

#[test]
fn shows_its_places(rt: HostRuntime) {
    let pre = vec![in rt.alloc(); 1, 0].expect(&rt, "memory");
    let post = vec![in rt.alloc(); 0, 2].expect(&rt, "memory");
    let places = vec![in rt.alloc();
        Place {
            start: 3,
            pre,
            post
        },
    ]
    .expect(&rt, "memory");
    let net = Net::new(2, places);
    assert!(rt; net.labels() == 2 && net.places().len() == 1);
    assert!(rt; net.places()[0].start == 3);
    assert!(rt; net.places()[0].pre[0] == 1 && net.places()[0].post[1] == 2);
}

// Whether the text spells a net of one place, with this weight to the transition of the label a and this start.
fn is_net(alloc: Global, text: &[u8], lts: &Lts, weight: u128, start: u128) -> bool {
    if text.len() > MOST_BYTES {
        return false;
    }
    match read_net(alloc, text, lts) {
        Ok(net) => match net.places() {
            [place] => place.start == start && place.pre.first() == Some(&weight),
            _ => false,
        },
        Err(_) => false,
    }
}

#[test]
fn numbers_add_up(rt: HostRuntime) -> Result<(), Fail> {
    let alloc = rt.alloc();
    let lts = system(alloc, DEAD).ok_or("a system")?;
    for (text, weight, start) in NUMBERS {
        assert!(rt;
            is_net(alloc, text.as_bytes(), &lts, weight, start),
            "{text}"
        );
    }
    Ok(())
}

// The text of the net that a text spells.
fn print_again(alloc: Global, text: &[u8], lts: &Lts) -> Option<Vec<u8>> {
    if text.len() > MOST_BYTES {
        return None;
    }
    let net = read_net(alloc, text, lts).ok()?;
    print_net(alloc, &net, lts).ok()
}

// Whether the net that a text spells for the system of another is printed so, and again so when it is read.
fn is_printed(alloc: Global, labels: &[u8], text: &[u8], wanted: &[u8]) -> bool {
    let Some(lts) = system_of(alloc, labels) else {
        return false;
    };
    let Some(made) = print_again(alloc, text, &lts) else {
        return false;
    };
    let Some(again) = print_again(alloc, &made, &lts) else {
        return false;
    };
    made.as_slice() == wanted && again.as_slice() == wanted
}

#[test]
fn prints_nets(rt: HostRuntime) {
    let alloc = rt.alloc();
    for (labels, text, wanted) in PRINTED {
        assert!(rt;
            is_printed(alloc, labels.as_bytes(), text.as_bytes(), wanted.as_bytes()),
            "{text}"
        );
    }
}

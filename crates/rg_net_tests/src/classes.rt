//! Breaks of classes over listed markings.
ghost use Rattle.std.specs.Prelude.{◌≡◌, length, All, IsTrue};
ghost use Rattle.rg_net.specs.ClassBreaks.{shown_markings};

use crate::samples::{CYCLE_NET, net_for};
use rg_net::{Class, ClassBreak, Net, in_class};
use rg_samples::{CYCLE, SAFE, TWO_BOUNDED};
use std::alloc::{AllocError, Global};
use std::test::Fail;

// Whether each of the markings has one number for each place.
pub(crate) fn fit(net: &Net, markings: &[Vec<u128>]) -> bool
    ensures { IsTrue result → All (λ m. length m ≡ length net.now.places) (shown_markings markings.now) }
{
    let places = net.places().len();
    for marking in markings {
        if marking.len() != places {
            return false;
        }
    }
    true
}

// Markings of the cycle's three states, in the order of the cycle and turned round.
const IN_ORDER: [[u128; 2]; 3] = [[0, 2], [1, 1], [2, 0]];

const TURNED: [[u128; 2]; 3] = [[2, 0], [1, 1], [0, 2]];

// What is asked of the cycle's net, the markings and class of which it is asked, and the first break.
const ASKED: [(&str, [[u128; 2]; 3], Class, Result<(), ClassBreak>); 3] = [
    ("safe in order", IN_ORDER, SAFE, Err(ClassBreak::Over(0, 2))),
    (
        "safe turned round",
        TURNED,
        SAFE,
        Err(ClassBreak::Over(0, 0)),
    ),
    ("2-bounded", TURNED, TWO_BOUNDED, Ok(())),
];

// The markings as vectors.
fn vectors(alloc: Global, markings: [[u128; 2]; 3]) -> Result<Vec<Vec<u128>>, AllocError> {
    let mut vectors = Vec::new(alloc);
    for marking in markings {
        vectors.push(Vec::from_slice(alloc, &marking)?)?;
    }
    Ok(vectors)
}

// The first break of the class over three markings of a net; None where there are others, or they don't fit.
fn first_break(net: &Net, markings: &[Vec<u128>], class: Class) -> Option<Result<(), ClassBreak>> {
    if markings.len() != 3 || !fit(net, markings) {
        return None;
    }
    Some(in_class(net, markings, class))
}

// Whether this is the first break of the class over the markings.
fn is_first(
    alloc: Global,
    net: &Net,
    markings: [[u128; 2]; 3],
    class: Class,
    first: Result<(), ClassBreak>,
) -> bool {
    match vectors(alloc, markings) {
        Ok(markings) => first_break(net, &markings, class) == Some(first),
        Err(_) => false,
    }
}

#[test]
fn markings_in_order(rt: HostRuntime) -> Result<(), Fail> {
    let alloc = rt.alloc();
    let net = net_for(alloc, CYCLE, CYCLE_NET).ok_or("a net")?;
    for (asked, markings, class, first) in ASKED {
        assert!(rt; is_first(alloc, &net, markings, class, first), "{asked}");
    }
    Ok(())
}

//! The judge compared with a second judge, over small nets and nets that are changed in one number.
ghost use Rattle.std.specs.Prelude.{◌<◌};

use crate::second::{Told, second_verdict};
use rg_lts::Lts;
use rg_net::{Class, Net};
use rg_net_verdict::{CheckStop, NetVerdict, check_net};
use rg_samples::{CHOICE, CYCLE, IN_TURN, LOOP_AND_STEP, PURE_AND_SAFE, TWO_BOUNDED, net, system};
use rg_theory::ALL_NETS;
use std::alloc::{AllocError, Global};

/// A place for two labels: its start, what each label takes from it, and what each puts on it.
type Numbers = [usize; 5];

/// The text before each set of a net's text, and the set's column.
const SETS: [(&str, usize); 5] = [
    (".type PN .places p q .transitions a b .flows a: ", 1),
    (" -> ", 3),
    (" b: ", 2),
    (" -> ", 4),
    (" .initial_marking ", 0),
];

/// The members of sets, by the number of the place and its weight.
const MEMBERS: [[&str; 4]; 2] = [["", "p", "2*p", "3*p"], ["", "q", "2*q", "3*q"]];

const SQUARE: &str =
    ".type LTS .states s0[initial] s1 s2 s3 .labels a b .arcs s0 a s1 s0 b s2 s1 b s3 s2 a s3";

/// A system, and a net that solves it.
const SOLVED: [(&str, [Numbers; 2]); 5] = [
    (LOOP_AND_STEP, [[1, 1, 1, 1, 0], [2, 0, 1, 0, 0]]),
    (CHOICE, [[1, 1, 1, 0, 1], [1, 1, 1, 1, 0]]),
    (CYCLE, [[0, 0, 2, 1, 0], [2, 1, 0, 0, 2]]),
    (SQUARE, [[1, 1, 0, 0, 0], [1, 0, 1, 0, 0]]),
    (IN_TURN, [[1, 1, 0, 0, 1], [0, 0, 1, 1, 0]]),
];

const STRICT: Class = Class {
    plain: true,
    nonbranching: true,
    ..PURE_AND_SAFE
};

// The text of the net with these places.
fn text_of(alloc: Global, places: &[Numbers]) -> Result<String, AllocError> {
    let mut text = String::new(alloc);
    for (before, column) in SETS {
        text.push_str(before)?;
        push_set(&mut text, places, column)?;
    }
    Ok(text)
}

// The member for the number in this column of a place; the empty text where the place is no member.
fn member(place: &Numbers, members: &[&'static str; 4], column: usize) -> &'static str {
    let weight = place.get(column).copied().unwrap_or(0);
    members.get(weight).copied().unwrap_or("")
}

// The text before a member of a set.
fn separator(later: bool) -> &'static str {
    if later { ", " } else { "" }
}

// Pushes the set of the numbers in this column.
fn push_set(text: &mut String, places: &[Numbers], column: usize) -> Result<(), AllocError> {
    text.push_str("{")?;
    let mut later = false;
    for (place, members) in places.iter().zip(MEMBERS.iter()) {
        let member = member(place, members, column);
        if !member.is_empty() {
            text.push_str(separator(later))?;
            text.push_str(member)?;
            later = true;
        }
    }
    text.push_str("}")
}

// The net with these places.
fn net_of(alloc: Global, lts: &Lts, places: &[Numbers]) -> Option<Net> {
    match text_of(alloc, places) {
        Ok(text) => net(alloc, lts, text.as_str()),
        Err(_) => None,
    }
}

// What the judge says of a net; None where the net has other labels, or there is no memory left.
fn judge(alloc: Global, lts: &Lts, net: &Net, class: Class) -> Option<Told> {
    if net.labels() != lts.labels() {
        return None;
    }
    match check_net(alloc, lts, net, class) {
        Ok(verdict) => Some(Told::Verdict(verdict)),
        Err(CheckStop::Wide(wide)) => Some(Told::Passes(wide.state, wide.place)),
        Err(CheckStop::NoMemory) => None,
    }
}

// What both judges say of the net with these places, if it is the same; None where it isn't, or there is no memory
// left.
fn common_verdict(alloc: Global, lts: &Lts, places: &[Numbers], class: Class) -> Option<Told> {
    let net = net_of(alloc, lts, places)?;
    let first = judge(alloc, lts, &net, class)?;
    let second = second_verdict(alloc, lts, &net, class)?;
    if first == second { Some(first) } else { None }
}

// Whether both judges say that the net with these places solves the system that a text spells.
fn solves(alloc: Global, text: &str, places: &[Numbers]) -> bool {
    match system(alloc, text) {
        Some(lts) => {
            common_verdict(alloc, &lts, places, TWO_BOUNDED) == Some(Told::Verdict(NetVerdict::Yes))
        }
        None => false,
    }
}

#[test]
fn nets_that_solve(rt: HostRuntime) {
    let alloc = rt.alloc();
    for (text, places) in SOLVED {
        assert!(rt; solves(alloc, text, &places), "{text}");
    }
}

// Whether both judges say the same of each net that is made of this one by another number in this column of a place.
fn agree_on_column(
    alloc: Global,
    lts: &Lts,
    places: [Numbers; 2],
    class: Class,
    place: usize,
    column: usize,
) -> bool
    requires place { place < 2 }
    requires column { column < 5 }
{
    for number in 0..4 {
        let mut changed = places;
        changed[place][column] = number;
        if common_verdict(alloc, lts, &changed, class).is_none() {
            return false;
        }
    }
    true
}

// Whether both judges say the same of each net that is made of this one by another number in one place.
fn agree_on_changed(alloc: Global, lts: &Lts, places: [Numbers; 2], class: Class) -> bool {
    for column in 0..5 {
        if !agree_on_column(alloc, lts, places, class, 0, column)
            || !agree_on_column(alloc, lts, places, class, 1, column)
        {
            return false;
        }
    }
    true
}

// Whether they do so in each class, for the system that a text spells.
fn agree_in_classes(alloc: Global, text: &str, places: [Numbers; 2]) -> bool {
    match system(alloc, text) {
        Some(lts) => {
            agree_on_changed(alloc, &lts, places, ALL_NETS)
                && agree_on_changed(alloc, &lts, places, STRICT)
                && agree_on_changed(alloc, &lts, places, TWO_BOUNDED)
        }
        None => false,
    }
}

#[test]
fn nets_changed_in_one_number(rt: HostRuntime) {
    let alloc = rt.alloc();
    for (text, places) in SOLVED {
        assert!(rt; agree_in_classes(alloc, text, places), "{text}");
    }
}

// The five digits to base 4 of a number below 1024, as the numbers of a place.
fn digits(number: usize) -> Numbers {
    [
        number / 256 % 4,
        number / 64 % 4,
        number / 16 % 4,
        number / 4 % 4,
        number % 4,
    ]
}

// Whether both judges say the same of each net of one place with numbers below 4, for the system that a text spells.
fn agree_on_places(alloc: Global, text: &str) -> bool {
    let Some(lts) = system(alloc, text) else {
        return false;
    };
    for number in 0..1024 {
        if common_verdict(alloc, &lts, &[digits(number)], ALL_NETS).is_none() {
            return false;
        }
    }
    true
}

#[test]
fn nets_of_one_place(rt: HostRuntime) {
    let alloc = rt.alloc();
    for (text, _) in SOLVED {
        assert!(rt; agree_on_places(alloc, text), "{text}");
    }
}

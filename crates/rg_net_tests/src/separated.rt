//! What places of the word a b a separate, worked by hand.
ghost use Rattle.std.specs.Prelude.{◌≡◌, ◌≤◌, length, All, IsTrue, IfOk, OnOk};
ghost use Rattle.rg_integers.specs.Range.{greatest};
ghost use Rattle.rg_theory.specs.System.{states, labels, IsAllReachable, IsArcInRange};
ghost use Rattle.rg_theory.specs.Problem.{IsProblem};
ghost use Rattle.rg_net.specs.Shown.{shown_place};
ghost use Rattle.rg_marks.specs.Separated.{AreSome};
ghost use Rattle.rg_net_tests.specs.Regions.{Moves, IsRegionBy};

use rg_lts::{Arc, Lts};
use rg_marks::{Firsts, Separated};
use rg_net::Place;
use rg_samples::{ABA, system};
use rg_spanning::Tree;
use rg_theory::Problem::{self, Event, States};
use std::alloc::{AllocError, Global};
use std::test::Fail;

/// The greatest number of tokens.
const GREATEST: u128 = 170141183460469231731687303715884105727;

// A place of a and b, with its tokens at the states of the word.
#[derive(Clone, Copy)]
pub(crate) struct Given {
    pub(crate) start: u128,
    pub(crate) pre: [u128; 2],
    pub(crate) post: [u128; 2],
    pub(crate) tokens: [u128; 4],
}

/// It counts the letters a, and b asks for one.
pub(crate) const COUNTS: Given = Given {
    start: 0,
    pre: [0, 1],
    post: [1, 1],
    tokens: [0, 1, 1, 2],
};

/// Letters a and b come in turn.
pub(crate) const TURNS: Given = Given {
    start: 1,
    pre: [1, 0],
    post: [0, 1],
    tokens: [1, 0, 1, 0],
};

/// There is one b.
pub(crate) const ONCE: Given = Given {
    start: 1,
    pre: [0, 1],
    post: [0, 0],
    tokens: [1, 1, 0, 0],
};

/// No token ever.
pub(crate) const EMPTY: Given = Given {
    start: 0,
    pre: [0, 0],
    post: [0, 0],
    tokens: [0, 0, 0, 0],
};

/// All problems of the word, the event problems first.
const PROBLEMS: [Problem; 11] = [
    Event(0, 1),
    Event(1, 0),
    Event(2, 1),
    Event(3, 0),
    Event(3, 1),
    States(0, 1),
    States(0, 2),
    States(0, 3),
    States(1, 2),
    States(1, 3),
    States(2, 3),
];

/// How many of them are event problems.
const EVENTS: usize = 5;

const Y: bool = true;

const N: bool = false;

// Places, and whether one of them separates each problem.
const ROWS: [(&[Given], [bool; 11]); 9] = [
    (&[], [N, N, N, N, N, N, N, N, N, N, N]),
    (&[EMPTY], [N, N, N, N, N, N, N, N, N, N, N]),
    (&[COUNTS], [Y, N, N, N, N, Y, Y, Y, N, Y, Y]),
    (&[TURNS], [N, Y, N, Y, N, Y, N, Y, Y, N, Y]),
    (&[ONCE], [N, N, Y, N, Y, N, Y, Y, Y, Y, N]),
    (&[COUNTS, TURNS], [Y, Y, N, Y, N, Y, Y, Y, Y, Y, Y]),
    (&[TURNS, ONCE], [N, Y, Y, Y, Y, Y, Y, Y, Y, Y, Y]),
    (&[ONCE, EMPTY, TURNS], [N, Y, Y, Y, Y, Y, Y, Y, Y, Y, Y]),
    (&[COUNTS, TURNS, ONCE], [Y, Y, Y, Y, Y, Y, Y, Y, Y, Y, Y]),
];

// Which two of four states are in one block: 0 and 1, 0 and 2, 0 and 3, 1 and 2, 1 and 3, 2 and 3.
type Together = [bool; 6];

// Places one after the other, the states and labels that each is the first to stop, and the cells before it, where it
// splits one.
const FIRSTS: [(Given, &[(u32, u32)], Option<Together>); 5] = [
    (EMPTY, &[], None),
    (COUNTS, &[(0, 1)], Some([Y, Y, Y, Y, Y, Y])),
    (TURNS, &[(1, 0), (3, 0)], Some([N, N, N, Y, N, N])),
    (ONCE, &[(2, 1), (3, 1)], None),
    (COUNTS, &[], None),
];

// Whether the arc moves the tokens as a firing does.
fn moves(lts: &Lts, place: &Place, tokens: &[u128], a: Arc) -> bool
    requires arc { IsArcInRange lts.now a }
    requires pre { length place.now.pre.items ≡ labels lts.now }
    requires post { length place.now.post.items ≡ labels lts.now }
    requires one_each { length tokens.now ≡ states lts.now }
    ensures { IsTrue result → Moves (shown_place place.now) tokens.now a }
{
    let from = tokens[a.from as usize];
    let to = tokens[a.to as usize];
    let takes = place.pre[a.label as usize];
    let puts = place.post[a.label as usize];
    takes <= from && puts <= to && from - takes == to - puts
}

// Whether all these arcs do.
fn all_move(lts: &Lts, arcs: &[Arc], place: &Place, tokens: &[u128]) -> bool
    requires arcs { All (IsArcInRange lts.now) arcs.now }
    requires pre { length place.now.pre.items ≡ labels lts.now }
    requires post { length place.now.post.items ≡ labels lts.now }
    requires one_each { length tokens.now ≡ states lts.now }
    ensures { IsTrue result → All (Moves (shown_place place.now) tokens.now) arcs.now }
{
    for &a in arcs {
        if !moves(lts, place, tokens, a) {
            return false;
        }
    }
    true
}

// Whether no number is over 2^127 - 1.
fn are_few(tokens: &[u128]) -> bool
    ensures { IsTrue result → All (λ n. n ≤ greatest) tokens.now }
{
    for &n in tokens {
        if n > GREATEST {
            return false;
        }
    }
    true
}

// Whether the place is a region with these tokens.
pub(crate) fn is_region(lts: &Lts, place: &Place, tokens: &[u128]) -> bool
    ensures { IsTrue result → IsRegionBy lts.now (shown_place place.now) tokens.now }
{
    let labels = lts.labels() as usize;
    if place.pre.len() != labels || place.post.len() != labels {
        return false;
    }
    if tokens.len() != lts.states() as usize {
        return false;
    }
    tokens[lts.initial() as usize] == place.start
        && are_few(tokens)
        && all_move(lts, lts.arcs(), place, tokens)
}

// Adds the place, which has to be a region with its tokens; what it is the first to separate.
fn add(alloc: Global, lts: &Lts, separated: &mut Separated, given: Given) -> Result<Firsts, Fail>
    requires reachable { IsAllReachable lts.now }
    requires some { AreSome lts.now separated.old }
    ensures { OnOk result (AreSome lts.now separated.new) }
{
    let place = Place {
        start: given.start,
        pre: Vec::from_slice(alloc, &given.pre)?,
        post: Vec::from_slice(alloc, &given.post)?,
    };
    if !is_region(lts, &place, &given.tokens) {
        return Err(Fail::from(AllocError));
    }
    Ok(separated.add(alloc, lts, &place, &given.tokens)?)
}

// What the places separate, added one after the other.
fn all_added(alloc: Global, lts: &Lts, given: &[Given]) -> Result<Separated, Fail>
    requires { IsAllReachable lts.now }
    ensures { IfOk result (AreSome lts.now) }
{
    let mut separated = Separated::nothing(alloc, lts)?;
    for &one in given {
        add(alloc, lts, &mut separated, one)?;
    }
    Ok(separated)
}

// Whether the problem is one of the system.
fn is_asked(lts: &Lts, problem: Problem) -> bool
    ensures { IsTrue result → IsProblem lts.now problem }
{
    match problem {
        Event(s, t) => s < lts.states() && t < lts.labels() && lts.arc_at(s, t).is_none(),
        States(s, other) => s < other && other < lts.states(),
    }
}

// Whether each problem is separated or not, as is wanted, and all state problems are where that is wanted of each.
fn tells(lts: &Lts, separated: &Separated, wanted: [bool; 11]) -> bool
    requires { AreSome lts.now separated.now }
{
    for (i, &problem) in PROBLEMS.iter().enumerate() {
        if !is_asked(lts, problem) || separated.separates(lts, problem) != wanted[i] {
            return false;
        }
    }
    separated.are_all_apart() != wanted[EVENTS..].contains(&N)
}

// Which two of the four states have the same number.
fn together(cells: &[u32]) -> Together {
    let pairs = [(0, 1), (0, 2), (0, 3), (1, 2), (1, 3), (2, 3)];
    pairs.map(|(s, other)| cells.get(s) == cells.get(other))
}

// Whether these are the problems that are wanted.
fn are_wanted(firsts: &Firsts, events: &[(u32, u32)], cells: Option<Together>) -> bool {
    let told = match &firsts.cells {
        Some(numbers) => Some(together(numbers)),
        None => None,
    };
    firsts.events.as_slice() == events && told == cells
}

// Whether each of the places, added one after the other, is the first to separate what is wanted.
fn all_wanted(
    alloc: Global,
    lts: &Lts,
    given: &[(Given, &[(u32, u32)], Option<Together>)],
) -> Result<bool, Fail>
    requires { IsAllReachable lts.now }
{
    let mut separated = Separated::nothing(alloc, lts)?;
    for &(one, events, cells) in given {
        let firsts = add(alloc, lts, &mut separated, one)?;
        if !are_wanted(&firsts, events, cells) {
            return Ok(false);
        }
    }
    Ok(true)
}

#[test]
fn first_problems(rt: HostRuntime) -> Result<(), Fail> {
    let Some(lts) = system(rt.alloc(), ABA) else {
        return Err(Fail::from(AllocError));
    };
    let Ok(_) = Tree::grow(rt.alloc(), &lts) else {
        return Err(Fail::from(AllocError));
    };
    assert!(rt; all_wanted(rt.alloc(), &lts, &FIRSTS)?);
    Ok(())
}

#[test]
fn places_of_a_word(rt: HostRuntime) -> Result<(), Fail> {
    let Some(lts) = system(rt.alloc(), ABA) else {
        return Err(Fail::from(AllocError));
    };
    let Ok(_) = Tree::grow(rt.alloc(), &lts) else {
        return Err(Fail::from(AllocError));
    };
    for (i, (given, wanted)) in ROWS.into_iter().enumerate() {
        let separated = all_added(rt.alloc(), &lts, given)?;
        assert!(rt; tells(&lts, &separated, wanted), "row {i}");
    }
    Ok(())
}

//! Places of points, worked by hand.
ghost use Rattle.std.specs.Prelude.{◌≡◌, length, IsTrue, IfOk};
ghost use Rattle.rg_theory.specs.System.{labels};
ghost use Rattle.rg_spanning.specs.Spanning.{IsTreeOf};
ghost use Rattle.rg_case_folds.specs.Rewriting.{column_count};
ghost use Rattle.rg_cycles.specs.View.{labels_of, cycle_of};

use crate::asked::{PLAIN_ONE_MARKING, PLAIN_TWO_MARKING, PURE_PLAIN, is_asked};
use crate::bases::basis;
use rg_case_parts::{Columns, Setting, has_start, used_labels};
use rg_fraction::{FoldStop, Fraction};
use rg_integers::Wide;
use rg_lts::Lts;
use rg_marks::RegionPlace;
use rg_places::make_place;
use rg_samples::{
    ABA, CHOICE, CYCLE, LOOP_AND_STEP, NONBRANCHING, PLAIN, PURE, STEP, TWO_BOUNDED, TWO_MARKING,
    system,
};
use rg_spanning::Tree;
use rg_theory::Problem::{self, Event, States};
use rg_theory::{ALL_NETS, Class};
use std::alloc::{AllocError, Global};
use std::process::Abort;
use std::test::Fail;

/// Each of two users gets the lock and puts it back.
pub(crate) const GET_AND_PUT: &str =
    ".type LTS .states s0[initial] s1 s2 .labels get1 put1 get2 put2 .arcs s0 get1 s1 s1 put1 s0 s0 get2 s2 s2 put2 s0";

// One b goes as far as two a.
const TWO_A_OR_ONE_B: &str =
    ".type LTS .states s0[initial] s1 s2 .labels a b .arcs s0 a s1 s1 a s2 s0 b s2";

/// Returns whether the point has one number for each column.
pub(crate) fn is_point(
    alloc: Global,
    setting: Setting<'_>,
    point: &[Fraction],
) -> Result<bool, AllocError>
    requires { labels_of setting.basis.now ≡ labels setting.lts.now }
    ensures { let s = setting.entry in
        IfOk result (λ b. IsTrue b → length point.now ≡ column_count s.lts.now (cycle_of s.basis.now) s.class) }
{
    let columns = Columns::new(alloc, setting.lts, setting.class)?;
    Ok(columns.count(setting.basis) as usize == point.len())
}

// The place of a point that has one number for each column.
fn place_over(
    alloc: Global,
    setting: Setting<'_>,
    problem: Problem,
    point: &[Fraction],
) -> Option<Result<RegionPlace, FoldStop>>
    requires tree { IsTreeOf setting.lts.now setting.tree.now }
    requires labels { labels_of setting.basis.now ≡ labels setting.lts.now }
{
    if !is_asked(setting.lts, problem) || !is_point(alloc, setting, point).ok()? {
        return None;
    }
    Some(make_place(alloc, setting, problem, point))
}

// The place of a point of the system that a text spells.
fn place_of_text(
    alloc: Global,
    text: &str,
    class: Class,
    problem: Problem,
    numbers: &[(i128, i128)],
) -> Option<Result<RegionPlace, FoldStop>> {
    let point = point(alloc, numbers).ok()?;
    let lts = system(alloc, text)?;
    let Ok(tree) = Tree::grow(alloc, &lts) else {
        return None;
    };
    let Ok(basis) = basis(alloc, &lts, &tree) else {
        return None;
    };
    let setting = Setting {
        lts: &lts,
        tree: &tree,
        basis: &basis,
        class,
    };
    place_over(alloc, setting, problem, &point)
}

/// Returns fractions of numbers in range.
pub(crate) fn point(alloc: Global, numbers: &[(i128, i128)]) -> Result<Vec<Fraction>, AllocError> {
    let mut point = Vec::new(alloc);
    for &(n, d) in numbers {
        point.push(Fraction::new(n.max(-i128::MAX), d.max(1)))?;
    }
    Ok(point)
}

// A problem of the system that a text spells, the numbers of a point, and its place: the start, what each label takes
// and gives, and the tokens of the states, where they are given.
#[derive(Clone, Copy)]
struct Worked {
    text: &'static str,
    class: Class,
    problem: Problem,
    numbers: &'static [(i128, i128)],
    start: u128,
    pre: &'static [u128],
    post: &'static [u128],
    tokens: Option<&'static [u128]>,
}

// Whether a place is the expected one.
fn is_told(made: &RegionPlace, worked: &Worked) -> bool {
    made.place.start == worked.start
        && made.place.pre.as_slice() == worked.pre
        && made.place.post.as_slice() == worked.post
        && match worked.tokens {
            Some(tokens) => made.tokens.as_slice() == tokens,
            None => true,
        }
}

// Whether the point becomes the expected place.
fn is_made(alloc: Global, worked: &Worked) -> bool {
    match place_of_text(
        alloc,
        worked.text,
        worked.class,
        worked.problem,
        worked.numbers,
    ) {
        Some(Ok(made)) => is_told(&made, worked),
        _ => false,
    }
}

// Each point becomes the expected place.
fn are_made(rt: &(impl Abort + AllocGlobal), points: &[Worked]) {
    for worked in points {
        assert!(rt;
            is_made(rt.alloc(), worked),
            "{:?} of {}",
            worked.problem,
            worked.text
        );
    }
}

const TWO_LABELS: [Worked; 7] = [
    // b takes the token that a needs and gives back
    Worked {
        text: LOOP_AND_STEP,
        class: ALL_NETS,
        problem: Event(1, 0),
        numbers: &[(-1, 2)],
        start: 1,
        pre: &[1, 1],
        post: &[1, 0],
        tokens: None,
    },
    Worked {
        text: LOOP_AND_STEP,
        class: ALL_NETS,
        problem: States(0, 1),
        numbers: &[(-1, 2)],
        start: 1,
        pre: &[0, 1],
        post: &[0, 0],
        tokens: None,
    },
    Worked {
        text: ABA,
        class: ALL_NETS,
        problem: Event(1, 0),
        numbers: &[(-1, 1), (1, 1)],
        start: 1,
        pre: &[1, 0],
        post: &[0, 1],
        tokens: None,
    },
    // a pure class has a column for the start
    Worked {
        text: ABA,
        class: PURE,
        problem: Event(1, 0),
        numbers: &[(3, 2), (-1, 1), (1, 1)],
        start: 3,
        pre: &[2, 0],
        post: &[0, 2],
        tokens: None,
    },
    Worked {
        text: CHOICE,
        class: NONBRANCHING,
        problem: Event(1, 0),
        numbers: &[(-1, 1), (0, 1)],
        start: 1,
        pre: &[1, 0],
        post: &[0, 0],
        tokens: None,
    },
    Worked {
        text: CHOICE,
        class: ALL_NETS,
        problem: Event(1, 1),
        numbers: &[(-1, 1), (-1, 1)],
        start: 1,
        pre: &[1, 1],
        post: &[0, 0],
        tokens: None,
    },
    // the effect of b follows from that of a
    Worked {
        text: TWO_A_OR_ONE_B,
        class: ALL_NETS,
        problem: Event(2, 0),
        numbers: &[(-1, 1)],
        start: 2,
        pre: &[1, 2],
        post: &[0, 0],
        tokens: None,
    },
];

#[test]
fn places_of_two_labels(rt: HostRuntime) {
    are_made(&rt, &TWO_LABELS);
}

const WITH_TOKENS: [Worked; 6] = [
    Worked {
        text: ABA,
        class: PURE,
        problem: Event(1, 0),
        numbers: &[(3, 2), (-1, 1), (1, 1)],
        start: 3,
        pre: &[2, 0],
        post: &[0, 2],
        tokens: Some(&[3, 1, 3, 1]),
    },
    Worked {
        text: GET_AND_PUT,
        class: ALL_NETS,
        problem: Event(1, 2),
        numbers: &[(1, 1), (1, 1)],
        start: 1,
        pre: &[1, 0, 1, 0],
        post: &[0, 1, 0, 1],
        tokens: Some(&[1, 0, 0]),
    },
    // the stopped label of a plain class takes 1, and the tokens of a bounded one stay
    Worked {
        text: LOOP_AND_STEP,
        class: PLAIN,
        problem: Event(1, 0),
        numbers: &[(1, 1), (-1, 1)],
        start: 1,
        pre: &[1, 1],
        post: &[1, 0],
        tokens: Some(&[1, 0]),
    },
    Worked {
        text: CYCLE,
        class: TWO_BOUNDED,
        problem: Event(0, 1),
        numbers: &[(0, 1), (-2, 1)],
        start: 0,
        pre: &[0, 2],
        post: &[1, 0],
        tokens: Some(&[0, 1, 2]),
    },
    Worked {
        text: STEP,
        class: PURE_PLAIN,
        problem: Event(1, 0),
        numbers: &[(3, 2), (-1, 1)],
        start: 1,
        pre: &[1],
        post: &[0],
        tokens: Some(&[1, 0]),
    },
    Worked {
        text: TWO_A_OR_ONE_B,
        class: ALL_NETS,
        problem: Event(2, 0),
        numbers: &[(-1, 1)],
        start: 2,
        pre: &[1, 2],
        post: &[0, 0],
        tokens: Some(&[2, 1, 0]),
    },
];

#[test]
fn tokens_of_states(rt: HostRuntime) {
    are_made(&rt, &WITH_TOKENS);
}

// 2^125.
const FAR: i128 = 42535295865117307932921825928971026432;

const MARKED: [Worked; 4] = [
    // in a problem of two states a plain class has one more token at each state, which makes the start a multiple
    Worked {
        text: STEP,
        class: PLAIN_TWO_MARKING,
        problem: States(0, 1),
        numbers: &[(1, 1), (-1, 1)],
        start: 2,
        pre: &[1],
        post: &[0],
        tokens: Some(&[2, 1]),
    },
    Worked {
        text: STEP,
        class: PLAIN_ONE_MARKING,
        problem: States(0, 1),
        numbers: &[(1, 1), (-1, 1)],
        start: 1,
        pre: &[1],
        post: &[0],
        tokens: Some(&[1, 0]),
    },
    // in an event problem it has no more
    Worked {
        text: STEP,
        class: PLAIN_TWO_MARKING,
        problem: Event(1, 0),
        numbers: &[(1, 1), (-1, 1)],
        start: 1,
        pre: &[1],
        post: &[0],
        tokens: Some(&[1, 0]),
    },
    // a class that isn't plain has twice the effects
    Worked {
        text: STEP,
        class: TWO_MARKING,
        problem: States(0, 1),
        numbers: &[(-FAR, 1)],
        start: 85070591730234615865843651857942052864,
        pre: &[85070591730234615865843651857942052864],
        post: &[0],
        tokens: Some(&[85070591730234615865843651857942052864, 0]),
    },
];

#[test]
fn starts_are_multiples(rt: HostRuntime) {
    are_made(&rt, &MARKED);
}

// What the point of these numbers passes, in a problem of the lock.
fn wide_place(alloc: Global, numbers: &[(i128, i128)]) -> Option<FoldStop> {
    place_of_text(alloc, GET_AND_PUT, ALL_NETS, Event(1, 2), numbers)?.err()
}

#[test]
fn the_first_step_out_of_range_is_shown(rt: HostRuntime) {
    let passes = Wide {
        a: i128::MAX,
        b: i128::MAX - 1,
        c: 0,
        d: 0,
    };
    let numbers = [(1, i128::MAX), (1, i128::MAX - 1)];
    assert!(rt; wide_place(rt.alloc(), &numbers) == Some(FoldStop::Wide(passes)));
}

// What the point of this number passes, in a class that asks a multiple of 2 and whose problem is two states.
fn wide_marking(alloc: Global, effect: i128) -> Option<FoldStop> {
    place_of_text(alloc, STEP, TWO_MARKING, States(0, 1), &[(effect, 1)])?.err()
}

#[test]
fn the_marking_comes_out_of_range(rt: HostRuntime) {
    let effect = -(FAR * 2);
    let passes = Wide {
        a: effect,
        b: 2,
        c: 0,
        d: 0,
    };
    assert!(rt; wide_marking(rt.alloc(), effect) == Some(FoldStop::Wide(passes)));
}

// A label without an arc, and one with an arc.
const UNUSED: &str = ".type LTS .states s0[initial] .labels a b .arcs s0 b s0";

// Whether the second label of the system alone is used.
fn is_second_used(alloc: Global, lts: &Lts) -> bool {
    match used_labels(alloc, lts) {
        Ok(used) => used.as_slice() == [false, true].as_slice(),
        Err(_) => false,
    }
}

#[test]
fn columns_are_told(rt: HostRuntime) -> Result<(), Fail> {
    let lts = system(rt.alloc(), UNUSED).ok_or("a system")?;
    assert!(rt; is_second_used(rt.alloc(), &lts));
    assert!(rt; has_start(PURE) && !has_start(NONBRANCHING));
    Ok(())
}

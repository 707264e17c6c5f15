//! Calls over a system, its tree, a basis, a class, and a case of a problem.
ghost use Rattle.std.specs.Prelude.{◌≡◌, IfOk};
ghost use Rattle.rg_theory.specs.System.{labels};
ghost use Rattle.rg_spanning.specs.Spanning.{IsTreeOf};
ghost use Rattle.rg_cycles.specs.View.{labels_of};

use crate::asked::is_asked;
use crate::bases::basis;
use crate::places::{GET_AND_PUT, is_point, point};
use rg_case_parts::Setting;
use rg_cycles::{Basis, Stop};
use rg_fraction::{FoldStop, Fraction};
use rg_integers::Wide;
use rg_net::Place;
use rg_rows::cases;
use rg_samples::{ABA, PURE, system};
use rg_separate::make_place;
use rg_spanning::Tree;
use rg_test_bases::solved;
use rg_theory::Problem::{self, Event};
use rg_theory::{ALL_NETS, Class};
use std::alloc::{AllocError, Global};

// 2^126
const HALF: i128 = 85070591730234615865843651857942052864;

// The one chord by which the effect of the first label is -2^126 times that of the second.
fn far_chords(alloc: Global) -> Result<Vec<Vec<i128>>, AllocError> {
    let mut chords = Vec::new(alloc);
    chords.push(vec![in alloc; 1, HALF]?)?;
    Ok(chords)
}

// The basis of that chord.
fn far_basis(alloc: Global) -> Result<Basis, Stop>
    ensures { IfOk result (λ b. labels_of b ≡ 2) }
{
    let chords = far_chords(alloc)?;
    solved(alloc, 2, &chords)
}

// What the rows of a problem of two labels pass over that basis.
fn wide_rows(alloc: Global) -> Option<FoldStop> {
    let lts = system(alloc, ABA)?;
    let Ok(tree) = Tree::grow(alloc, &lts) else {
        return None;
    };
    let Ok(basis) = far_basis(alloc) else {
        return None;
    };
    let problem = Event(1, 0);
    if lts.labels() != 2 || !is_asked(&lts, problem) {
        return None;
    }
    rg_rows::system(alloc, &lts, &tree, &basis, PURE, problem, 0).err()
}

// The place of a point of a case that has one number for each column.
fn place_over(
    alloc: Global,
    setting: Setting<'_>,
    problem: Problem,
    case: u32,
    point: &[Fraction],
) -> Option<Result<Place, FoldStop>>
    requires tree { IsTreeOf setting.lts.now setting.tree.now }
    requires labels { labels_of setting.basis.now ≡ labels setting.lts.now }
{
    let Setting {
        lts,
        tree,
        basis,
        class,
    } = setting;
    if case >= cases(lts, class, problem) || !is_asked(lts, problem) {
        return None;
    }
    if !is_point(alloc, setting, point).ok()? {
        return None;
    }
    Some(make_place(alloc, lts, tree, basis, class, problem, case, point))
}

// The place of a point of the first case of a problem of the system that a text spells.
fn place_by_call(
    alloc: Global,
    text: &str,
    class: Class,
    problem: Problem,
    numbers: &[(i128, i128)],
) -> Option<Result<Place, FoldStop>> {
    let point = point(alloc, numbers).ok()?;
    let lts = system(alloc, text)?;
    let Ok(tree) = Tree::grow(alloc, &lts) else {
        return None;
    };
    let Ok(basis) = basis(alloc, &lts, &tree) else {
        return None;
    };
    let setting = Setting {
        lts: &lts,
        tree: &tree,
        basis: &basis,
        class,
    };
    place_over(alloc, setting, problem, 0, &point)
}

// Whether a takes the one token, and b puts it back.
fn is_taken_by_a(alloc: Global) -> bool {
    match place_by_call(alloc, ABA, ALL_NETS, Event(1, 0), &[(-1, 1), (1, 1)]) {
        Some(Ok(place)) => {
            place.start == 1
                && place.pre.as_slice() == [1, 0].as_slice()
                && place.post.as_slice() == [0, 1].as_slice()
        }
        _ => false,
    }
}

#[test]
fn a_point_of_a_case_makes_a_place(rt: HostRuntime) {
    assert!(rt; is_taken_by_a(rt.alloc()));
}

// Whether the first step out of range is refused on the way to a place.
fn is_place_refused(alloc: Global) -> bool {
    let passes = Wide {
        a: i128::MAX,
        b: i128::MAX - 1,
        c: 0,
        d: 0,
    };
    let numbers = [(1, i128::MAX), (1, i128::MAX - 1)];
    match place_by_call(alloc, GET_AND_PUT, ALL_NETS, Event(1, 2), &numbers) {
        Some(Err(stop)) => stop == FoldStop::Wide(passes),
        _ => false,
    }
}

// Whether twice the effect of a is refused in the row that a is blocked.
fn are_rows_refused(alloc: Global) -> bool {
    let passes = Wide {
        a: -2,
        b: -HALF,
        c: 0,
        d: 0,
    };
    wide_rows(alloc) == Some(FoldStop::Wide(passes))
}

#[test]
fn steps_out_of_range_are_refused(rt: HostRuntime) {
    assert!(rt; is_place_refused(rt.alloc()));
    assert!(rt; are_rows_refused(rt.alloc()));
}

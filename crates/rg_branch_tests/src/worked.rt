//! Small systems worked by hand.
ghost use Rattle.std.specs.Prelude.{◌≡◌, ◌<◌, length, IfOk};
ghost use Rattle.rg_branch.specs.Asked.{CanBranch};

use crate::bounds::{Top, can_branch, can_branch_after};
use crate::systems::{Told, ToldForm, forms, rows as linear_rows, sides, system};
use rg_branch::{Bounded, BranchStop, RawNode, Solver, Whole, solve_whole};
use rg_feasible::PivotWide;
use rg_fraction::Fraction;
use rg_integers::Wide;
use rg_linear::{JoinedSystem, RowList, System};
use std::alloc::{AllocError, Global};
use std::process::Abort;
use std::test::Fail;

// A leaf's weights, or a split.
type Node<'a> = Result<&'a [(u32, i128)], (u32, i64)>;

// What is to come of a system.
#[derive(Clone, Copy)]
enum Answer<'a> {
    // the numerator and denominator of each column, and the splits above
    Point(&'a [(i128, i128)], &'a [(u32, i64, bool)]),
    // the nodes in preorder
    Tree(&'a [Node<'a>]),
    // the splits above and the set
    Wide(&'a [(u32, i64, bool)], &'a [u32], PivotWide),
}

// The coefficients of two columns, and the constant.
type Row = ([i128; 2], i128);

// A form's scale, coefficients, low, high and row, and its top row.
type Form = (i128, [i128; 2], i64, i64, u32, (u32, i128));

fn nodes(alloc: Global, told: &[Node]) -> Result<Vec<RawNode>, AllocError> {
    let mut list = Vec::new(alloc);
    for node in told {
        match node {
            Err((form, at)) => list.push(RawNode::Split(*form, *at))?,
            Ok(weights) => {
                let weights = weights.to_vec(alloc)?;
                list.push(RawNode::Leaf(weights))?;
            }
        }
    }
    Ok(list)
}

fn values(alloc: Global, told: &[(i128, i128)]) -> Result<Vec<Fraction>, AllocError> {
    let mut list = Vec::new(alloc);
    for &(n, d) in told {
        list.push(Fraction::new(n.max(-i128::MAX), d.max(1)))?;
    }
    Ok(list)
}

fn result_of(alloc: Global, told: Answer) -> Result<Result<Whole, BranchStop>, AllocError> {
    match told {
        Answer::Point(numbers, above) => {
            let values = values(alloc, numbers)?;
            let above = sides(alloc, above)?;
            Ok(Ok(Whole::Point(values, above)))
        }
        Answer::Tree(told) => {
            let nodes = nodes(alloc, told)?;
            Ok(Ok(Whole::Tree(nodes)))
        }
        Answer::Wide(above, members, wide) => {
            let above = sides(alloc, above)?;
            let members = members.to_vec(alloc)?;
            Ok(Err(BranchStop::Wide {
                above,
                members,
                wide,
            }))
        }
    }
}

// Branching over these rows and forms, each the row that it names, has this answer.
fn branches(
    rt: &(impl Abort + AllocGlobal),
    rows: &[Row],
    told: &[Form],
    wanted: Answer,
) -> Result<(), Fail> {
    let (list, tops) = forms_of(rt.alloc(), told)?;
    branches_on(rt, rows, &list, &tops, wanted)
}

// These rows, which are fewer than 1,000.
fn told_rows<'a>(rt: &(impl Abort + AllocGlobal), rows: &'a [Row]) -> Result<Vec<Told<'a>>, Fail>
    ensures { IfOk result (λ v. length v.items < 1000) }
{
    let mut list = Vec::new(rt.alloc());
    for (coeffs, constant) in rows {
        list.push(Told {
            coeffs,
            constant: *constant,
        })?;
    }
    assert!(rt; list.len() < 1000);
    Ok(list)
}

// The system of these rows, with these forms.
fn system_of_rows(
    rt: &(impl Abort + AllocGlobal),
    rows: &[Row],
    told: &[ToldForm],
    tops: &[Top],
) -> Result<(System, Vec<Bounded>), Fail>
    ensures can { IfOk result (λ a. CanBranch a.0 0 a.1.items) }
    ensures columns { IfOk result (λ a. a.0.columns ≡ 2) }
{
    let list = told_rows(rt, rows)?;
    let system = system(rt.alloc(), 2, &list)?;
    let forms = forms(rt.alloc(), told)?;
    assert!(rt; can_branch(&system, &forms, tops), "{rows:?}");
    Ok((system, forms))
}

// Branching over these rows and forms has this answer.
fn branches_on(
    rt: &(impl Abort + AllocGlobal),
    rows: &[Row],
    told: &[ToldForm],
    tops: &[Top],
    wanted: Answer,
) -> Result<(), Fail> {
    let (system, forms) = system_of_rows(rt, rows, told, tops)?;
    let found = solve_whole(rt.alloc(), &system, &forms);
    assert_eq!(rt; found, result_of(rt.alloc(), wanted)?, "{rows:?}");
    Ok(())
}

// Branching over the system whose rows are in two lists, the first one with so many of these rows, has this answer.
// The forms and their tops name rows of the second list.
fn branches_after(
    rt: &(impl Abort + AllocGlobal),
    rows: &[Row],
    before: u32,
    told: &[Form],
    wanted: Answer,
) -> Result<(), Fail> {
    let (list, tops) = forms_of(rt.alloc(), told)?;
    let forms = forms(rt.alloc(), &list)?;
    let list = told_rows(rt, rows)?;
    let mut own = linear_rows(rt.alloc(), 2, &list)?;
    assert!(rt; before as usize <= own.len());
    let shared = RowList::new(own.split_off(before as usize)?);
    let joined = JoinedSystem::new(2, &own, &shared);
    assert!(rt;
        can_branch_after(&joined, &forms, before, &tops),
        "{rows:?}"
    );
    let mut solver = Solver::new(rt.alloc(), 2)?;
    let found = solver.solve_whole(rt.alloc(), &joined, &forms, before);
    assert_eq!(rt; found, result_of(rt.alloc(), wanted)?, "{rows:?}");
    Ok(())
}

// The solver gives over these rows and forms what `solve_whole` does.
fn serves(
    rt: &(impl Abort + AllocGlobal),
    solver: &mut Solver,
    rows: &[Row],
    told: &[ToldForm],
    tops: &[Top],
) -> Result<(), Fail>
    requires { solver.old ≡ 2 }
    ensures { solver.new ≡ 2 }
{
    let (system, forms) = system_of_rows(rt, rows, told, tops)?;
    let found = solver.solve_whole(rt.alloc(), &JoinedSystem::of(&system), &forms, 0);
    assert_eq!(rt; found, solve_whole(rt.alloc(), &system, &forms), "{rows:?}");
    Ok(())
}

// The same, where each form is the row that it names.
fn serves_rows(
    rt: &(impl Abort + AllocGlobal),
    solver: &mut Solver,
    rows: &[Row],
    told: &[Form],
) -> Result<(), Fail>
    requires { solver.old ≡ 2 }
    ensures { solver.new ≡ 2 }
{
    let (list, tops) = forms_of(rt.alloc(), told)?;
    serves(rt, solver, rows, &list, &tops)
}

// The forms, and their top rows.
fn forms_of<'a>(
    alloc: Global,
    told: &'a [Form],
) -> Result<(Vec<ToldForm<'a>>, Vec<Top>), AllocError> {
    let mut list = Vec::new(alloc);
    let mut tops = Vec::new(alloc);
    for (scale, coeffs, low, high, row, (top, times)) in told {
        list.push(ToldForm {
            scale: *scale,
            coeffs,
            low: *low,
            high: *high,
            row: *row,
            times: 1,
        })?;
        tops.push(Top {
            row: *top,
            times: *times,
        })?;
    }
    Ok((list, tops))
}

// The columns are Start and E(b), and E(a) is -E(b)/2: the cycle of the labels a, a and b.

// No place of a plain class separates event b at the first state.
const PLAIN: [Row; 10] = [
    ([-1, 0], 0),
    ([1, -1], -1),
    ([0, -1], 0),
    ([1, 0], 0),
    ([2, -1], 0),
    ([1, -1], 0),
    ([0, 1], 2),
    ([0, -1], 1),
    ([0, -1], 2),
    ([0, 1], 1),
];

const PLAIN_FORMS: [Form; 2] = [
    (2, [0, -1], -1, 1, 8, (6, 1)),
    (1, [0, 1], -1, 1, 9, (7, 1)),
];

const PLAIN_TREE: [Node; 3] = [
    Err((0, 0)),
    Ok(&[(0, 1), (1, 1), (10, 1)]),
    Ok(&[(9, 1), (10, 1)]),
];

// At most one token in each state, and at most two.
const SAFE: [Row; 7] = [
    ([0, -1], -1),
    ([1, 0], 0),
    ([2, -1], 0),
    ([1, -1], 0),
    ([-1, 0], 1),
    ([-2, 1], 2),
    ([-1, 1], 1),
];

const SAFE_FORMS: [Form; 3] = [
    (1, [1, 0], 0, 1, 1, (4, 1)),
    (2, [2, -1], 0, 1, 2, (5, 1)),
    (1, [1, -1], 0, 1, 3, (6, 1)),
];

const SAFE_TREE: [Node; 3] = [
    Err((1, 0)),
    Ok(&[(0, 1), (1, 2), (7, 1)]),
    Ok(&[(0, 1), (6, 2), (7, 1)]),
];

const TWO: [Row; 7] = [
    ([0, -1], -1),
    ([1, 0], 0),
    ([2, -1], 0),
    ([1, -1], 0),
    ([-1, 0], 2),
    ([-2, 1], 4),
    ([-1, 1], 2),
];

const TWO_FORMS: [Form; 3] = [
    (1, [1, 0], 0, 2, 1, (4, 1)),
    (2, [2, -1], 0, 2, 2, (5, 1)),
    (1, [1, -1], 0, 2, 3, (6, 1)),
];

#[test]
fn cycle_of_two_labels(rt: HostRuntime) -> Result<(), Fail> {
    branches(&rt, &PLAIN, &PLAIN_FORMS, Answer::Tree(&PLAIN_TREE))?;
    branches(&rt, &SAFE, &SAFE_FORMS, Answer::Tree(&SAFE_TREE))?;
    let point = Answer::Point(&[(0, 1), (-2, 1)], &[(1, 0, true), (0, 0, false)]);
    branches(&rt, &TWO, &TWO_FORMS, point)
}

// The columns are x and y.

// x, 2*x - 1 and 1 - x: the point 1/2 is split
const HALF: [Row; 3] = [([1, 0], 0), ([2, 0], -1), ([-1, 0], 1)];

const HALF_FORMS: [Form; 1] = [(1, [1, 0], 0, 1, 0, (2, 1))];

// Two whole numbers from 0 to 3: 2*x + 3*y at most 4, 2*x + 2*y at least 3; and then x at most 3/2.
const TWO_SPLITS: [Row; 6] = [
    ([-2, -3], 4),
    ([2, 2], -3),
    ([1, 0], 0),
    ([0, 1], 0),
    ([-1, 0], 3),
    ([0, -1], 3),
];

const THREE_SPLITS: [Row; 7] = [
    ([-2, -3], 4),
    ([2, 2], -3),
    ([1, 0], 0),
    ([0, 1], 0),
    ([-1, 0], 3),
    ([0, -1], 3),
    ([-2, 0], 3),
];

const COLUMNS: [Form; 2] = [(1, [1, 0], 0, 3, 2, (4, 1)), (1, [0, 1], 0, 3, 3, (5, 1))];

const THREE_TREE: [Node; 7] = [
    Err((0, 1)),
    Err((1, 0)),
    Ok(&[(1, 1), (7, 2), (8, 2)]),
    Err((0, 0)),
    Ok(&[(0, 2), (1, 3), (9, 2)]),
    Ok(&[(0, 1), (8, 3), (9, 2)]),
    Ok(&[(6, 1), (7, 2)]),
];

#[test]
fn whole_columns(rt: HostRuntime) -> Result<(), Fail> {
    let high = Answer::Point(&[(1, 1), (0, 1)], &[(0, 0, true)]);
    branches(&rt, &HALF, &HALF_FORMS, high)?;
    let behind_two = Answer::Point(&[(2, 1), (0, 1)], &[(0, 1, true)]);
    branches(&rt, &TWO_SPLITS, &COLUMNS, behind_two)?;
    branches(&rt, &THREE_SPLITS, &COLUMNS, Answer::Tree(&THREE_TREE))
}

// The same forms, with rows counted after the first two.
const COLUMNS_AFTER_TWO: [Form; 2] = [(1, [1, 0], 0, 3, 0, (2, 1)), (1, [0, 1], 0, 3, 1, (3, 1))];

#[test]
fn rows_in_two_lists(rt: HostRuntime) -> Result<(), Fail> {
    let point = Answer::Point(&[(2, 1), (0, 1)], &[(0, 1, true)]);
    branches(&rt, &TWO_SPLITS, &COLUMNS, point)?;
    branches_after(&rt, &TWO_SPLITS, 2, &COLUMNS_AFTER_TWO, point)?;
    let tree = Answer::Tree(&THREE_TREE);
    branches(&rt, &THREE_SPLITS, &COLUMNS, tree)?;
    branches_after(&rt, &THREE_SPLITS, 2, &COLUMNS_AFTER_TWO, tree)
}

const MOST: i128 = i128::MAX;

// MOST * x - 1, (1 - MOST) * x and x
const LARGE: [Row; 3] = [([MOST, 0], -1), ([1 - MOST, 0], 0), ([1, 0], 0)];

const LARGE_FORMS: [Form; 1] = [(1, [1, 0], 0, 1, 2, (1, MOST - 1))];

// How the second exchange passes.
const PASSING: PivotWide = PivotWide {
    pivot: 3,
    leaves: 2,
    target: 0,
    entry: 0,
    wide: Wide {
        a: MOST,
        b: MOST - 1,
        c: 0,
        d: 0,
    },
};

#[test]
fn no_split_is_due(rt: HostRuntime) -> Result<(), Fail> {
    let wide = Answer::Wide(&[], &[1, 2], PASSING);
    branches(&rt, &LARGE, &LARGE_FORMS, wide)?;
    branches(&rt, &LARGE, &[], wide)?;
    // x - 1 and 3 - x; x - 1 and -x
    let point = [([1, 0], -1), ([-1, 0], 3)];
    branches(&rt, &point, &[], Answer::Point(&[(1, 1), (0, 1)], &[]))?;
    let refuted = [([1, 0], -1), ([-1, 0], 0)];
    branches(&rt, &refuted, &[], Answer::Tree(&[Ok(&[(0, 1), (1, 1)])]))
}

// x, 2*x - 1, 1 - x, 3 - 4*x + 4*y and y + MOST: the point (1/2, 0) is split
const PASSES_BELOW: [Row; 5] = [
    ([1, 0], 0),
    ([2, 0], -1),
    ([-1, 0], 1),
    ([-4, 4], 3),
    ([0, 1], MOST),
];

// On the low side row 1 refutes. On the high side x is 1 + r, with r the row of the split, and so row 3 is -1 + 4*y -
// 4*r: its exchange with y has the constant of row 4 times 4.
const PASSING_BELOW: PivotWide = PivotWide {
    pivot: 5,
    leaves: 1,
    target: 6,
    entry: 1,
    wide: Wide {
        a: MOST,
        b: 4,
        c: -1,
        d: 1,
    },
};

#[test]
fn a_term_passes_below_a_split(rt: HostRuntime) -> Result<(), Fail> {
    let wide = Answer::Wide(&[(0, 0, true)], &[1, 7], PASSING_BELOW);
    branches(&rt, &PASSES_BELOW, &HALF_FORMS, wide)
}

// 2*x - 1, 1 - 2*x, x and 2^60 - 2^60*x: the point 1/2 is split. The last row is so long that no number of the
// revised dictionary may pass 3. At the root none does; below it the row of the split brings 2^60.
const LONG: i128 = 1152921504606846976;

const LONG_ROWS: [Row; 4] = [([2, 0], -1), ([-2, 0], 1), ([1, 0], 0), ([-LONG, 0], LONG)];

// 2^60 times x, which is 2^60 times the third row
const LONG_FORM: ToldForm = ToldForm {
    scale: LONG,
    coeffs: &[LONG, 0],
    low: 0,
    high: 1,
    row: 2,
    times: LONG,
};

const LONG_TREE: [Node; 3] = [
    Err((0, 0)),
    Ok(&[(0, LONG / 2), (4, 1)]),
    Ok(&[(1, LONG / 2), (4, 1)]),
];

#[test]
fn numbers_grow_below_the_root(rt: HostRuntime) -> Result<(), Fail> {
    let top = Top { row: 3, times: 1 };
    branches_on(
        &rt,
        &LONG_ROWS,
        &[LONG_FORM],
        &[top],
        Answer::Tree(&LONG_TREE),
    )
}

#[test]
fn one_solver_serves_one_system_after_the_other(rt: HostRuntime) -> Result<(), Fail> {
    let mut solver = Solver::new(rt.alloc(), 2)?;
    // one stops at the root, one has a point, the numbers of one grow, one stops below a split, and one has splits
    // below splits
    serves_rows(&rt, &mut solver, &LARGE, &LARGE_FORMS)?;
    serves_rows(&rt, &mut solver, &TWO, &TWO_FORMS)?;
    let top = Top { row: 3, times: 1 };
    serves(&rt, &mut solver, &LONG_ROWS, &[LONG_FORM], &[top])?;
    serves_rows(&rt, &mut solver, &PASSES_BELOW, &HALF_FORMS)?;
    serves_rows(&rt, &mut solver, &THREE_SPLITS, &COLUMNS)
}

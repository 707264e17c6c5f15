//! The revised dictionary ends as the full one does, but where a number is too large for it.
ghost use Rattle.std.specs.Prelude.{◌≡◌, ℕ, ◌+◌, ◌<◌, ◌≤◌, ◌^◌, List, length, map};
ghost use Rattle.rg_linear.specs.System.{LinearSystem, with_rows};
ghost use Rattle.rg_linear.specs.View.{linear_row, linear_system, IsWellFormed};
ghost use Rattle.rg_revised.specs.Settling.{IsHeldOf, IsRefutedAt};

use crate::descents::{
    AGREED, NO_COLUMN, ONE_COLUMN, Shown, TAKEN_AGAIN, Told, is_well_formed, outcome, rows_of,
    shown_of,
};
use rg_feasible::Settled;
use rg_linear::{JoinedSystem, Row, System};
use rg_revised::{Descent, Revised};
use std::alloc::{AllocError, Global};

/// What a revised dictionary shows once it is settled: the values of the columns, and the multipliers of the rows.
#[derive(PartialEq, Drop)]
pub(crate) struct Small {
    pub(crate) ended: Descent,
    pub(crate) values: Vec<(i128, i128)>,
    pub(crate) multipliers: Vec<i128>,
}

fn values(alloc: Global, revised: &Revised, columns: u32) -> Result<Vec<(i128, i128)>, AllocError>
    requires held { (system : LinearSystem) × (members : List ℕ) × IsHeldOf system members revised.now }
    requires columns { columns ≤ length revised.now.tableau.basis.slots }
{
    let mut values = Vec::new(alloc);
    for t in 0..columns {
        let value = revised.column(t);
        values.push((value.numerator(), value.denominator()))?;
    }
    Ok(values)
}

fn multipliers(alloc: Global, revised: &Revised, rows: u32) -> Result<Vec<i128>, AllocError>
    requires refuted { (system : LinearSystem) × (members : List ℕ) × (i : ℕ) × IsRefutedAt system members i revised.now }
    requires rows { length revised.now.tableau.basis.slots + rows < 2 ^ 32 }
{
    let mut multipliers = Vec::new(alloc);
    for row in 0..rows {
        multipliers.push(revised.multiplier(row))?;
    }
    Ok(multipliers)
}

/// Returns what the revised dictionary of the system with these rows after its own shows.
pub(crate) fn show(
    alloc: Global,
    system: &JoinedSystem<'_>,
    further: &[Row],
) -> Result<Small, AllocError>
    requires { IsWellFormed (with_rows system.now (map linear_row further.now)) }
{
    let columns = system.columns();
    let count = system.count() + further.len() as u32;
    let mut revised = Revised::new(alloc, columns)?;
    let ended = revised.settle(system, further);
    let mut small = Small {
        ended,
        values: Vec::new(alloc),
        multipliers: Vec::new(alloc),
    };
    match ended {
        Descent::Point => small.values = values(alloc, &revised, columns)?,
        Descent::Refuted(_) => small.multipliers = multipliers(alloc, &revised, count)?,
        Descent::Large => {}
    }
    Ok(small)
}

/// Returns what the revised dictionary shows where a system without a row gets these rows.
pub(crate) fn settle_small(alloc: Global, columns: u32, rows: &[Row]) -> Option<Small> {
    if !is_well_formed(columns, rows) {
        return None;
    }
    let none = System::new(columns, Vec::new(alloc));
    show(alloc, &JoinedSystem::of(&none), rows).ok()
}

// Whether both show the same.
fn is_same(columns: u32, small: &Small, shown: &Shown) -> bool {
    match (small.ended, shown.settled) {
        (Descent::Point, Settled::Point) => {
            shown.values.get(..columns as usize) == Some(small.values.as_slice())
        }
        (Descent::Refuted(row), Settled::Refuted(i)) => {
            row == i && small.multipliers == shown.multipliers
        }
        _ => false,
    }
}

// Whether the revised dictionary of these rows ends as the full one does.
fn agrees(alloc: Global, columns: u32, told: &[Told]) -> bool {
    let Some(shown) = outcome(alloc, columns, told) else {
        return false;
    };
    let Ok(rows) = rows_of(alloc, told) else {
        return false;
    };
    match settle_small(alloc, columns, &rows) {
        Some(small) => is_same(columns, &small, &shown),
        None => false,
    }
}

#[test]
fn worked_systems_agree(rt: HostRuntime) {
    for case in ONE_COLUMN.iter().chain(&NO_COLUMN).chain(&TAKEN_AGAIN) {
        assert!(rt;
            agrees(rt.alloc(), case.columns, case.rows),
            "{} columns: {:?}",
            case.columns,
            case.settled
        );
    }
}

#[test]
fn told_systems_agree(rt: HostRuntime) {
    for (told, _refuted) in AGREED {
        assert!(rt; agrees(rt.alloc(), 3, &told), "{told:?}");
    }
}

// A number from -3 to 3 (a linear congruential generator: Knuth, *The Art of Computer Programming*, volume 2).
fn next(state: &mut u64) -> i128 {
    *state = state
        .wrapping_mul(6364136223846793005)
        .wrapping_add(1442695040888963407);
    i128::from((*state >> 33) % 7) - 3
}

fn random_row(alloc: Global, state: &mut u64, columns: u32) -> Result<Row, AllocError> {
    let mut coeffs = Vec::new(alloc);
    for _ in 0..columns {
        coeffs.push(next(state))?;
    }
    Ok(Row::new(coeffs, next(state)))
}

// So many rows, which the number fixes.
fn random_rows(
    alloc: Global,
    number: u64,
    columns: u32,
    count: u32,
) -> Result<Vec<Row>, AllocError> {
    let mut state = number;
    let mut rows = Vec::new(alloc);
    for _ in 0..count {
        rows.push(random_row(alloc, &mut state, columns)?)?;
    }
    Ok(rows)
}

// What the revised dictionary of random rows comes to, where it ends as the full one does.
fn random_agrees(alloc: Global, number: u64, columns: u32, count: u32) -> Option<Descent> {
    let rows = random_rows(alloc, number, columns, count).ok()?;
    let small = settle_small(alloc, columns, &rows)?;
    let shown = shown_of(alloc, columns, rows)?;
    if is_same(columns, &small, &shown) {
        Some(small.ended)
    } else {
        None
    }
}

#[test]
fn random_systems_agree(rt: HostRuntime) {
    let (mut points, mut refuted) = (0u32, 0u32);
    for i in 0..1000u32 {
        match random_agrees(rt.alloc(), u64::from(i), 1 + i % 6, 1 + i / 6 % 9) {
            Some(Descent::Point) => points = points.saturating_add(1),
            Some(Descent::Refuted(_)) => refuted = refuted.saturating_add(1),
            _ => panic!(rt; "system {i}"),
        }
    }
    assert!(rt;
        points > 99 && refuted > 99,
        "{points} points, {refuted} refuted"
    );
}

// Whether a number of these rows is too large for the revised dictionary, and the full one ends with a point.
fn is_large(alloc: Global, columns: u32, told: &[Told]) -> bool {
    let (Some(shown), Ok(rows)) = (outcome(alloc, columns, told), rows_of(alloc, told)) else {
        return false;
    };
    match settle_small(alloc, columns, &rows) {
        Some(small) => small.ended == Descent::Large && shown.settled == Settled::Point,
        None => false,
    }
}

// x - (2^63 - 1): the row's norm passes 2^63 - 1
const LONG: [Told; 1] = [(&[1], 1 - 9223372036854775808)];

// The row 100*b - 99*a - 1 for each two neighbours of ten columns: the denominator is multiplied by 99 at each
// exchange. The last one needs sums of 128 bits.
const GROWING: [Told; 9] = [
    (&[-99, 100, 0, 0, 0, 0, 0, 0, 0, 0], -1),
    (&[0, -99, 100, 0, 0, 0, 0, 0, 0, 0], -1),
    (&[0, 0, -99, 100, 0, 0, 0, 0, 0, 0], -1),
    (&[0, 0, 0, -99, 100, 0, 0, 0, 0, 0], -1),
    (&[0, 0, 0, 0, -99, 100, 0, 0, 0, 0], -1),
    (&[0, 0, 0, 0, 0, -99, 100, 0, 0, 0], -1),
    (&[0, 0, 0, 0, 0, 0, -99, 100, 0, 0], -1),
    (&[0, 0, 0, 0, 0, 0, 0, -99, 100, 0], -1),
    (&[0, 0, 0, 0, 0, 0, 0, 0, -99, 100], -1),
];

// The same for twelve columns, where numbers pass 64 bits.
const GROWN: [Told; 11] = [
    (&[-99, 100, 0, 0, 0, 0, 0, 0, 0, 0, 0, 0], -1),
    (&[0, -99, 100, 0, 0, 0, 0, 0, 0, 0, 0, 0], -1),
    (&[0, 0, -99, 100, 0, 0, 0, 0, 0, 0, 0, 0], -1),
    (&[0, 0, 0, -99, 100, 0, 0, 0, 0, 0, 0, 0], -1),
    (&[0, 0, 0, 0, -99, 100, 0, 0, 0, 0, 0, 0], -1),
    (&[0, 0, 0, 0, 0, -99, 100, 0, 0, 0, 0, 0], -1),
    (&[0, 0, 0, 0, 0, 0, -99, 100, 0, 0, 0, 0], -1),
    (&[0, 0, 0, 0, 0, 0, 0, -99, 100, 0, 0, 0], -1),
    (&[0, 0, 0, 0, 0, 0, 0, 0, -99, 100, 0, 0], -1),
    (&[0, 0, 0, 0, 0, 0, 0, 0, 0, -99, 100, 0], -1),
    (&[0, 0, 0, 0, 0, 0, 0, 0, 0, 0, -99, 100], -1),
];

// The rows 80*b - 79*a - 1 of ten columns, of which the first one isn't negative, and the last one isn't positive.
const OPPOSED: [Told; 11] = [
    (&[-79, 80, 0, 0, 0, 0, 0, 0, 0, 0], -1),
    (&[0, -79, 80, 0, 0, 0, 0, 0, 0, 0], -1),
    (&[0, 0, -79, 80, 0, 0, 0, 0, 0, 0], -1),
    (&[0, 0, 0, -79, 80, 0, 0, 0, 0, 0], -1),
    (&[0, 0, 0, 0, -79, 80, 0, 0, 0, 0], -1),
    (&[0, 0, 0, 0, 0, -79, 80, 0, 0, 0], -1),
    (&[0, 0, 0, 0, 0, 0, -79, 80, 0, 0], -1),
    (&[0, 0, 0, 0, 0, 0, 0, -79, 80, 0], -1),
    (&[0, 0, 0, 0, 0, 0, 0, 0, -79, 80], -1),
    (&[1, 0, 0, 0, 0, 0, 0, 0, 0, 0], 0),
    (&[0, 0, 0, 0, 0, 0, 0, 0, 0, -1], 0),
];

#[test]
fn large_numbers_are_told(rt: HostRuntime) {
    assert!(rt; is_large(rt.alloc(), 1, &LONG), "a long row");
    assert!(rt; is_large(rt.alloc(), 12, &GROWN), "growing numbers");
}

#[test]
fn long_descents_agree(rt: HostRuntime) {
    assert!(rt; agrees(rt.alloc(), 10, &GROWING), "a point");
    assert!(rt; agrees(rt.alloc(), 10, &OPPOSED), "a refutation");
}

// Without its last row no number grows too large for sums of 64 bits.
#[test]
fn smaller_numbers_agree(rt: HostRuntime) {
    assert!(rt; agrees(rt.alloc(), 10, &GROWING[..8]));
}

//! Small systems worked by hand, and the descent written a second time, plainly.
ghost use Rattle.std.specs.Prelude.{◌≡◌, ℕ, ◌+◌, ◌<◌, ◌≤◌, IsTrue, length};
ghost use Rattle.rg_linear.specs.View.{linear_system, IsWellFormed};
ghost use Rattle.rg_feasible.specs.Settling.{IsWhole, IsRefutation};

use crate::plain::{self, Plain};
use rg_feasible::{Dictionary, Settled};
use rg_linear::{Row, System};
use rg_test_bases::is_in_range;
use std::alloc::{AllocError, Global};
use std::process::Abort;

/// Returns whether the system of so many columns and these rows is well formed.
pub(crate) fn is_well_formed(columns: u32, rows: &[Row]) -> bool
    ensures { IsTrue result → IsWellFormed (linear_system columns rows.now) }
{
    if rows.len() > (u32::MAX - columns) as usize {
        return false;
    }
    for row in rows {
        if row.coeffs.len() != columns as usize
            || !is_in_range(&row.coeffs)
            || row.constant.unsigned_abs() > i128::MAX.unsigned_abs()
        {
            return false;
        }
    }
    true
}

/// The coefficients of a row, and its constant.
pub(crate) type Told = (&'static [i128], i128);

/// A system, and what its descent comes to: its answer, the set at its end, the value of each column and row as a
/// fraction, and the multiplier of each row.
#[derive(Clone, Copy)]
pub(crate) struct Case {
    pub columns: u32,
    pub rows: &'static [Told],
    pub settled: Settled,
    pub members: &'static [u32],
    pub values: &'static [(i128, i128)],
    pub multipliers: &'static [i128],
}

/// Returns the rows of a case.
pub(crate) fn rows_of(alloc: Global, told: &[Told]) -> Result<Vec<Row>, AllocError> {
    let mut rows = Vec::new(alloc);
    for (coeffs, constant) in told {
        let coeffs = Vec::from_slice(alloc, coeffs)?;
        rows.push(Row::new(coeffs, *constant))?;
    }
    Ok(rows)
}

/// What a dictionary shows once it is settled.
#[derive(Drop)]
pub(crate) struct Shown {
    pub(crate) settled: Settled,
    pub(crate) members: Vec<u32>,
    pub(crate) values: Vec<(i128, i128)>,
    pub(crate) multipliers: Vec<i128>,
}

fn members(alloc: Global, dictionary: &Dictionary, columns: u32) -> Result<Vec<u32>, AllocError>
    requires { columns ≤ length dictionary.now.table.members }
{
    let mut members = Vec::new(alloc);
    for i in 0..columns {
        members.push(dictionary.member(i))?;
    }
    Ok(members)
}

// The numerator and denominator of each variable's value.
fn values(
    alloc: Global,
    dictionary: &Dictionary,
    variables: u32,
) -> Result<Vec<(i128, i128)>, AllocError>
    requires whole { IsWhole dictionary.now }
    requires variables { variables ≤ dictionary.now.table.columns + dictionary.now.table.rows }
{
    let mut values = Vec::new(alloc);
    for j in 0..variables {
        let value = dictionary.point(j);
        values.push((value.numerator(), value.denominator()))?;
    }
    Ok(values)
}

fn multipliers(alloc: Global, dictionary: &Dictionary, rows: u32) -> Result<Vec<i128>, AllocError>
    requires refuted { (i : ℕ) × IsRefutation dictionary.now i }
    requires rows { rows ≤ dictionary.now.table.rows }
{
    let mut multipliers = Vec::new(alloc);
    for row in 0..rows {
        multipliers.push(dictionary.multiplier(row))?;
    }
    Ok(multipliers)
}

// What the dictionary of the system shows once it is settled.
fn show(alloc: Global, system: &System) -> Option<Shown> {
    let columns = system.columns();
    let rows = system.rows().len() as u32;
    let mut dictionary = Dictionary::new(alloc, system).ok()?;
    let settled = dictionary.settle();
    let members = members(alloc, &dictionary, columns).ok()?;
    let values = match settled {
        Settled::Point => values(alloc, &dictionary, columns + rows).ok()?,
        _ => Vec::new(alloc),
    };
    let multipliers = match settled {
        Settled::Refuted(_) => multipliers(alloc, &dictionary, rows).ok()?,
        _ => Vec::new(alloc),
    };
    Some(Shown {
        settled,
        members,
        values,
        multipliers,
    })
}

/// Returns what the dictionary of these rows shows once it is settled.
pub(crate) fn shown_of(alloc: Global, columns: u32, rows: Vec<Row>) -> Option<Shown> {
    if !is_well_formed(columns, &rows) {
        return None;
    }
    show(alloc, &System::new(columns, rows))
}

/// Returns what the descent over the rows of a case shows.
pub(crate) fn outcome(alloc: Global, columns: u32, told: &[Told]) -> Option<Shown> {
    let rows = rows_of(alloc, told).ok()?;
    shown_of(alloc, columns, rows)
}

// Whether the descent of a case has the result that the case names.
fn is_settled(alloc: Global, case: &Case) -> bool {
    match outcome(alloc, case.columns, case.rows) {
        Some(shown) => {
            shown.settled == case.settled
                && shown.members.as_slice() == case.members
                && shown.values.as_slice() == case.values
                && shown.multipliers.as_slice() == case.multipliers
        }
        None => false,
    }
}

/// Checks that the descent of each case has the result that the case names.
pub(crate) fn are_settled(rt: &(impl Abort + AllocGlobal), cases: &[Case]) {
    for case in cases {
        assert!(rt;
            is_settled(rt.alloc(), case),
            "{} columns: {:?}",
            case.columns,
            case.settled
        );
    }
}

// x - 1 and 3 - x; x - 1 and -x
pub(crate) const ONE_COLUMN: [Case; 2] = [
    Case {
        columns: 1,
        rows: &[(&[1], -1), (&[-1], 3)],
        settled: Settled::Point,
        members: &[1],
        values: &[(1, 1), (0, 1), (2, 1)],
        multipliers: &[],
    },
    Case {
        columns: 1,
        rows: &[(&[1], -1), (&[-1], 0)],
        settled: Settled::Refuted(0),
        members: &[2],
        values: &[],
        multipliers: &[1, 1],
    },
];

#[test]
fn one_column(rt: HostRuntime) {
    are_settled(&rt, &ONE_COLUMN);
}

pub(crate) const NO_COLUMN: [Case; 2] = [
    Case {
        columns: 0,
        rows: &[(&[], 0)],
        settled: Settled::Point,
        members: &[],
        values: &[(0, 1)],
        multipliers: &[],
    },
    Case {
        columns: 0,
        rows: &[(&[], -1)],
        settled: Settled::Refuted(0),
        members: &[],
        values: &[],
        multipliers: &[1],
    },
];

#[test]
fn no_column(rt: HostRuntime) {
    are_settled(&rt, &NO_COLUMN);
}

// x0 - x2, -x1, 2*x2 - 1: the exchange of the last row makes the first one fail
pub(crate) const TAKEN_AGAIN: [Case; 1] = [Case {
    columns: 3,
    rows: &[(&[1, 0, -1], 0), (&[0, -1, 0], 0), (&[0, 0, 2], -1)],
    settled: Settled::Point,
    members: &[1, 3, 5],
    values: &[(1, 2), (0, 1), (1, 2), (0, 1), (0, 1), (0, 1)],
    multipliers: &[],
}];

#[test]
fn first_row_is_taken_again(rt: HostRuntime) {
    are_settled(&rt, &TAKEN_AGAIN);
}

// The plain descent over the rows of a case.
fn plainly(alloc: Global, told: &[Told]) -> Option<Plain> {
    let rows = rows_of(alloc, told).ok()?;
    plain::descent(alloc, 3, &rows).ok()
}

// Whether the plain descent is refuted at this row, and ends as `settle` does, at the same set.
fn agrees(alloc: Global, told: &[Told], refuted: Option<u32>) -> bool {
    let Some(plain) = plainly(alloc, told) else {
        return false;
    };
    let Some(shown) = outcome(alloc, 3, told) else {
        return false;
    };
    let settled = match refuted {
        Some(row) => Settled::Refuted(row),
        None => Settled::Point,
    };
    plain.refuted == refuted
        && shown.settled == settled
        && shown.members.as_slice() == plain.members.as_slice()
}

// Rows of three columns, and the row at which their descent is refuted.
pub(crate) const AGREED: [([Told; 4], Option<u32>); 4] = [
    (
        [
            (&[-2, 2, 1], -2),
            (&[2, 2, 2], 0),
            (&[0, 2, 0], -1),
            (&[2, -1, 0], -1),
        ],
        None,
    ),
    (
        [
            (&[-2, 1, -1], -2),
            (&[-2, -1, 1], 1),
            (&[-1, 0, -2], -2),
            (&[0, 0, -2], -2),
        ],
        None,
    ),
    (
        [
            (&[0, 2, 0], 0),
            (&[-2, 2, 0], -2),
            (&[0, -1, -1], 0),
            (&[1, -1, 2], -2),
        ],
        Some(0),
    ),
    (
        [
            (&[2, -2, 1], 1),
            (&[0, 2, -2], 1),
            (&[-2, -1, -1], 0),
            (&[0, 0, 1], -2),
        ],
        Some(0),
    ),
];

#[test]
fn plain_descent_agrees(rt: HostRuntime) {
    for (told, refuted) in AGREED {
        assert!(rt; agrees(rt.alloc(), &told, refuted), "{told:?}");
    }
}

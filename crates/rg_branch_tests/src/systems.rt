//! Systems and forms from tables of numbers.
ghost use Rattle.std.specs.Prelude.{◌≡◌, ◌+◌, ◌<◌, ◌^◌, All, length, IfOk};
ghost use Rattle.rg_integers.specs.Range.{InRange};
ghost use Rattle.rg_linear.specs.View.{linear_row, linear_system, IsWellFormed};

use rg_branch::Bounded;
use rg_branch_trees::Side;
use rg_linear::{Row, System};
use std::alloc::{AllocError, Global};

/// The coefficients of a row, and its constant.
#[derive(Clone, Copy)]
pub(crate) struct Told<'a> {
    pub(crate) coeffs: &'a [i128],
    pub(crate) constant: i128,
}

/// A form: `scale`, coefficients, `low`, `high`, `row`, `times`.
#[derive(Clone, Copy)]
pub(crate) struct ToldForm<'a> {
    pub(crate) scale: i128,
    pub(crate) coeffs: &'a [i128],
    pub(crate) low: i64,
    pub(crate) high: i64,
    pub(crate) row: u32,
    pub(crate) times: i128,
}

// The number, but the least of all is the next one.
fn keep_in_range(number: i128) -> i128
    ensures { InRange result }
{
    number.max(-i128::MAX)
}

// The coefficient of a column: 0 where there are too few.
fn coefficient(told: Told, j: u32) -> i128
    ensures { InRange result }
{
    keep_in_range(told.coeffs.get(j as usize).copied().unwrap_or(0))
}

// A row of so many coefficients in range.
fn row(alloc: Global, columns: u32, told: Told) -> Result<Row, AllocError>
    ensures one_each { IfOk result (λ row. length (linear_row row).coeffs ≡ columns) }
    ensures coeffs { IfOk result (λ row. All InRange (linear_row row).coeffs) }
    ensures constant { IfOk result (λ row. InRange row.constant) }
{
    let mut coeffs = Vec::new(alloc);
    for j in 0..columns {
        coeffs.push(coefficient(told, j))?;
    }
    Ok(Row::new(coeffs, keep_in_range(told.constant)))
}

/// Returns these rows, each of so many coefficients.
pub(crate) fn rows(alloc: Global, columns: u32, told: &[Told]) -> Result<Vec<Row>, AllocError>
    requires { columns + length told.now < 2 ^ 32 }
    ensures count { IfOk result (λ v. length v.items ≡ length told.now) }
    ensures well_formed { IfOk result (λ v. IsWellFormed (linear_system columns v.items)) }
{
    let mut rows = Vec::new(alloc);
    for &one in told {
        rows.push(row(alloc, columns, one)?)?;
    }
    Ok(rows)
}

/// Returns the system of these rows.
pub(crate) fn system(alloc: Global, columns: u32, told: &[Told]) -> Result<System, AllocError>
    requires { columns + length told.now < 2 ^ 32 }
    ensures columns { IfOk result (λ s. s.columns ≡ columns) }
    ensures rows { IfOk result (λ s. length s.rows ≡ length told.now) }
{
    let rows = rows(alloc, columns, told)?;
    Ok(System::new(columns, rows))
}

/// Returns these forms.
pub(crate) fn forms(alloc: Global, told: &[ToldForm]) -> Result<Vec<Bounded>, AllocError> {
    let mut list = Vec::new(alloc);
    for form in told {
        let coeffs = form.coeffs.to_vec(alloc)?;
        list.push(Bounded {
            scale: form.scale,
            coeffs,
            low: form.low,
            high: form.high,
            row: form.row,
            times: form.times,
        })?;
    }
    Ok(list)
}

/// Returns the sides of splits, each the number of its form, the number at which that is split, and whether it is the
/// high side.
pub(crate) fn sides(
    alloc: Global,
    told: &[(u32, i64, bool)],
) -> Result<Vec<Side<u32>>, AllocError> {
    let mut sides = Vec::new(alloc);
    for &(form, at, high) in told {
        sides.push(Side { form, at, high })?;
    }
    Ok(sides)
}

//! Systems of linear rows.

ghost use Rattle.std.specs.Prelude.{◌≡◌, length, map};
ghost use Rattle.rg_linear.specs.Norm.{greatest_norm, kept_norm};
ghost use Rattle.rg_linear.specs.View.{linear_row, linear_system, IsWellFormed};

use crate::row::{Row, norm};
use std::marker::Model;

impl Row {
    /// Returns the row of these coefficients and this constant.
    pub fn new(coeffs: Vec<i128>, constant: i128) -> Row
        ensures { linear_row result ≡ record { coeffs = coeffs.items; constant = constant } }
    {
        let norm = norm(&coeffs, constant);
        Row {
            coeffs,
            constant,
            norm,
        }
    }
}

/// Returns the greatest norm of a row, `u64::MAX` where that passes, 0 where there is no row.
pub fn largest_norm(rows: &[Row]) -> u64
    ensures { result ≡ kept_norm (greatest_norm (map linear_row rows.now)) }
{
    let mut largest = 0;
    for row in rows {
        if row.norm > largest {
            largest = row.norm;
        }
    }
    largest
}

/// A number of columns and rows over them. Columns and rows together are fewer than 2^32, and every number
/// lies from -(2^127 - 1) to 2^127 - 1.
#[derive(Drop)]
pub struct System {
    columns: u32,
    rows: Vec<Row>,
    norm: u64,
}

impl Model for System {
    ghost use Rattle.rg_linear.specs.System.{LinearSystem};
    ghost use Rattle.rg_linear.specs.View.{linear_system, IsStored};

    ghost Value = { LinearSystem };

    ghost view = { λ a. linear_system a.columns a.rows.items };

    ghost invariant = { λ a. IsStored (linear_system a.columns a.rows.items) a.norm };
}

impl System {
    /// Returns the system of so many columns and these rows.
    pub fn new(columns: u32, rows: Vec<Row>) -> System
        requires { IsWellFormed (linear_system columns rows.items) }
        ensures { result ≡ linear_system columns rows.items }
    {
        let norm = largest_norm(&rows);
        System {
            columns,
            rows,
            norm,
        }
    }

    /// Returns how many columns there are.
    pub fn columns(&self) -> u32
        ensures value { result ≡ self.now.columns }
        ensures well_formed { IsWellFormed self.now }
    {
        self.columns
    }

    /// Returns the rows, in order.
    pub fn rows(&self) -> &[Row]
        ensures value { map linear_row result.now ≡ self.now.rows }
        ensures well_formed { IsWellFormed self.now }
    {
        &self.rows
    }

    /// Returns the greatest norm of a row, `u64::MAX` where that passes, 0 where there is no row.
    pub fn norm(&self) -> u64
        ensures value { result ≡ kept_norm (greatest_norm self.now.rows) }
        ensures well_formed { IsWellFormed self.now }
    {
        self.norm
    }
}

//! Systems whose rows are in two lists.

ghost use Rattle.std.specs.Prelude.{◌≡◌, ◌<◌, ◌++◌, length, map};
ghost use Rattle.rg_linear.specs.System.{row_at};
ghost use Rattle.rg_linear.specs.Norm.{greatest_norm, kept_norm};
ghost use Rattle.rg_linear.specs.View.{linear_row, linear_system, IsWellFormed};

use crate::row::Row;
use crate::system::{System, largest_norm};
use std::marker::Model;

/// Rows, with the greatest norm of one of them.
#[derive(Drop)]
pub struct RowList {
    pub rows: Vec<Row>,
    pub norm: u64,
    pub ghost norm_is: { norm ≡ kept_norm (greatest_norm (map linear_row rows.items)) },
}

impl RowList {
    /// Returns the list of these rows.
    pub fn new(rows: Vec<Row>) -> RowList
        ensures { result.rows ≡ rows }
    {
        let norm = largest_norm(&rows);
        RowList { rows, norm }
    }
}

/// A system whose rows are those of one list, and after them those of another, which it borrows: many systems can
/// have the second list in common.
#[derive(Drop)]
pub struct JoinedSystem<'a> {
    columns: u32,
    own: &'a [Row],
    shared: &'a [Row],
    norm: u64,
}

impl<'a> Model for JoinedSystem<'a> {
    ghost use Rattle.std.specs.Prelude.{◌++◌};
    ghost use Rattle.rg_linear.specs.System.{LinearSystem};
    ghost use Rattle.rg_linear.specs.View.{linear_system, IsStored};

    ghost Value = { LinearSystem };

    ghost view = { λ a. linear_system a.columns (a.own.now ++ a.shared.now) };

    ghost invariant = { λ a. IsStored (linear_system a.columns (a.own.now ++ a.shared.now)) a.norm };
}

impl<'a> JoinedSystem<'a> {
    /// Returns the system of so many columns with the rows of both lists, those of `own` first.
    pub fn new(columns: u32, own: &'a [Row], shared: &'a RowList) -> JoinedSystem<'a>
        requires { IsWellFormed (linear_system columns (own.now ++ shared.now.rows.items)) }
        ensures { result ≡ linear_system columns (own.now ++ shared.now.rows.items) }
    {
        let norm = largest_norm(own).max(shared.norm);
        JoinedSystem {
            columns,
            own,
            shared: &shared.rows,
            norm,
        }
    }

    /// Returns the system of so many columns with these rows alone.
    pub fn alone(columns: u32, own: &'a [Row]) -> JoinedSystem<'a>
        requires { IsWellFormed (linear_system columns own.now) }
        ensures { result ≡ linear_system columns own.now }
    {
        let norm = largest_norm(own);
        JoinedSystem {
            columns,
            own,
            shared: &[],
            norm,
        }
    }

    /// Returns the same system, with no row in the first list.
    pub fn of(system: &'a System) -> JoinedSystem<'a>
        ensures { result ≡ system.now }
    {
        JoinedSystem {
            columns: system.columns(),
            own: &[],
            shared: system.rows(),
            norm: system.norm(),
        }
    }

    /// Returns how many columns there are.
    pub fn columns(&self) -> u32
        ensures value { result ≡ self.now.columns }
        ensures well_formed { IsWellFormed self.now }
    {
        self.columns
    }

    /// Returns how many rows there are.
    pub fn count(&self) -> u32
        ensures value { result ≡ length self.now.rows }
        ensures well_formed { IsWellFormed self.now }
    {
        (self.own.len() + self.shared.len()) as u32
    }

    /// Returns row number `i`, counted from 0.
    pub fn row(&self, i: u32) -> &'a Row
        requires { i < length self.now.rows }
        ensures value { linear_row result.now ≡ row_at self.now i }
        ensures well_formed { IsWellFormed self.now }
    {
        let i = i as usize;
        if i < self.own.len() {
            &self.own[i]
        } else {
            &self.shared[i - self.own.len()]
        }
    }

    /// Returns the two lists of rows, in order.
    pub fn lists(&self) -> (&'a [Row], &'a [Row])
        ensures value { map linear_row result.0.now ++ map linear_row result.1.now ≡ self.now.rows }
        ensures well_formed { IsWellFormed self.now }
    {
        (self.own, self.shared)
    }

    /// Returns the greatest norm of a row, `u64::MAX` where that passes, 0 where there is no row.
    pub fn norm(&self) -> u64
        ensures value { result ≡ kept_norm (greatest_norm self.now.rows) }
        ensures well_formed { IsWellFormed self.now }
    {
        self.norm
    }
}

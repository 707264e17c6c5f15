//! Which rows are kept.
ghost use Rattle.std.specs.Prelude.{◌↔◌, ◌≡◌, ◌^◌, ◌<◌, ◌++◌, ◌∷◌, [], List, length, IsTrue, map, IfOk, OnOk};
ghost use Rattle.rg_linear.specs.Firsts.{KeepsEqualRows};
ghost use Rattle.rg_linear.specs.View.{linear_row};
ghost use Rattle.rg_case_folds.specs.Rewriting.{KeptRow, IsIdle};
ghost use Rattle.rg_rows.specs.View.{kept_row, row_in, ShowsRows, AreIndices};

use crate::case_row::CaseRow;
use crate::held_row::HeldRow;
use indexmap::IndexSet;
use rg_cert_meaning::RowName;
use rg_fraction::Fraction;
use rg_linear::Row;
use std::alloc::{AllocError, Global};

/// Rows, each with its name and its factor.
#[derive(Drop)]
pub(crate) struct CaseRows {
    pub(crate) rows: Vec<Row>,
    pub(crate) names: Vec<RowName>,
    pub(crate) factors: Vec<Fraction>,
}

// Leaves out the rows without coefficients that always hold, and of equal rows all but the first. Returns the rows
// that are kept, and for each row the number of the kept row that it is, 0 where it is left out.
pub(crate) fn firsts(alloc: Global, all: &[HeldRow<'_>]) -> Result<(CaseRows, Vec<u32>), AllocError>
    requires few { length all.now < 2 ^ 32 }
    ensures { IfOk result (λ r. (kept : List KeptRow) × ShowsRows r.0 kept × KeepsEqualRows (λ k. k.row) IsIdle [] (map kept_row (map row_in all.now)) kept × AreIndices (map kept_row (map row_in all.now)) kept r.1.items) }
{
    let mut seen = IndexSet::with_capacity(alloc, all.len())?;
    let mut indices = Vec::with_capacity(alloc, all.len())?;
    let mut kept = CaseRows {
        rows: Vec::with_capacity(alloc, all.len())?,
        names: Vec::with_capacity(alloc, all.len())?,
        factors: Vec::with_capacity(alloc, all.len())?,
    };
    for held in all {
        let row = held.row();
        if is_idle(row) {
            indices.push(0)?;
            continue;
        }
        let (index, is_new) = seen.insert_full(row.key())?;
        if is_new {
            kept.push(alloc, row)?;
        }
        indices.push(index as u32)?;
    }
    Ok((kept, indices))
}

impl CaseRows {
    // Adds a row.
    fn push(&mut self, alloc: Global, row: &CaseRow) -> Result<(), AllocError>
        ensures { OnOk result ((kept : List KeptRow) → ShowsRows self.old kept → ShowsRows self.new (kept ++ kept_row row.now ∷ [])) }
    {
        let coeffs = row.coeffs.to_vec(alloc)?;
        self.rows.push(Row {
            coeffs,
            constant: row.constant,
            norm: row.norm,
        })?;
        self.names.push(row.name)?;
        self.factors.push(row.factor)?;
        Ok(())
    }
}

// Whether the row has no coefficients and always holds.
fn is_idle(row: &CaseRow) -> bool
    ensures { IsTrue result ↔ IsIdle (kept_row row.now) }
{
    row.idle
}

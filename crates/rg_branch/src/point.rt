//! The forms at the point of a descent.
ghost use Rattle.std.specs.Prelude.{◌≡◌, ℕ, ◌+◌, ◌<◌, ◌^◌, ◌≤ℤ◌, ◌<ℤ◌, List, All, length, pos, IsTrue, IfOk, IfSome, IfNone};
ghost use Rattle.rg_fraction.specs.Fractions.{denominator_of};
ghost use Rattle.rg_integers.specs.Range.{InRange};
ghost use Rattle.rg_linear.specs.System.{LinearSystem, LinearRow, row_at};
ghost use Rattle.rg_linear.specs.System.{with_rows};
ghost use Rattle.rg_branch.specs.View.{form_of, forms_of};
ghost use Rattle.rg_branch.specs.Answer.{AreValuesAt};
ghost use Rattle.rg_branch.specs.Relating.{AreRelationsOf};
ghost use Rattle.rg_branch.specs.Points.{HasFloor, IsWholeThere, AreWholeBelow, IsFirstFraction, IsFormAt, AreFormsAt, SaysColumnsWhole};

use crate::bounded::Bounded;
use crate::floor::{Multiple, floor_of_fraction};
use crate::relations::Relations;
use rg_fraction::Fraction;
use rg_linear::JoinedSystem;
use std::alloc::{AllocError, Global};

// The first form without a whole value at the point, and its floor; `columns_whole` says that the values of all
// columns are whole.
pub(crate) fn first_fraction(
    relations: Relations<'_>,
    system: &JoinedSystem<'_>,
    forms: &[Bounded],
    before: u32,
    columns_whole: bool,
) -> Option<(u32, i64)>
    requires columns { SaysColumnsWhole system.now relations columns_whole }
    requires forms { (further : List LinearRow) × (members : List ℕ) × AreFormsAt system.now before further members relations forms.now }
    requires few { length forms.now < 2 ^ 32 }
    ensures first { (further : List LinearRow) (members : List ℕ) → AreFormsAt system.now before further members relations.entry forms.now
        → IfSome result (λ s. IsFirstFraction (with_rows system.now further) members (forms_of forms.now) s.0 s.1) }
    ensures none { (further : List LinearRow) (members : List ℕ) → AreFormsAt system.now before further members relations.entry forms.now
        → IfNone result (AreWholeBelow (with_rows system.now further) members (forms_of forms.now) (length forms.now)) }
{
    for (f, form) in forms.iter().enumerate() {
        if let Some(floor) = fraction_floor(relations, system, form, before, columns_whole) {
            return Some((f as u32, floor));
        }
    }
    None
}

// The floor of the form at the point, where it isn't whole. Where the columns are whole, so is a form whose scale is
// 1: its row isn't read.
fn fraction_floor(
    relations: Relations<'_>,
    system: &JoinedSystem<'_>,
    form: &Bounded,
    before: u32,
    columns_whole: bool,
) -> Option<i64>
    requires columns { SaysColumnsWhole system.now relations columns_whole }
    requires form { (further : List LinearRow) × (members : List ℕ) × IsFormAt system.now before further members relations form.now }
    ensures floor { (further : List LinearRow) (members : List ℕ) → IsFormAt system.now before further members relations.entry form.now
        → IfSome result (HasFloor (with_rows system.now further) members (form_of form.now)) }
    ensures low { IfSome result (λ u. form.now.low ≤ℤ u) }
    ensures high { IfSome result (λ u. u <ℤ form.now.high) }
    ensures whole { (further : List LinearRow) (members : List ℕ) → IsFormAt system.now before further members relations.entry form.now
        → IfNone result (IsWholeThere (with_rows system.now further) members (form_of form.now)) }
{
    if form.times == 0 {
        return None;
    }
    if columns_whole && form.scale == 1 {
        return None;
    }
    let row = before + form.row;
    let value = relations.row_value(system, row);
    let constant = constant_at(system, row);
    floor_of_fraction(Multiple {
        value,
        constant,
        times: form.times,
        scale: form.scale,
        low: form.low,
        high: form.high,
    })
}

// Whether each of the values is whole.
pub(crate) fn are_whole(values: &[Fraction]) -> bool
    ensures { IsTrue result → All (λ f. denominator_of f ≡ pos 1) values.now }
{
    for value in values {
        if !value.is_whole() {
            return false;
        }
    }
    true
}

// The constant of a row.
fn constant_at(system: &JoinedSystem<'_>, row: u32) -> i128
    requires { row < length system.now.rows }
    ensures value { result ≡ (row_at system.now row).constant }
    ensures in_range { InRange result }
{
    system.row(row).constant
}

// The values of the columns.
pub(crate) fn values(
    alloc: Global,
    relations: Relations<'_>,
    columns: u32,
) -> Result<Vec<Fraction>, AllocError>
    requires are { (node : LinearSystem) × (members : List ℕ) × AreRelationsOf node members relations × (columns ≡ node.columns) }
    ensures { (node : LinearSystem) (members : List ℕ) → AreRelationsOf node members relations.entry → columns ≡ node.columns → IfOk result (λ v. AreValuesAt node members v.items) }
{
    let mut values = Vec::new(alloc);
    for j in 0..columns {
        values.push(relations.column_value(j))?;
    }
    Ok(values)
}

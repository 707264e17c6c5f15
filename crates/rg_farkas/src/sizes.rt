//! The sums of absolute values.
ghost use Rattle.std.specs.Prelude.{◌≡◌, ℤ, pos, List, map, All, Ok, Err, IfOk, IsErrOf};
ghost use Rattle.rg_cert_meaning.specs.Expression.{Expression};
ghost use Rattle.rg_cert_meaning.specs.declared.RowName.{RowName};
ghost use Rattle.rg_integers.specs.declared.term.Wide.{Wide};
ghost use Rattle.rg_fraction.specs.declared.fold_stop.FoldStop.TheVariants as stop;
ghost use Rattle.rg_folds.specs.Fold.{Comes, each, further, whole_sum};
ghost use Rattle.rg_case_folds.specs.Spreading.{variables_of, checked_leaf};
ghost use Rattle.rg_farkas.specs.View.{named_of, Tells, size_fold, coefficient_at};

use crate::multiplied::Row;
use crate::sums::{coefficient, size_times};
use rg_cert_meaning::Variable;
use rg_fraction::{FoldStop, whole_sum};
use rg_integers::Wide;
use rg_lts::Lts;
use std::alloc::{AllocError, Global};

// Refused where for some state or label, or for the constants, the sum of the absolute values of the rows'
// multiplied numbers is out of range.
pub(crate) fn check_sizes(alloc: Global, lts: &Lts, rows: &[Row]) -> Result<(), FoldStop>
    ensures { (expression : RowName → Expression) → All (Tells expression) rows.now → Comes (checked_leaf lts.now expression (map named_of rows.now)) (λ _. map named_of rows.now) result }
{
    check_variables(alloc, lts, rows)?;
    constant_sizes(rows)?;
    Ok(())
}

// Refused where the sum for some state or label is out of range. None is greater than the sum in which each row has
// its most terms.
fn check_variables(alloc: Global, lts: &Lts, rows: &[Row]) -> Result<(), FoldStop>
    ensures sums { IfOk result (λ _. (sums : List ℤ) × each (λ v. further whole_sum (size_fold (coefficient_at v)) (pos 0) rows.now) (variables_of lts.now) (Ok sums)) }
    ensures wide { (w : Wide) → IsErrOf result (stop.Wide w) → each (λ v. further whole_sum (size_fold (coefficient_at v)) (pos 0) rows.now) (variables_of lts.now) (Err w) }
{
    if greatest_sizes(rows).is_ok() {
        return Ok(());
    }
    each_variable(alloc, lts, rows)
}

// The sum of the absolute values of three times the multipliers.
pub(crate) fn greatest_sizes(rows: &[Row]) -> Result<i128, Wide>
    ensures { further whole_sum (size_fold (λ r. pos 3)) (pos 0) rows.now result }
{
    let mut sum = 0;
    for row in rows {
        let size = size_times(row.multiplier, 3)?;
        sum = whole_sum(sum, size)?;
    }
    Ok(sum)
}

// Refused where the sum for some state or label is out of range, found one after the other.
fn each_variable(alloc: Global, lts: &Lts, rows: &[Row]) -> Result<(), FoldStop>
    ensures sums { IfOk result (λ _. (sums : List ℤ) × each (λ v. further whole_sum (size_fold (coefficient_at v)) (pos 0) rows.now) (variables_of lts.now) (Ok sums)) }
    ensures wide { (w : Wide) → IsErrOf result (stop.Wide w) → each (λ v. further whole_sum (size_fold (coefficient_at v)) (pos 0) rows.now) (variables_of lts.now) (Err w) }
{
    let variables = variables(alloc, lts)?;
    for variable in &variables {
        coefficient_sizes(rows, *variable)?;
    }
    Ok(())
}

// The states and the labels.
fn variables(alloc: Global, lts: &Lts) -> Result<Vec<Variable>, AllocError>
    ensures { IfOk result (λ v. v.items ≡ variables_of lts.now) }
{
    let mut variables = Vec::new(alloc);
    for q in 0..lts.states() {
        variables.push(Variable::Tokens(q))?;
    }
    for t in 0..lts.labels() {
        variables.push(Variable::Effect(t))?;
    }
    Ok(variables)
}

// The sum of the absolute values of the variable's multiplied coefficients.
fn coefficient_sizes(rows: &[Row], variable: Variable) -> Result<i128, Wide>
    ensures { further whole_sum (size_fold (coefficient_at variable)) (pos 0) rows.now result }
{
    let mut sum = 0;
    for row in rows {
        let number = coefficient(&row.expression, variable);
        let size = size_times(row.multiplier, number)?;
        sum = whole_sum(sum, size)?;
    }
    Ok(sum)
}

// The sum of the absolute values of the multiplied constants.
fn constant_sizes(rows: &[Row]) -> Result<i128, Wide>
    ensures { further whole_sum (size_fold (λ r. r.expression.constant)) (pos 0) rows.now result }
{
    let mut sum = 0;
    for row in rows {
        let size = size_times(row.multiplier, row.expression.constant)?;
        sum = whole_sum(sum, size)?;
    }
    Ok(sum)
}

//! A named row, written over the columns.
ghost use Rattle.std.specs.Prelude.{◌≡◌, ◌↔◌, IsTrue, ◌≤◌, ℕ, ◌<◌, ℤ, ◌<ℤ◌, pos, ◌≤ℤ◌, Ok, map, length, All, ◌++◌, ◌∷◌, [], IfOk, unsigned_abs};
ghost use Rattle.rg_integers.specs.Range.{InRange};
ghost use Rattle.rg_integers.specs.Sum.{number_at};
ghost use Rattle.rg_theory.specs.System.{labels};
ghost use Rattle.rg_fraction.specs.Rows.{IsPrimitivePart};
ghost use Rattle.rg_linear.specs.Cycle.{IsZeroVector};
ghost use Rattle.rg_spanning.specs.Spanning.{IsTreeOf};
ghost use Rattle.rg_folds.specs.Substitution.{free_labels, substitute_fold};
ghost use Rattle.rg_case_folds.specs.Rewriting.{terms_fold, row_fold, divided};
ghost use Rattle.rg_cycles.specs.View.{labels_of, cycle_of};
ghost use Rattle.rg_cert_data.specs.Sums.{expression_of};
ghost use Rattle.rg_case_parts.specs.SettingViews.{shown_setting};
ghost use Rattle.rg_case_parts.specs.StatesNamed.{TermNamesStateBelow};
ghost use Rattle.rg_case_parts.specs.WholeNumbers.{scaled_of};
ghost use Rattle.rg_case_parts.specs.ColumnViews.{AreColumns};
ghost use Rattle.rg_rows.specs.View.{kept_row, terms_of, columns_in};
ghost use Rattle.rg_rows.specs.Columns.{columns_fold};
ghost use Rattle.rg_folds.specs.Fold.{Comes, whole};

use crate::case_row::CaseRow;
use crate::form_terms::FormTerms;
use crate::row_numbers::RowNumbers;
use rg_case_parts::{Columns, Scaled, Setting, counts, start, without_denominators};
use rg_cert_data::Expression;
use rg_cert_meaning::RowName;
use rg_cycles::{substitute, whole_sums};
use rg_fraction::{FoldStop, Fraction, reduce, row_gcd};
use rg_linear::norm;
use std::alloc::{AllocError, Global};

// The named row, whose expression this is.
pub(crate) fn row(
    alloc: Global,
    setting: Setting<'_>,
    columns: &Columns,
    name: RowName,
    expression: &Expression,
) -> Result<CaseRow, FoldStop>
    requires tree { IsTreeOf setting.lts.now setting.tree.now }
    requires labels { labels_of setting.basis.now ≡ labels setting.lts.now }
    requires columns { AreColumns setting.lts.now setting.class columns.now }
    requires within { All (TermNamesStateBelow setting.tree.now.states) (expression_of expression.now).terms }
    ensures comes { Comes (row_fold (shown_setting setting.entry) name (expression_of expression.now)) kept_row result }
    ensures one_each { IfOk result (λ r. length r.coeffs.items ≡ columns_in (shown_setting setting.entry)) }
{
    let scaled = over_columns(alloc, setting, columns, expression)?;
    let multiple = Fraction::new(scaled.multiple, 1);
    let constant = Fraction::new(expression.constant, 1).mul(multiple)?;
    divide_by_common(alloc, name, scaled, constant.numerator())
}

// The terms over the columns, without denominators: in whole numbers if the relations of their labels allow it.
fn over_columns(
    alloc: Global,
    setting: Setting<'_>,
    columns: &Columns,
    expression: &Expression,
) -> Result<Scaled, FoldStop>
    requires tree { IsTreeOf setting.lts.now setting.tree.now }
    requires labels { labels_of setting.basis.now ≡ labels setting.lts.now }
    requires columns { AreColumns setting.lts.now setting.class columns.now }
    requires within { All (TermNamesStateBelow setting.tree.now.states) (expression_of expression.now).terms }
    ensures comes { Comes (terms_fold (shown_setting setting.entry) (expression_of expression.now).terms) scaled_of result }
    ensures one_each { IfOk result (λ s. length s.numbers.items ≡ columns_in (shown_setting setting.entry)) }
{
    let labels = columns.used.len() as u32;
    let counts = counts(alloc, setting.tree, labels, expression)?;
    let start = start(expression);
    match whole_sums(alloc, setting.basis, &counts)? {
        Some(free) => whole_columns(alloc, setting, columns, start, &free),
        None => scaled_columns(alloc, setting, columns, start, &counts),
    }
}

// The columns where the sums over the free labels are these whole numbers.
fn whole_columns(
    alloc: Global,
    setting: Setting<'_>,
    columns: &Columns,
    start: i128,
    free: &[i128],
) -> Result<Scaled, FoldStop>
    requires labels { labels_of setting.basis.now ≡ labels setting.lts.now }
    requires columns { AreColumns setting.lts.now setting.class columns.now }
    requires start { InRange start }
    requires one_each { length free.now ≡ length (free_labels (labels_of setting.basis.now) (cycle_of setting.basis.now)) }
    requires in_range { All InRange free.now }
    ensures { (counts : ℕ → ℤ) → substitute_fold (labels setting.entry.lts.now) (cycle_of setting.entry.basis.now) counts (Ok (map whole free.now)) → Comes (columns_fold (shown_setting setting.entry) start counts) scaled_of result }
{
    let numbers = columns.pick(alloc, setting.basis, start, free)?;
    Ok(Scaled {
        multiple: 1,
        numbers,
    })
}

// The columns where the labels have these counts.
fn scaled_columns(
    alloc: Global,
    setting: Setting<'_>,
    columns: &Columns,
    start: i128,
    counts: &[i128],
) -> Result<Scaled, FoldStop>
    requires labels { labels_of setting.basis.now ≡ labels setting.lts.now }
    requires columns { AreColumns setting.lts.now setting.class columns.now }
    requires start { InRange start }
    requires counts { length counts.now ≡ labels_of setting.basis.now }
    requires in_range { (t : ℕ) → t < length counts.now → InRange (number_at counts.now t) }
    ensures { Comes (columns_fold (shown_setting setting.entry) start (number_at counts.now)) scaled_of result }
{
    let free = substitute(alloc, setting.basis, counts)?;
    let start = Fraction::new(start, 1);
    let numbers = columns.pick(alloc, setting.basis, start, &free.coeffs)?;
    without_denominators(alloc, &numbers)
}

// The terms of a form over the columns.
pub(crate) fn form_terms(
    alloc: Global,
    setting: Setting<'_>,
    columns: &Columns,
    expression: &Expression,
) -> Result<FormTerms, FoldStop>
    requires tree { IsTreeOf setting.lts.now setting.tree.now }
    requires labels { labels_of setting.basis.now ≡ labels setting.lts.now }
    requires columns { AreColumns setting.lts.now setting.class columns.now }
    requires within { All (TermNamesStateBelow setting.tree.now.states) (expression_of expression.now).terms }
    ensures comes { Comes (terms_fold (shown_setting setting.entry) (expression_of expression.now).terms) terms_of result }
    ensures one_each { IfOk result (λ t. length t.coeffs.items ≡ columns_in (shown_setting setting.entry)) }
{
    let scaled = over_columns(alloc, setting, columns, expression)?;
    Ok(with_numbers(scaled))
}

// The terms with these numbers.
fn with_numbers(scaled: Scaled) -> FormTerms
    ensures { terms_of result ≡ scaled_of scaled }
{
    let multiple = scaled.multiple;
    FormTerms {
        multiple,
        coeffs: scaled.numbers,
    }
}

// The numbers and the constant, divided by their greatest common divisor; zeros are not divided.
fn divide_by_common(
    alloc: Global,
    name: RowName,
    scaled: Scaled,
    constant: i128,
) -> Result<CaseRow, FoldStop>
    requires { InRange constant }
    ensures comes { Comes (divided name (scaled_of scaled) constant) kept_row result }
    ensures one_each { IfOk result (λ r. length r.coeffs.items ≡ length scaled.numbers.items) }
{
    let multiple = scaled.multiple;
    let mut numbers = scaled.numbers;
    numbers.push(constant)?;
    let divisor = reduce_by_common(&mut numbers);
    let (coeffs, constant) = split_constant(alloc, &numbers)?;
    let norm = norm(&coeffs, constant);
    let idle = always_holds(&coeffs, constant);
    let numbers = RowNumbers::new(numbers);
    Ok(CaseRow {
        name,
        coeffs,
        constant,
        norm,
        idle,
        factor: Fraction::new(multiple, divisor.max(1)),
        numbers,
    })
}

// Divides the numbers by their greatest common divisor, and returns it. They stay where it is 0 or 1.
fn reduce_by_common(numbers: &mut [i128]) -> i128
    requires { (k : ℕ) → k < length numbers.old → InRange (number_at numbers.old k) }
    ensures part { IsPrimitivePart numbers.old numbers.new (unsigned_abs result) }
    ensures not_negative { pos 0 ≤ℤ result }
    ensures in_range { InRange result }
    ensures numbers_in_range { (k : ℕ) → k < length numbers.old → InRange (number_at numbers.new k) }
{
    let divisor = row_gcd(numbers);
    if divisor > 1 {
        reduce(numbers);
    }
    divisor
}

// Whether all coefficients are 0 and the constant isn't negative.
fn always_holds(coeffs: &[i128], constant: i128) -> bool
    ensures { IsTrue result ↔ (IsZeroVector coeffs.now × (pos 0 ≤ℤ constant)) }
{
    constant >= 0 && coeffs.iter().all(|z| *z == 0)
}

// All numbers but the last, and the last.
fn split_constant(alloc: Global, numbers: &[i128]) -> Result<(Vec<i128>, i128), AllocError>
    requires { 0 < length numbers.now }
    ensures { IfOk result (λ r. r.0.items ++ r.1 ∷ [] ≡ numbers.now) }
{
    match numbers.split_last() {
        Some((last, coeffs)) => Ok((coeffs.to_vec(alloc)?, *last)),
        None => unreachable!(),
    }
}

//! The multipliers of the arcs of the tree.
ghost use Rattle.std.specs.Prelude.{◌≡◌, ◌≤◌, [], ◌++◌, ◌≤ℤ◌, neg_ℤ, if◌then◌else◌, pos, length, map, reverse, All, IfOk};
ghost use Rattle.rg_integers.specs.Range.{InRange};
ghost use Rattle.rg_integers.specs.Sign.{size};
ghost use Rattle.rg_cert_meaning.specs.Expression.{Expression as Sum, same_variable, coefficient_in};
ghost use Rattle.rg_cert_meaning.specs.declared.RowName.{RowName};
ghost use Rattle.rg_folds.specs.Fold.{Comes, gives, and_then, further, whole_sum, whole_product};
ghost use Rattle.rg_case_folds.specs.Spreading.{tree_fold, addend_fold, leaving};
ghost use Rattle.rg_cert_data.specs.Sums.{term_of, expression_of};
ghost use Rattle.rg_farkas.specs.View.{named_of, Tells, arc_times, row_addend};

use crate::multiplied::Row;
use crate::summed::summed_multipliers;
use rg_cert_data::Expression;
use rg_cert_data::Term::{self, Minus, Plus};
use rg_cert_meaning::Variable;
use rg_fraction::{FoldStop, whole_product, whole_sum};
use rg_integers::Wide;
use rg_theory::Arc;
use std::alloc::Global;

// The multipliers of the arcs of the tree, formed from the last arc to the first: each is the one by which the
// tokens of the arc's target cancel.
pub(crate) fn tree_multipliers(
    alloc: Global,
    tree: &[Arc],
    rows: &[Row],
) -> Result<Vec<i128>, FoldStop>
    ensures comes { (expression : RowName → Sum) → All (Tells expression) rows.now → Comes (tree_fold expression (map named_of rows.now) [] (reverse tree.now)) (λ v. arc_times tree.now v.items) result }
    ensures one_each { IfOk result (λ v. length v.items ≡ length tree.now) }
    ensures in_range { IfOk result (λ v. All InRange v.items) }
{
    if let Some(multipliers) = summed_multipliers(alloc, tree, rows)? {
        return Ok(multipliers);
    }
    each_multiplier(alloc, tree, rows)
}

// The same multipliers, each by its own sum over the rows and the arcs.
fn each_multiplier(alloc: Global, tree: &[Arc], rows: &[Row]) -> Result<Vec<i128>, FoldStop>
    ensures comes { (expression : RowName → Sum) → All (Tells expression) rows.now → Comes (tree_fold expression (map named_of rows.now) [] (reverse tree.now)) (λ v. arc_times tree.now v.items) result }
    ensures one_each { IfOk result (λ v. length v.items ≡ length tree.now) }
    ensures in_range { IfOk result (λ v. All InRange v.items) }
{
    let mut multipliers = vec![in alloc; 0i128; tree.len()]?;
    for i in (0..tree.len()).rev() {
        let state = tree[i].to;
        let sum = sum_at(rows, &tree[i + 1..], &multipliers[i + 1..], state)?;
        multipliers[i] = sum;
    }
    Ok(multipliers)
}

// What the rows give the tokens at the state, and after it the multipliers of the arcs that leave the state.
fn sum_at(rows: &[Row], arcs: &[Arc], multipliers: &[i128], state: u32) -> Result<i128, Wide>
    requires one_each { length multipliers.now ≡ length arcs.now }
    requires in_range { All InRange multipliers.now }
    ensures value { further whole_sum addend_fold (pos 0) (map (row_addend state) rows.now ++ leaving state (arc_times arcs.now multipliers.now)) result }
    ensures in_range { IfOk result InRange }
{
    let sum = rows_sum(rows, state)?;
    leaving_sum(sum, arcs, multipliers, state)
}

// What the rows give the tokens at the state.
fn rows_sum(rows: &[Row], state: u32) -> Result<i128, Wide>
    ensures value { further whole_sum addend_fold (pos 0) (map (row_addend state) rows.now) result }
    ensures in_range { IfOk result InRange }
{
    let mut sum = 0;
    for row in rows {
        let number = coefficient(&row.expression, Variable::Tokens(state));
        let product = whole_product(row.multiplier, number)?;
        sum = whole_sum(sum, product)?;
    }
    Ok(sum)
}

// The sum and the multipliers of the arcs that leave the state.
fn leaving_sum(start: i128, arcs: &[Arc], multipliers: &[i128], state: u32) -> Result<i128, Wide>
    requires one_each { length multipliers.now ≡ length arcs.now }
    requires in_range { All InRange multipliers.now }
    requires start_in_range { InRange start }
    ensures value { further whole_sum addend_fold start (leaving state (arc_times arcs.now multipliers.now)) result }
    ensures in_range { IfOk result InRange }
{
    let mut sum = start;
    for (k, arc) in arcs.iter().enumerate() {
        if arc.from == state {
            sum = whole_sum(sum, multipliers[k])?;
        }
    }
    Ok(sum)
}

// The coefficient of the variable in the terms.
pub(crate) fn coefficient(expression: &Expression, variable: Variable) -> i128
    ensures value { result ≡ coefficient_in (expression_of expression.now).terms variable }
    ensures in_range { InRange result }
{
    let mut sum = 0;
    for entry in &expression.terms {
        if let Some(term) = entry {
            sum += coefficient_of(*term, variable);
        }
    }
    sum
}

// The coefficient of the variable in the term.
fn coefficient_of(term: Term, variable: Variable) -> i128
    ensures value { result ≡ (if same_variable (term_of term).variable variable then (term_of term).coefficient else pos 0) }
    ensures low { neg_ℤ (pos 1) ≤ℤ result }
    ensures high { result ≤ℤ pos 1 }
{
    match term {
        Plus(v) if v == variable => 1,
        Minus(v) if v == variable => -1,
        _ => 0,
    }
}

// The absolute value of the product, where the product is in range.
pub(crate) fn size_times(x: i128, y: i128) -> Result<i128, Wide>
    ensures value { and_then (whole_product x y) (λ z. gives (size z)) result }
    ensures in_range { IfOk result InRange }
{
    let product = whole_product(x, y)?;
    Ok(absolute(product))
}

// The absolute value.
pub(crate) fn absolute(z: i128) -> i128
    requires { InRange z }
    ensures value { result ≡ size z }
    ensures in_range { InRange result }
{
    z.abs()
}

//! The multipliers of the arcs of the tree, with a sum for each state.
ghost use Rattle.std.specs.Prelude.{◌≡◌, ℕ, ◌<◌, [], ◌==◌, ◌+ℤ◌, ◌*ℤ◌, ◌≤ℤ◌, if◌then◌else◌, pos, true, slice_index_or, length, map, replicate, reverse, All, Ok, IfOk, IfSome};
ghost use Rattle.rg_integers.specs.Range.{InRange};
ghost use Rattle.rg_integers.specs.Sign.{size};
ghost use Rattle.rg_cert_meaning.specs.Expression.{Expression as Sum, same_variable, coefficient_in};
ghost use Rattle.rg_cert_meaning.specs.declared.RowName.{RowName};
ghost use Rattle.rg_cert_meaning.specs.declared.Variable.TheVariants.{Tokens as tokens};
ghost use Rattle.rg_folds.specs.Fold.{further, whole_sum};
ghost use Rattle.rg_case_folds.specs.Spreading.{tree_fold};
ghost use Rattle.rg_cert_data.specs.Sums.{term_of};
ghost use Rattle.rg_farkas.specs.View.{named_of, Tells, arc_times, coefficient_at, row_addend};
ghost use Rattle.rg_farkas.specs.Addends.{total};

use crate::multiplied::Row;
use crate::sizes::greatest_sizes;
use crate::sums::absolute;
use rg_cert_data::Term;
use rg_cert_meaning::Variable::Tokens;
use rg_fraction::whole_sum;
use rg_theory::Arc;
use std::alloc::{AllocError, Global};

// The multipliers of the arcs of the tree; None where a sum of absolute values may be out of range.
pub(crate) fn summed_multipliers(
    alloc: Global,
    tree: &[Arc],
    rows: &[Row],
) -> Result<Option<Vec<i128>>, AllocError>
    ensures comes { IfOk result (λ found. IfSome found (λ v. (expression : RowName → Sum) → All (Tells expression) rows.now → tree_fold expression (map named_of rows.now) [] (reverse tree.now) (Ok (arc_times tree.now v.items)))) }
    ensures one_each { IfOk result (λ found. IfSome found (λ v. length v.items ≡ length tree.now)) }
    ensures in_range { IfOk result (λ found. IfSome found (λ v. All InRange v.items)) }
{
    let mut sums = vec![in alloc; 0i128; tree.len() + 1]?;
    let mut multipliers = vec![in alloc; 0i128; tree.len()]?;
    if fill(&mut sums, &mut multipliers, tree, rows) {
        Ok(Some(multipliers))
    } else {
        Ok(None)
    }
}

// Fills in the multipliers of the arcs of the tree; false where a sum of absolute values may be out of range.
fn fill(sums: &mut [i128], multipliers: &mut [i128], tree: &[Arc], rows: &[Row]) -> bool
    requires zeros { sums.old ≡ replicate (length sums.old) (pos 0) }
    requires unfilled { multipliers.old ≡ replicate (length tree.now) (pos 0) }
    ensures comes { result ≡ true → (expression : RowName → Sum) → All (Tells expression) rows.now → tree_fold expression (map named_of rows.now) [] (reverse tree.now) (Ok (arc_times tree.now multipliers.new)) }
    ensures in_range { result ≡ true → All InRange multipliers.new }
{
    let Ok(mut bound) = greatest_sizes(rows) else {
        return false;
    };
    if !add_rows(sums, rows) {
        return false;
    }
    for i in (0..tree.len()).rev() {
        let Some(multiplier) = take_arc(sums, &mut bound, tree[i]) else {
            return false;
        };
        multipliers[i] = multiplier;
    }
    true
}

// The sum at the target of the arc, which is added to that at its source and, as an absolute value, to the bound;
// None where the arc's target has no sum or one of these is out of range.
fn take_arc(sums: &mut [i128], bound: &mut i128, arc: Arc) -> Option<i128>
    requires sums { All InRange sums.old }
    ensures within { IfSome result (λ z. (arc.to < length sums.old) × (z ≡ slice_index_or sums.old arc.to (pos 0))) }
    ensures added { IfSome result (λ z. (q : ℕ) → q < length sums.old → slice_index_or sums.new q (pos 0) ≡ slice_index_or sums.old q (pos 0) +ℤ (if arc.from == q then z else pos 0)) }
    ensures bound { IfSome result (λ z. bound.new ≡ bound.old +ℤ size z) }
    ensures in_range { IfSome result (λ z. All InRange sums.new × InRange bound.new × InRange z) }
{
    let target = arc.to as usize;
    if target >= sums.len() {
        return None;
    }
    let multiplier = sums[target];
    let Ok(more) = whole_sum(*bound, absolute(multiplier)) else {
        return None;
    };
    *bound = more;
    if add_at(sums, arc.from, multiplier) {
        Some(multiplier)
    } else {
        None
    }
}

// Adds what the rows give the tokens at each state; false where a sum is out of range.
fn add_rows(sums: &mut [i128], rows: &[Row]) -> bool
    requires { All InRange sums.old }
    ensures added { result ≡ true → (q : ℕ) → q < length sums.old → slice_index_or sums.new q (pos 0) ≡ slice_index_or sums.old q (pos 0) +ℤ total (map (row_addend q) rows.now) }
    ensures in_range { result ≡ true → All InRange sums.new }
{
    for row in rows {
        if !add_row(sums, row) {
            return false;
        }
    }
    true
}

// Adds what the row gives the tokens at each state; false where a sum is out of range.
fn add_row(sums: &mut [i128], row: &Row) -> bool
    requires { All InRange sums.old }
    ensures added { result ≡ true → (q : ℕ) → q < length sums.old → slice_index_or sums.new q (pos 0) ≡ slice_index_or sums.old q (pos 0) +ℤ (row.now.multiplier *ℤ coefficient_at (tokens q) row.now) }
    ensures in_range { result ≡ true → All InRange sums.new }
{
    for entry in &row.expression.terms {
        if let Some(term) = entry {
            if !add_term(sums, *term, row.multiplier) {
                return false;
            }
        }
    }
    true
}

// Adds the number times the term's coefficient to the sum at its state; false where that is out of range.
fn add_term(sums: &mut [i128], term: Term, number: i128) -> bool
    requires sums { All InRange sums.old }
    requires number { InRange number }
    ensures added { result ≡ true → (q : ℕ) → q < length sums.old → slice_index_or sums.new q (pos 0) ≡ slice_index_or sums.old q (pos 0) +ℤ (number *ℤ (if same_variable (term_of term).variable (tokens q) then (term_of term).coefficient else pos 0)) }
    ensures in_range { result ≡ true → All InRange sums.new }
{
    match term.variable() {
        Tokens(state) => add_at(sums, state, term.times(number)),
        _ => true,
    }
}

// Adds the number to the sum at the state, where it has one; false where that is out of range.
fn add_at(sums: &mut [i128], state: u32, number: i128) -> bool
    requires sums { All InRange sums.old }
    requires number { InRange number }
    ensures added { result ≡ true → (q : ℕ) → q < length sums.old → slice_index_or sums.new q (pos 0) ≡ slice_index_or sums.old q (pos 0) +ℤ (if state == q then number else pos 0) }
    ensures in_range { result ≡ true → All InRange sums.new }
{
    let index = state as usize;
    if index >= sums.len() {
        return true;
    }
    let Ok(sum) = whole_sum(sums[index], number) else {
        return false;
    };
    sums[index] = sum;
    true
}

//! Sums of effects, written over the free labels.
ghost use Rattle.std.specs.Prelude.{◌≡◌, ℕ, ◌<◌, map, length, slice_index, IfOk};
ghost use Rattle.rg_integers.specs.Range.{InRange};
ghost use Rattle.rg_integers.specs.Sum.{number_at};
ghost use Rattle.rg_folds.specs.Fold.{Comes, whole, ratio_of, shown_result, quotient, add, mul, and_then};
ghost use Rattle.rg_folds.specs.Substitution.{is_in, free_labels, dependent_labels, coefficient_fold, substitute_fold};
ghost use Rattle.rg_cycles.specs.Basis.{IsRelationInRange};
ghost use Rattle.rg_cycles.specs.View.{labels_of, cycle_of, counted_labels};

use crate::basis::Basis;
use crate::relation::Relation;
use rg_fraction::{FoldStop, Fraction};
use rg_integers::Wide;
use std::alloc::{AllocError, Global};

/// A sum over the free labels: one coefficient for each, in order.
#[derive(PartialEq, Debug, Drop)]
pub struct FreeRow {
    pub coeffs: Vec<Fraction>,
}

/// Returns the sum of the effects of all labels, each times its count, over the free labels: if the cycle equations
/// hold, it is the sum of the effects of the free labels, each times its coefficient. There is one count for each
/// label.
///
/// The coefficient of a free label is its own count, to which each label that isn't free, in order, adds its count
/// times the quotient of its number and its `d`. Returns `FoldStop::Wide` exactly if a step of this, label by label,
/// is out of range, with the first such step, and `FoldStop::NoMemory` if memory runs out.
pub fn substitute(alloc: Global, basis: &Basis, counts: &[i128]) -> Result<FreeRow, FoldStop>
    requires counts { length counts.now ≡ labels_of basis.now }
    requires in_range { (t : ℕ) → t < length counts.now → InRange (number_at counts.now t) }
    ensures { Comes (substitute_fold (labels_of basis.now) (cycle_of basis.now) (number_at counts.now)) (λ row. map ratio_of row.coeffs.items) result }
{
    let others = list_counted(alloc, basis, counts)?;
    let mut coeffs = Vec::with_capacity(alloc, basis.free().len())?;
    for index in 0..basis.free().len() {
        let sum = coefficient(basis, counts, &others, index)?;
        coeffs.push(sum)?;
    }
    Ok(FreeRow { coeffs })
}

/// Returns the labels that aren't free, in order; there are so many labels.
pub fn dependent(alloc: Global, basis: &Basis, labels: u32) -> Result<Vec<u32>, AllocError>
    requires { labels ≡ labels_of basis.now }
    ensures { IfOk result (λ v. v.items ≡ dependent_labels labels (cycle_of basis.now)) }
{
    let mut dependent = Vec::new(alloc);
    for t in 0..labels {
        if !is_free(basis, t) {
            dependent.push(t)?;
        }
    }
    Ok(dependent)
}

// The labels that aren't free and whose count isn't 0, in order.
pub(crate) fn list_counted(
    alloc: Global,
    basis: &Basis,
    counts: &[i128],
) -> Result<Vec<u32>, AllocError>
    requires counts { length counts.now ≡ labels_of basis.now }
    requires in_range { (t : ℕ) → t < length counts.now → InRange (number_at counts.now t) }
    ensures { IfOk result (λ v. v.items ≡ counted_labels basis.now (number_at counts.now)) }
{
    let mut counted = Vec::new(alloc);
    for t in 0..counts.len() as u32 {
        if counts[t as usize] != 0 && !is_free(basis, t) {
            counted.push(t)?;
        }
    }
    Ok(counted)
}

// Whether the label is free.
fn is_free(basis: &Basis, t: u32) -> bool
    requires { t < labels_of basis.now }
    ensures { result ≡ is_in (cycle_of basis.now).members t }
{
    match basis.relation(t) {
        Some(_) => false,
        None => true,
    }
}

// The coefficient of the free label at this index; the others are the labels that aren't free and whose count isn't
// 0.
fn coefficient(
    basis: &Basis,
    counts: &[i128],
    others: &[u32],
    index: usize,
) -> Result<Fraction, Wide>
    requires counts { length counts.now ≡ labels_of basis.now }
    requires in_range { (t : ℕ) → t < length counts.now → InRange (number_at counts.now t) }
    requires others { others.now ≡ counted_labels basis.now (number_at counts.now) }
    requires index { index < length (free_labels (labels_of basis.now) (cycle_of basis.now)) }
    ensures { coefficient_fold (labels_of basis.now) (cycle_of basis.now) (number_at counts.now) (slice_index (free_labels (labels_of basis.now) (cycle_of basis.now)) index) (shown_result ratio_of result) }
{
    let own = basis.free()[index];
    let mut sum = Fraction::new(counts[own as usize], 1);
    for &t in others {
        if let Some(relation) = basis.relation(t) {
            sum = with_term(sum, relation, counts[t as usize], index)?;
        }
    }
    Ok(sum)
}

// The sum with what a label with this relation and this count adds to the coefficient of the free label at this
// index. A number of 0 adds nothing.
fn with_term(
    sum: Fraction,
    relation: &Relation,
    count: i128,
    index: usize,
) -> Result<Fraction, Wide>
    requires index { index < length relation.now.free.items }
    requires count_in_range { InRange count }
    requires relation_in_range { IsRelationInRange relation.now }
    ensures { and_then (and_then (quotient (number_at relation.now.free.items index) relation.now.d) (mul (whole count))) (add (ratio_of sum)) (shown_result ratio_of result) }
{
    if relation.free[index] == 0 {
        return Ok(sum);
    }
    let term = term_of(relation, count, index)?;
    sum.add(term)
}

// What a label with this relation and this count adds to the coefficient of the free label at this index.
fn term_of(relation: &Relation, count: i128, index: usize) -> Result<Fraction, Wide>
    requires index { index < length relation.now.free.items }
    requires count_in_range { InRange count }
    requires relation_in_range { IsRelationInRange relation.now }
    ensures { and_then (quotient (number_at relation.now.free.items index) relation.now.d) (mul (whole count)) (shown_result ratio_of result) }
{
    let share = Fraction::new(relation.free[index], relation.d);
    Fraction::new(count, 1).mul(share)
}

//! Sums of effects over the free labels, where all numbers are whole and fit 64 bits.
ghost use Rattle.std.specs.Prelude.{◌≡◌, ℕ, ◌<◌, ◌+ℤ◌, ◌*ℤ◌, All, map, length, slice_index, pos, Contains, FitsSigned, IsTrue, IsFalse, IfOk, IfSome, IfNone, Ok};
ghost use Rattle.std.specs.Int.{w64};
ghost use Rattle.rg_integers.specs.Range.{InRange};
ghost use Rattle.rg_integers.specs.Sum.{number_at};
ghost use Rattle.rg_folds.specs.Fold.{whole};
ghost use Rattle.rg_folds.specs.Substitution.{free_labels, substitute_fold};
ghost use Rattle.rg_cycles.specs.View.{labels_of, cycle_of, counted_labels};
ghost use Rattle.rg_cycles.specs.WholeSums.{IsWholeStep, AddsTimes, AddsLabel, AreCoefficients};
ghost use Rattle.rg_cycles.specs.WholeSums.{StaysShort, StayShort, LabelIsShort, AreShort, numbers_of_label, sum_after};

use crate::basis::Basis;
use crate::substitution::list_counted;
use std::alloc::{AllocError, Global};

/// Returns the sum that `substitute` returns, in whole numbers: one for each free label, in order. There is one count
/// for each label.
///
/// Returns `None` only if a relation that adds to the sum has a `d` other than 1, or a count, a number of a relation,
/// a product or a sum on the way doesn't fit 64 bits. Returns an error if memory runs out.
pub fn whole_sums(
    alloc: Global,
    basis: &Basis,
    counts: &[i128],
) -> Result<Option<Vec<i128>>, AllocError>
    requires counts { length counts.now ≡ labels_of basis.now }
    requires in_range { (t : ℕ) → t < length counts.now → InRange (number_at counts.now t) }
    ensures sums { IfOk result (λ found. IfSome found (λ sums. substitute_fold (labels_of basis.now) (cycle_of basis.now) (number_at counts.now) (Ok (map whole sums.items)))) }
    ensures in_range { IfOk result (λ found. IfSome found (λ sums. All InRange sums.items)) }
    ensures none { IfOk result (λ found. IfNone found (¬ AreShort basis.now (number_at counts.now))) }
{
    let others = list_counted(alloc, basis, counts)?;
    let Some(mut sums) = own_counts(alloc, basis, counts)? else {
        return Ok(None);
    };
    if !add_labels(&mut sums, basis, counts, &others) {
        return Ok(None);
    }
    let wide = wide_numbers(alloc, &sums)?;
    Ok(Some(wide))
}

// The numbers with 128 bits.
fn wide_numbers(alloc: Global, numbers: &[i64]) -> Result<Vec<i128>, AllocError>
    ensures same { IfOk result (λ wide. wide.items ≡ numbers.now) }
    ensures in_range { IfOk result (λ wide. All InRange wide.items) }
{
    let mut wide = Vec::with_capacity(alloc, numbers.len())?;
    for &number in numbers {
        wide.push(i128::from(number))?;
    }
    Ok(wide)
}

// The counts of the free labels, in order, if they fit 64 bits.
fn own_counts(alloc: Global, basis: &Basis, counts: &[i128]) -> Result<Option<Vec<i64>>, AllocError>
    requires counts { length counts.now ≡ labels_of basis.now }
    requires in_range { (t : ℕ) → t < length counts.now → InRange (number_at counts.now t) }
    ensures own { IfOk result (λ found. IfSome found (λ own. own.items ≡ map (number_at counts.now) (free_labels (labels_of basis.now) (cycle_of basis.now)))) }
    ensures none { IfOk result (λ found. IfNone found (¬ AreShort basis.now (number_at counts.now))) }
{
    let mut own = Vec::with_capacity(alloc, basis.free().len())?;
    for &label in basis.free() {
        match i64::try_from(counts[label as usize]) {
            Ok(count) => own.push(count)?,
            Err(_) => return Ok(None),
        }
    }
    Ok(Some(own))
}

// Adds to the count of each free label what the others add to its coefficient. Returns false if a relation of theirs
// isn't in whole numbers, or a number doesn't fit 64 bits.
fn add_labels(sums: &mut [i64], basis: &Basis, counts: &[i128], others: &[u32]) -> bool
    requires counts { length counts.now ≡ labels_of basis.now }
    requires in_range { (t : ℕ) → t < length counts.now → InRange (number_at counts.now t) }
    requires others { others.now ≡ counted_labels basis.now (number_at counts.now) }
    requires own { sums.old ≡ map (number_at counts.now) (free_labels (labels_of basis.now) (cycle_of basis.now)) }
    ensures one_each { length sums.new ≡ length sums.old }
    ensures added { IsTrue result → AreCoefficients basis.now (number_at counts.now) sums.new }
    ensures stopped { IsFalse result → ¬ AreShort basis.now (number_at counts.now) }
{
    for &t in others {
        if !add_label(sums, basis, counts, t) {
            return false;
        }
    }
    true
}

// Adds to the sum of each free label what label `t` adds to its coefficient. Returns false if the label's relation
// isn't in whole numbers, or a number doesn't fit 64 bits.
fn add_label(sums: &mut [i64], basis: &Basis, counts: &[i128], t: u32) -> bool
    requires counts { length counts.now ≡ labels_of basis.now }
    requires in_range { (t : ℕ) → t < length counts.now → InRange (number_at counts.now t) }
    requires label { t < labels_of basis.now }
    requires one_each { length sums.old ≡ length (free_labels (labels_of basis.now) (cycle_of basis.now)) }
    ensures one_each { length sums.new ≡ length sums.old }
    ensures added { IsTrue result → AddsLabel basis.now (number_at counts.now) t sums.old sums.new }
    ensures sums { IsTrue result → (n : ℕ) → n < length sums.old → number_at sums.new n ≡ number_at sums.old n +ℤ (number_at counts.now t *ℤ numbers_of_label basis.now t n) }
    ensures stopped { IsFalse result → ¬ Contains (cycle_of basis.now).members t → ¬ LabelIsShort basis.now (number_at counts.now) t sums.old }
{
    let (Some(relation), Ok(count)) = (basis.relation(t), i64::try_from(counts[t as usize])) else {
        return false;
    };
    relation.d == 1 && add_times(sums, &relation.free, count)
}

// Adds the count times each number to the sum at its index. Returns false if a number doesn't fit 64 bits.
fn add_times(sums: &mut [i64], numbers: &[i128], count: i64) -> bool
    requires one_each { length sums.old ≡ length numbers.now }
    requires in_range { (n : ℕ) → InRange (number_at numbers.now n) }
    ensures one_each { length sums.new ≡ length sums.old }
    ensures added { IsTrue result → AddsTimes count numbers.now sums.old sums.new }
    ensures stopped { IsFalse result → ¬ StayShort count (number_at numbers.now) sums.old }
{
    for index in 0..numbers.len() {
        match with_product(sums[index], numbers[index], count) {
            Some(sum) => sums[index] = sum,
            None => return false,
        }
    }
    true
}

// The sum and the count times the number; None if a number doesn't fit 64 bits.
#[inline(always)]
fn with_product(sum: i64, number: i128, count: i64) -> Option<i64>
    requires { InRange number }
    ensures some { IfSome result (λ next. IsWholeStep count number sum next) }
    ensures none { IfNone result (¬ StaysShort count number sum) }
{
    if number == 0 {
        return Some(sum);
    }
    let Ok(number) = i64::try_from(number) else {
        return None;
    };
    sum.checked_add(count.checked_mul(number)?)
}

//! One row of the table in an exchange.

ghost use Rattle.std.specs.Prelude.{if◌then◌else◌, ◌≡◌, ◌≢◌, ◌↔◌, ℕ, ◌<◌, ◌≤◌, ◌^◌, length, pos, neg_ℤ, ◌-ℤ◌, ◌*ℤ◌, ◌<ℤ◌, ◌≤ℤ◌, unsigned_abs, IsTrue, IfSome};
ghost use Rattle.rg_integers.specs.Range.{InRange};
ghost use Rattle.rg_integers.specs.Sum.{number_at};
ghost use Rattle.rg_revised.specs.Rows.{RowWithin, RowRenewed};
ghost use Rattle.rg_revised.specs.Few.{AreFew};
ghost use Rattle.rg_revised.specs.Supports.{IsSupport};

use crate::divisor::Divisor;
use crate::few::Few;
use crate::pivot::Pivot;
use crate::row_factors::{Factors, difference, is_short};
use crate::support::Support;

// a*b - c*d, which is never out of range.
pub(crate) fn short_term(a: i64, b: i64, c: i64, d: i64) -> i128
    ensures value { result ≡ (a *ℤ b) -ℤ (c *ℤ d) }
    ensures in_range { InRange result }
{
    i128::from(a) * i128::from(b) - i128::from(c) * i128::from(d)
}

// The number, where its size is at most `most`.
pub(crate) fn keep_in_range(z: i128, most: i64) -> Option<i64>
    requires in_range { InRange z }
    requires not_negative { pos 0 ≤ℤ most }
    ensures value { IfSome result (λ q. q ≡ z) }
    ensures within { IfSome result (λ q. unsigned_abs q ≤ unsigned_abs most) }
{
    let most = i128::from(most);
    if z > most || z < -most {
        return None;
    }
    Some(z as i64)
}

// The number, where its size is at most `most`.
fn short_within(z: i64, most: i64) -> Option<i64>
    requires above_least { unsigned_abs z < 2 ^ 63 }
    requires not_negative { pos 0 ≤ℤ most }
    ensures value { IfSome result (λ q. q ≡ z) }
    ensures within { IfSome result (λ q. unsigned_abs q ≤ unsigned_abs most) }
{
    if z > most || z < -most {
        return None;
    }
    Some(z)
}

// (a*b - c*d) / by in 64 bits.
fn short_divided_term(a: i64, b: i64, c: i64, d: i64, by: Divisor, most: i64) -> Option<i64>
    requires a { unsigned_abs a < 2 ^ 31 }
    requires b { unsigned_abs b < 2 ^ 31 }
    requires c { unsigned_abs c < 2 ^ 31 }
    requires d { unsigned_abs d < 2 ^ 31 }
    requires positive { pos 0 <ℤ by.value }
    requires not_negative { pos 0 ≤ℤ most }
    ensures value { IfSome result (λ q. by.value *ℤ q ≡ (a *ℤ b) -ℤ (c *ℤ d)) }
    ensures within { IfSome result (λ q. unsigned_abs q ≤ unsigned_abs most) }
{
    match by.whole_quotient(difference(a, b, c, d)) {
        Some(q) => match short_within(q, most) {
            Some(z) => Some(z),
            None => None,
        },
        None => None,
    }
}

// (a*b - c*d) / by in 128 bits.
fn long_divided_term(a: i64, b: i64, c: i64, d: i64, by: Divisor, most: i64) -> Option<i64>
    requires positive { pos 0 <ℤ by.value }
    requires not_negative { pos 0 ≤ℤ most }
    ensures value { IfSome result (λ q. by.value *ℤ q ≡ (a *ℤ b) -ℤ (c *ℤ d)) }
    ensures within { IfSome result (λ q. unsigned_abs q ≤ unsigned_abs most) }
{
    match by.exact_quotient(short_term(a, b, c, d)) {
        Some(q) => match keep_in_range(q, most) {
            Some(z) => Some(z),
            None => None,
        },
        None => None,
    }
}

// (a*b - c*d) / by, where there is no rest and the size is at most `most`. Numbers that are short are multiplied in
// 64 bits.
fn divide_term(a: i64, b: i64, c: i64, d: i64, by: Divisor, most: i64) -> Option<i64>
    requires positive { pos 0 <ℤ by.value }
    requires not_negative { pos 0 ≤ℤ most }
    ensures value { IfSome result (λ q. by.value *ℤ q ≡ (a *ℤ b) -ℤ (c *ℤ d)) }
    ensures within { IfSome result (λ q. unsigned_abs q ≤ unsigned_abs most) }
{
    if is_short(a) && is_short(b) && is_short(c) && is_short(d) {
        short_divided_term(a, b, c, d, by, most)
    } else {
        long_divided_term(a, b, c, d, by, most)
    }
}

/// Returns the same, where the size of `a` is at most `most` already: nothing is computed where it stays.
#[inline(never)]
pub(crate) fn renew_number(a: i64, b: i64, c: i64, d: i64, by: Divisor, most: i64) -> Option<i64>
    requires positive { pos 0 <ℤ by.value }
    requires not_negative { pos 0 ≤ℤ most }
    requires small { unsigned_abs a ≤ unsigned_abs most }
    ensures value { IfSome result (λ q. by.value *ℤ q ≡ (a *ℤ b) -ℤ (c *ℤ d)) }
    ensures within { IfSome result (λ q. unsigned_abs q ≤ unsigned_abs most) }
{
    if c == 0 && b == by.value {
        return Some(a);
    }
    divide_term(a, b, c, d, by, most)
}

/// Returns the number, or its negative.
pub(crate) fn with_sign(z: i64, negative: bool, most: i64) -> i64
    requires small { unsigned_abs z ≤ unsigned_abs most }
    requires not_negative { pos 0 ≤ℤ most }
    ensures value { result ≡ (if negative then neg_ℤ z else z) }
    ensures within { unsigned_abs result ≤ unsigned_abs most }
{
    if negative { -z } else { z }
}

// The row after an exchange, number by number.
fn renew_each(
    row: &mut [i64],
    pivot: &[i64],
    p: usize,
    negative: bool,
    d: Divisor,
    most: i64,
) -> bool
    requires same_length { length pivot.now ≡ length row.old }
    requires index { p < length row.old }
    requires positive { pos 0 <ℤ d.value }
    requires not_negative { pos 0 ≤ℤ most }
    requires within { RowWithin (unsigned_abs most) row.old }
    ensures renewed { IsTrue result → RowRenewed pivot.now row.old row.new p negative d.value (unsigned_abs most) }
{
    let leaving = row[p];
    let factors = Factors::new(pivot[p], leaving, d, most);
    for n in 0..row.len() {
        match factors.renewed(row[n], pivot[n]) {
            Some(q) => row[n] = q,
            None => return false,
        }
    }
    row[p] = with_sign(leaving, negative, most);
    true
}

/// Makes the row that after the exchange of the pivot with the member at its index. Its support is forgotten, unless
/// the row stays. False where a number is larger than `most` or isn't a multiple of `d`; then nothing is said of the
/// row.
pub(crate) fn renew_row(
    row: &mut [i64],
    support: &mut Support,
    pivot: &Pivot,
    d: Divisor,
    most: i64,
) -> bool
    requires same_length { length pivot.now.numbers.now ≡ length row.old }
    requires index { pivot.now.p < length row.old }
    requires positive { pos 0 <ℤ d.value }
    requires not_negative { pos 0 ≤ℤ most }
    requires within { RowWithin (unsigned_abs most) row.old }
    ensures renewed { IsTrue result → RowRenewed pivot.now.numbers.now row.old row.new pivot.now.p pivot.now.negative d.value (unsigned_abs most) }
    ensures support { IsSupport row.old support.old → IsSupport row.new support.new }
{
    let size = pivot.numbers[pivot.p];
    if row[pivot.p] == 0 && size == d.value {
        return true;
    }
    support.forget();
    renew_each(row, pivot.numbers, pivot.p, pivot.negative, d, most)
}

// The numbers of the row at the listed indices after an exchange whose pivot has the denominator at its own index.
fn renew_few(row: &mut [i64], few: &Few, pivot: &[i64], leaving: i64, d: Divisor, most: i64) -> bool
    requires same_length { length pivot.now ≡ length row.old }
    requires positive { pos 0 <ℤ d.value }
    requires not_negative { pos 0 ≤ℤ most }
    requires within { RowWithin (unsigned_abs most) row.old }
    requires few { AreFew pivot.now few.now.indices few.now.count }
    ensures same_length { length row.new ≡ length row.old }
    ensures renewed { IsTrue result → (n : ℕ) → n < length row.old → d.value *ℤ number_at row.new n ≡ (number_at row.old n *ℤ d.value) -ℤ (number_at pivot.now n *ℤ leaving) }
    ensures within { IsTrue result → RowWithin (unsigned_abs most) row.new }
{
    let factors = Factors::new(d.value, leaving, d, most);
    for k in 0..few.count {
        let n = few.indices[k];
        match factors.renewed(row[n], pivot[n]) {
            Some(q) => row[n] = q,
            None => return false,
        }
    }
    true
}

/// Renews a row as `renew_row` does, where the pivot's number at its index is the denominator and few of its numbers
/// aren't 0: the others of the row stay.
pub(crate) fn renew_row_at(
    row: &mut [i64],
    support: &mut Support,
    pivot: &Pivot,
    d: Divisor,
    most: i64,
) -> bool
    requires same_length { length pivot.now.numbers.now ≡ length row.old }
    requires index { pivot.now.p < length row.old }
    requires size { number_at pivot.now.numbers.now pivot.now.p ≡ d.value }
    requires positive { pos 0 <ℤ d.value }
    requires not_negative { pos 0 ≤ℤ most }
    requires within { RowWithin (unsigned_abs most) row.old }
    requires few { AreFew pivot.now.numbers.now pivot.now.few.now.indices pivot.now.few.now.count }
    ensures renewed { IsTrue result → RowRenewed pivot.now.numbers.now row.old row.new pivot.now.p pivot.now.negative d.value (unsigned_abs most) }
    ensures support { IsSupport row.old support.old → IsSupport row.new support.new }
{
    let leaving = row[pivot.p];
    if leaving == 0 {
        return true;
    }
    support.forget();
    if !renew_few(row, pivot.few, pivot.numbers, leaving, d, most) {
        return false;
    }
    row[pivot.p] = with_sign(leaving, pivot.negative, most);
    true
}

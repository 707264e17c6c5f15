//! One row of the table in an exchange.

ghost use Rattle.std.specs.Prelude.{◌≡◌, ◌≢◌, ◌<◌, List, ℤ, length, pos, ◌*ℤ◌, MatchResult};
ghost use Rattle.rg_integers.specs.Range.{InRange};
ghost use Rattle.rg_integers.specs.Sign.{sign};
ghost use Rattle.rg_integers.specs.Sum.{number_at};
ghost use Rattle.rg_feasible.specs.Renewal.{RowInRange, IsSigned, index_of, renewal_term, IsRenewed, FirstOfRow, moved, IsExchangedRow, IsTurned};

use rg_fraction::reduce;
use rg_integers::{Wide, negate};

/// The number of a row's term that is out of range, and its four numbers.
#[derive(Clone, Copy, PartialEq, Eq, Debug)]
pub(crate) struct RowWide {
    pub(crate) entry: usize,
    pub(crate) wide: Wide,
}

// The number, or its negative where `of` is negative.
fn with_sign_of(of: i128, z: i128) -> i128
    requires { InRange z }
    ensures value { result ≡ sign of *ℤ z }
    ensures in_range { InRange result }
{
    if of < 0 { -z } else { z }
}

/// Copies the pivot's row, with the sign at which the number at index `p` is positive.
pub(crate) fn copy_signed(row: &[i128], signed: &mut [i128], p: usize)
    requires same_length { length row.now ≡ length signed.old }
    requires index { p < length row.now }
    requires in_range { RowInRange row.now }
    ensures signed { IsSigned row.now signed.new p }
    ensures in_range { RowInRange signed.new }
{
    for n in 0..row.len() {
        let z = with_sign_of(row[p], row[n]);
        signed[n] = z;
    }
}

// The index of term number `e` in a row of so many numbers: the last term is that of the new member, at index `p`.
fn term_index(width: usize, p: usize, e: usize) -> usize
    requires index { p < width }
    requires number { e < width }
    ensures value { result ≡ index_of width p e }
    ensures bound { result < width }
{
    if e + 1 == width {
        p
    } else if e < p {
        e
    } else {
        e + 1
    }
}

// Term number `e` of the row's renewal.
fn term(row: &[i128], pivot: &[i128], p: usize, e: usize) -> Wide
    requires same_length { length pivot.now ≡ length row.now }
    requires index { p < length row.now }
    requires number { e < length row.now }
    requires pivot_in_range { RowInRange pivot.now }
    requires in_range { RowInRange row.now }
    ensures { result ≡ renewal_term pivot.now row.now p e }
{
    let size = pivot[p];
    let leaving = row[p];
    if e == 0 {
        return Wide {
            a: row[0],
            b: size,
            c: 0,
            d: 0,
        };
    }
    if e + 1 == row.len() {
        let c = negate(pivot[0]);
        return Wide {
            a: 0,
            b: size,
            c,
            d: leaving,
        };
    }
    let n = term_index(row.len(), p, e);
    Wide {
        a: row[n],
        b: size,
        c: pivot[n],
        d: leaving,
    }
}

/// Gives the row the values of its terms, that of the new member at index `p`. Else returns the number of the first
/// term that passes.
fn renew(row: &mut [i128], pivot: &[i128], p: usize) -> Result<(), RowWide>
    requires same_length { length pivot.now ≡ length row.old }
    requires index { p < length row.old }
    requires after_constant { 1 < p }
    requires pivot_in_range { RowInRange pivot.now }
    requires in_range { RowInRange row.old }
    ensures renewed { MatchResult result (λ _. IsRenewed pivot.now row.old row.new p) (λ e. FirstOfRow pivot.now row.old p e.entry e.wide) }
    ensures in_range { RowInRange row.new }
{
    for e in 0..row.len() {
        match term(row, pivot, p, e).evaluate() {
            Ok(z) => row[term_index(row.len(), p, e)] = z,
            Err(wide) => return Err(RowWide { entry: e, wide }),
        }
    }
    Ok(())
}

// The number at index `p` goes to index `q`.
fn move_number(row: &mut [i128], p: usize, q: usize)
    requires from { p < length row.old }
    requires to { q < length row.old }
    ensures { row.new ≡ moved row.old p q }
{
    let number = row[p];
    if p < q {
        row.copy_within(p + 1..q + 1, p);
    } else {
        row.copy_within(q..p, q + 1);
    }
    row[q] = number;
}

/// Returns the row of a variable outside the set, over the new set: the member at index `p` leaves, and the pivot's
/// number comes to index `q`. Else the number of the first term that passes.
pub(crate) fn exchange_row(
    row: &mut [i128],
    pivot: &[i128],
    p: usize,
    q: usize,
) -> Result<(), RowWide>
    requires same_length { length pivot.now ≡ length row.old }
    requires index { p < length row.old }
    requires after_constant { 1 < p }
    requires new_index { q < length row.old }
    requires pivot_in_range { RowInRange pivot.now }
    requires in_range { RowInRange row.old }
    ensures row { MatchResult result (λ _. IsExchangedRow pivot.now row.old row.new p q) (λ e. (number_at row.old p ≢ pos 0) × FirstOfRow pivot.now row.old p e.entry e.wide) }
    ensures in_range { RowInRange row.new }
{
    if row[p] != 0 {
        match renew(row, pivot, p) {
            Ok(()) => {}
            Err(e) => return Err(e),
        }
        reduce(row);
    }
    move_number(row, p, q);
    Ok(())
}

// The row of the member that leaves, at index `p`, before it is moved.
fn turn(row: &mut [i128], pivot: &[i128], p: usize)
    requires same_length { length pivot.now ≡ length row.old }
    requires index { p < length row.old }
    requires after_constant { 1 < p }
    requires pivot_in_range { RowInRange pivot.now }
    ensures turned { IsTurned pivot.now row.new p }
    ensures in_range { RowInRange row.new }
{
    for n in 0..row.len() {
        let z = negate(pivot[n]);
        row[n] = z;
    }
    row[0] = pivot[p];
    row[p] = pivot[0];
}

/// Returns the row of the member that leaves: the pivot's relation, solved for it.
pub(crate) fn write_leaving(row: &mut [i128], pivot: &[i128], p: usize, q: usize)
    requires same_length { length pivot.now ≡ length row.old }
    requires index { p < length row.old }
    requires after_constant { 1 < p }
    requires new_index { q < length row.old }
    requires pivot_in_range { RowInRange pivot.now }
    ensures row { (turned : List ℤ) × IsTurned pivot.now turned p × (row.new ≡ moved turned p q) }
    ensures in_range { RowInRange row.new }
{
    turn(row, pivot, p);
    move_number(row, p, q);
}

//! The rows of the table in an exchange.

ghost use Rattle.std.specs.Prelude.{◌≡◌, ℕ, ◌<◌, ◌+◌, ◌*◌, ◌≤ℤ◌, ◌<ℤ◌, List, length, get_or, true, false, ℤ, pos, unsigned_abs, IsTrue};
ghost use Rattle.rg_integers.specs.Sum.{number_at};
ghost use Rattle.rg_revised.specs.Rows.{TableWithin, TableRenewed};
ghost use Rattle.rg_revised.specs.Few.{AreFew};
ghost use Rattle.rg_revised.specs.Supports.{AreSupports};
ghost use Rattle.rg_revised.specs.Starting.{AreUnitWhereUnchanged};

use crate::divisor::Divisor;
use crate::pivot::Pivot;
use crate::row::{renew_row, renew_row_at};
use crate::support::Support;

/// Makes the rows of all columns those after an exchange; see `renew_row`. False where a number is larger than `most`
/// or isn't a multiple of `d`; then nothing is said of the table, but that the rows that weren't changed are still
/// unit rows.
///
/// Mostly the denominator stays and few of the pivot's numbers aren't 0. Then each row is renewed at these alone.
pub(crate) fn renew_table(
    table: &mut [i64],
    changed: &mut [bool],
    supports: &mut [Support],
    pivot: &Pivot,
    d: Divisor,
    most: i64,
) -> bool
    requires supports { length supports.old ≡ length changed.old }
    requires width { length pivot.now.numbers.now ≡ length changed.old + 1 }
    requires size { length table.old ≡ length changed.old * length pivot.now.numbers.now }
    requires index { pivot.now.p < length changed.old }
    requires few { IsTrue pivot.now.listed → AreFew pivot.now.numbers.now pivot.now.few.now.indices pivot.now.few.now.count }
    requires positive { pos 0 <ℤ d.value }
    requires not_negative { pos 0 ≤ℤ most }
    requires within { TableWithin (length pivot.now.numbers.now) (length changed.old) (unsigned_abs most) table.old }
    requires unit { AreUnitWhereUnchanged (length pivot.now.numbers.now) changed.old table.old }
    ensures renewed { IsTrue result → TableRenewed (length pivot.now.numbers.now) pivot.now.numbers.now table.old table.new
        pivot.now.p pivot.now.negative d.value (unsigned_abs most) (length changed.old) }
    ensures unit { AreUnitWhereUnchanged (length pivot.now.numbers.now) changed.new table.new }
    ensures supports { AreSupports (length pivot.now.numbers.now) table.old supports.old → AreSupports (length pivot.now.numbers.now) table.new supports.new }
    ensures same_length { length changed.new ≡ length changed.old }
{
    change_rows(changed, pivot, d);
    if pivot.listed && pivot.numbers[pivot.p] == d.value {
        return renew_rows_at(table, changed, supports, pivot, d, most);
    }
    renew_rows(table, changed, supports, pivot, d, most)
}

// Says of the rows that an exchange may change that they were changed: that of the pivot's index, and all where the
// denominator changes.
fn change_rows(changed: &mut [bool], pivot: &Pivot, d: Divisor)
    requires index { pivot.now.p < length changed.old }
    requires inside { pivot.now.p < length pivot.now.numbers.now }
    ensures same_length { length changed.new ≡ length changed.old }
    ensures leaving { get_or changed.new pivot.now.p true ≡ true }
    ensures size { (t : ℕ) → t < length changed.new → get_or changed.new t true ≡ false → number_at pivot.now.numbers.now pivot.now.p ≡ d.value }
    ensures unit { (width : ℕ) (table : List ℤ) → AreUnitWhereUnchanged width changed.old table → AreUnitWhereUnchanged width changed.new table }
{
    if pivot.numbers[pivot.p] == d.value {
        changed[pivot.p] = true;
    } else {
        change_all(changed);
    }
}

/// Marks each row as changed.
pub(crate) fn change_all(changed: &mut [bool])
    ensures same_length { length changed.new ≡ length changed.old }
    ensures all { (t : ℕ) → t < length changed.old → get_or changed.new t true ≡ true }
{
    for t in 0..changed.len() {
        changed[t] = true;
    }
}

// Renews the rows that were changed, each at all its numbers. The row of the pivot's index is among them. Any other
// row is the unit row of its column, which stays, since it has 0 at that index and the denominator stays.
fn renew_rows(
    table: &mut [i64],
    changed: &[bool],
    supports: &mut [Support],
    pivot: &Pivot,
    d: Divisor,
    most: i64,
) -> bool
    requires supports { length supports.old ≡ length changed.now }
    requires length { length table.old ≡ length changed.now * length pivot.now.numbers.now }
    requires index { pivot.now.p < length pivot.now.numbers.now }
    requires size { (t : ℕ) → t < length changed.now → get_or changed.now t true ≡ false → number_at pivot.now.numbers.now pivot.now.p ≡ d.value }
    requires positive { pos 0 <ℤ d.value }
    requires not_negative { pos 0 ≤ℤ most }
    requires within { TableWithin (length pivot.now.numbers.now) (length changed.now) (unsigned_abs most) table.old }
    requires unit { AreUnitWhereUnchanged (length pivot.now.numbers.now) changed.now table.old }
    requires leaving { get_or changed.now pivot.now.p true ≡ true }
    ensures renewed { IsTrue result → TableRenewed (length pivot.now.numbers.now) pivot.now.numbers.now table.old table.new
        pivot.now.p pivot.now.negative d.value (unsigned_abs most) (length changed.now) }
    ensures unit { AreUnitWhereUnchanged (length pivot.now.numbers.now) changed.now table.new }
    ensures supports { AreSupports (length pivot.now.numbers.now) table.old supports.old → AreSupports (length pivot.now.numbers.now) table.new supports.new }
{
    let width = pivot.numbers.len();
    for t in 0..changed.len() {
        if changed[t] {
            let start = t * width;
            let row = &mut table[start..start + width];
            if !renew_row(row, &mut supports[t], pivot, d, most) {
                return false;
            }
        }
    }
    true
}

// The same where few of the pivot's numbers aren't 0: each row is renewed at these alone.
fn renew_rows_at(
    table: &mut [i64],
    changed: &[bool],
    supports: &mut [Support],
    pivot: &Pivot,
    d: Divisor,
    most: i64,
) -> bool
    requires supports { length supports.old ≡ length changed.now }
    requires length { length table.old ≡ length changed.now * length pivot.now.numbers.now }
    requires index { pivot.now.p < length pivot.now.numbers.now }
    requires size { number_at pivot.now.numbers.now pivot.now.p ≡ d.value }
    requires positive { pos 0 <ℤ d.value }
    requires not_negative { pos 0 ≤ℤ most }
    requires within { TableWithin (length pivot.now.numbers.now) (length changed.now) (unsigned_abs most) table.old }
    requires few { AreFew pivot.now.numbers.now pivot.now.few.now.indices pivot.now.few.now.count }
    requires unit { AreUnitWhereUnchanged (length pivot.now.numbers.now) changed.now table.old }
    requires leaving { get_or changed.now pivot.now.p true ≡ true }
    ensures renewed { IsTrue result → TableRenewed (length pivot.now.numbers.now) pivot.now.numbers.now table.old table.new
        pivot.now.p pivot.now.negative d.value (unsigned_abs most) (length changed.now) }
    ensures unit { AreUnitWhereUnchanged (length pivot.now.numbers.now) changed.now table.new }
    ensures supports { AreSupports (length pivot.now.numbers.now) table.old supports.old → AreSupports (length pivot.now.numbers.now) table.new supports.new }
{
    let width = pivot.numbers.len();
    for t in 0..changed.len() {
        if changed[t] {
            let start = t * width;
            let row = &mut table[start..start + width];
            if !renew_row_at(row, &mut supports[t], pivot, d, most) {
                return false;
            }
        }
    }
    true
}

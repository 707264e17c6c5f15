//! The relation of a row, read in 128 bits.

ghost use Rattle.std.specs.Prelude.{◌≡◌, ℕ, ◌*◌, ◌<◌, ◌≤◌, length, pos, ◌+ℤ◌, ◌*ℤ◌, unsigned_abs};
ghost use Rattle.rg_integers.specs.Range.{InRange};
ghost use Rattle.rg_integers.specs.Sum.{number_at};
ghost use Rattle.rg_linear.specs.Table.{row_at};
ghost use Rattle.rg_revised.specs.Rows.{TableWithin};
ghost use Rattle.rg_revised.specs.Reading.{IsAdded, IsRead};
ghost use Rattle.rg_revised.specs.Long.{IsSummable};

use crate::crossing::product;

/// Returns the number with a multiple of another.
pub(crate) fn add_long_product(a: i128, by: i64, x: i64) -> i128
    requires { InRange (a +ℤ (by *ℤ x)) }
    ensures value { result ≡ a +ℤ (by *ℤ x) }
    ensures in_range { InRange result }
{
    a + product(by, x)
}

// Makes all numbers 0.
fn clear_long(sums: &mut [i128])
    ensures same_length { length sums.new ≡ length sums.old }
    ensures zero { (s : ℕ) → s < length sums.old → number_at sums.new s ≡ pos 0 }
{
    for s in 0..sums.len() {
        sums[s] = 0;
    }
}

// Adds a multiple of the row to the sums.
fn add_long_row(sums: &mut [i128], row: &[i64], by: i64)
    requires same_length { length row.now ≡ length sums.old }
    requires sums { (s : ℕ) → s < length row.now → InRange (number_at sums.old s +ℤ (by *ℤ number_at row.now s)) }
    ensures { IsAdded by row.now sums.old sums.new }
{
    for s in 0..row.len() {
        sums[s] = add_long_product(sums[s], by, row[s]);
    }
}

/// Returns the numbers of a row's relation, in sums of 128 bits.
pub(crate) fn sum_row(coeffs: &[i128], constant: i128, table: &[i64], d: i64, sums: &mut [i128])
    requires width { 0 < length sums.old }
    requires size { length table.now ≡ length coeffs.now * length sums.old }
    requires small { (norm : ℕ) × (most : ℕ) × IsSummable norm most coeffs.now constant × TableWithin (length sums.old) (length coeffs.now) most table.now × (unsigned_abs d ≤ most) }
    ensures read { IsRead (length sums.old) coeffs.now constant table.now d sums.new }
    ensures in_range { (s : ℕ) → s < length sums.old → InRange (number_at sums.new s) }
{
    clear_long(sums);
    let width = sums.len();
    for t in 0..coeffs.len() {
        let by = coeffs[t];
        if by != 0 {
            let start = t * width;
            add_long_row(sums, &table[start..start + width], by as i64);
        }
    }
    sums[width - 1] = add_long_product(sums[width - 1], d, constant as i64);
}

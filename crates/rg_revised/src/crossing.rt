//! The rows of the table after an exchange, before their common factor is taken out.

ghost use Rattle.std.specs.Prelude.{◌≡◌, ◌<◌, ◌*◌, length, neg_ℤ, ◌*ℤ◌, if◌then◌else◌};
ghost use Rattle.rg_integers.specs.Range.{InRange};
ghost use Rattle.rg_revised.specs.Long.{RowCrossed, TableCrossed};

use crate::row::short_term;

/// The numbers of a pivot's row over `over`, with the sign at which that of slot `p` is positive.
#[derive(Clone, Copy)]
pub(crate) struct LongPivot<'a> {
    pub(crate) numbers: &'a [i64],
    pub(crate) over: i64,
    pub(crate) p: usize,
    pub(crate) negative: bool,
}

/// Returns the product.
pub(crate) fn product(a: i64, b: i64) -> i128
    ensures value { result ≡ a *ℤ b }
    ensures in_range { InRange result }
{
    i128::from(a) * i128::from(b)
}

// The product, or its negative.
fn signed_product(a: i64, b: i64, negative: bool) -> i128
    ensures value { result ≡ (if negative then neg_ℤ (a *ℤ b) else a *ℤ b) }
    ensures in_range { InRange result }
{
    let product = product(a, b);
    if negative { -product } else { product }
}

// Writes the numbers of one row.
fn cross_row(row: &[i64], pivot: &LongPivot, crossed: &mut [i128])
    requires width { length pivot.now.numbers.now ≡ length row.now }
    requires same_length { length crossed.old ≡ length row.now }
    requires index { pivot.now.p < length row.now }
    ensures { RowCrossed pivot.now.numbers.now pivot.now.over pivot.now.p pivot.now.negative row.now crossed.new }
{
    let size = pivot.numbers[pivot.p];
    let leaving = row[pivot.p];
    for n in 0..row.len() {
        crossed[n] = short_term(row[n], size, pivot.numbers[n], leaving);
    }
    crossed[pivot.p] = signed_product(pivot.over, leaving, pivot.negative);
}

/// Writes the numbers of the rows of all columns.
pub(crate) fn cross_table(table: &[i64], columns: usize, pivot: &LongPivot, crossed: &mut [i128])
    requires size { length table.now ≡ columns * length pivot.now.numbers.now }
    requires same_length { length crossed.old ≡ length table.now }
    requires index { pivot.now.p < length pivot.now.numbers.now }
    ensures { TableCrossed (length pivot.now.numbers.now) pivot.now.numbers.now pivot.now.over pivot.now.p pivot.now.negative table.now crossed.new columns }
{
    let width = pivot.numbers.len();
    for t in 0..columns {
        let start = t * width;
        cross_row(
            &table[start..start + width],
            pivot,
            &mut crossed[start..start + width],
        );
    }
}

//! Numbers of 128 bits in 64 bits, and the sizes of these.

ghost use Rattle.std.specs.Prelude.{◌≡◌, ℕ, ◌+◌, ◌-◌, ◌^◌, ◌<◌, ◌≤◌, length, pos, ◌<ℤ◌, unsigned_abs, IfSome};
ghost use Rattle.rg_integers.specs.Range.{InRange};
ghost use Rattle.rg_integers.specs.Sum.{number_at};
ghost use Rattle.rg_revised.specs.Rows.{RowWithin};
ghost use Rattle.rg_revised.specs.Long.{IsNarrowed};

use crate::row::keep_in_range;

/// Writes the numbers after the first one in 64 bits, and returns the first one. None where one is too large.
pub(crate) fn narrow(long: &[i128], numbers: &mut [i64]) -> Option<i64>
    requires length { length long.now ≡ length numbers.old + 1 }
    requires in_range { (n : ℕ) → n < length long.now → InRange (number_at long.now n) }
    ensures narrowed { IfSome result (λ first. IsNarrowed long.now first numbers.new) }
    ensures same_length { length numbers.new ≡ length numbers.old }
{
    for n in 0..numbers.len() {
        match keep_in_range(long[n + 1], i64::MAX) {
            Some(z) => numbers[n] = z,
            None => return None,
        }
    }
    keep_in_range(long[0], i64::MAX)
}

// The larger one of the size of a number and the largest one so far.
fn larger_size(number: i64, largest: i64) -> i64
    requires small { unsigned_abs number ≤ 2 ^ 63 - 1 }
    requires positive { pos 0 <ℤ largest }
    ensures number { unsigned_abs number ≤ unsigned_abs result }
    ensures largest { unsigned_abs largest ≤ unsigned_abs result }
    ensures positive { pos 0 <ℤ result }
{
    let size = if number < 0 { -number } else { number };
    if size > largest { size } else { largest }
}

/// Returns the largest size of `d` and the numbers, and at least 1.
pub(crate) fn largest_size(d: i64, numbers: &[i64]) -> i64
    requires d { unsigned_abs d ≤ 2 ^ 63 - 1 }
    requires small { RowWithin (2 ^ 63 - 1) numbers.now }
    ensures d { unsigned_abs d ≤ unsigned_abs result }
    ensures within { RowWithin (unsigned_abs result) numbers.now }
    ensures positive { pos 0 <ℤ result }
{
    let mut largest = 1;
    for n in 0..numbers.len() {
        largest = larger_size(numbers[n], largest);
    }
    larger_size(d, largest)
}

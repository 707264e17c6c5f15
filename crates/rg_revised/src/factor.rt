//! The common factor of a relation.

ghost use Rattle.std.specs.Prelude.{◌≡◌, ◌≢◌, ◌≤◌, ◌<◌, pos, ◌<ℤ◌, ◌*ℤ◌, ◌≤ℤ◌, unsigned_abs};
ghost use Rattle.std.specs.Int.{IsGcd, ◌∣◌};
ghost use Rattle.rg_integers.specs.Range.{InRange};
ghost use Rattle.rg_revised.specs.Settling.{IsCommonFactor};

use rg_fraction::gcd;

/// Returns the greatest number that divides `d` and all numbers.
pub(crate) fn common_factor(d: i64, numbers: &[i64]) -> i128
    requires positive { pos 0 <ℤ d }
    ensures factor { IsCommonFactor d numbers.now result }
    ensures in_range { InRange result }
{
    let mut factor = i128::from(d);
    for &number in numbers {
        factor = joint_factor(number, factor);
    }
    factor
}

// The greatest common divisor of the number and the factor so far.
fn joint_factor(number: i64, factor: i128) -> i128
    requires positive { pos 0 <ℤ factor }
    requires in_range { InRange factor }
    ensures greatest { IsGcd (unsigned_abs number) (unsigned_abs factor) (unsigned_abs result) }
    ensures positive { pos 0 <ℤ result }
    ensures in_range { InRange result }
{
    gcd(i128::from(number), factor)
}

/// Returns the quotient of a number by a factor that divides it.
pub(crate) fn divide_by_factor(number: i64, factor: i128) -> i128
    requires positive { pos 0 <ℤ factor }
    requires divides { unsigned_abs factor ∣ unsigned_abs number }
    requires in_range { InRange factor }
    ensures value { factor *ℤ result ≡ number }
    ensures in_range { InRange result }
{
    i128::from(number) / factor
}

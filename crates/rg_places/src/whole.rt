//! Fractions without denominators.
ghost use Rattle.std.specs.Prelude.{◌≡◌, ◌||◌, is_some, pos};
ghost use Rattle.rg_integers.specs.Range.{InRange};
ghost use Rattle.rg_folds.specs.Fold.{Comes};
ghost use Rattle.rg_case_folds.specs.Placing.{made_whole, times_each, marked_fold};
ghost use Rattle.rg_places.specs.PointValues.{ratios_of};

use rg_case_parts::{common_denominator, products};
use rg_fraction::{FoldStop, Fraction};
use rg_theory::Class;
use std::alloc::Global;

// In a class that is neither plain nor bounded the numbers times their least common denominator, and then times the
// marking that the class asks, and in others the numbers.
pub(crate) fn make_whole(
    alloc: Global,
    class: Class,
    numbers: Vec<Fraction>,
) -> Result<Vec<Fraction>, FoldStop>
    ensures { Comes (made_whole class (ratios_of numbers.items)) (λ found. ratios_of found.items) result }
{
    if has_whole_points(class) {
        return Ok(numbers);
    }
    let multiple = common_denominator(&numbers)?;
    let whole = times_each(alloc, numbers, multiple)?;
    times_marking(alloc, class, whole)
}

// The numbers times so much; the numbers as they are where that is 1.
fn times_each(alloc: Global, numbers: Vec<Fraction>, by: i128) -> Result<Vec<Fraction>, FoldStop>
    requires { InRange by }
    ensures { Comes (times_each by (ratios_of numbers.items)) (λ found. ratios_of found.items) result }
{
    if by == 1 {
        return Ok(numbers);
    }
    products(alloc, &numbers, by)
}

// The numbers times the marking that the class asks, if it asks one.
fn times_marking(
    alloc: Global,
    class: Class,
    numbers: Vec<Fraction>,
) -> Result<Vec<Fraction>, FoldStop>
    ensures { Comes (marked_fold class (ratios_of numbers.items)) (λ found. ratios_of found.items) result }
{
    match class.marking {
        Some(n) => times_each(alloc, numbers, widen(n)),
        None => Ok(numbers),
    }
}

// Whether the class is plain or bounded, so that its points are split until they are whole.
fn has_whole_points(class: Class) -> bool
    ensures { result ≡ (class.plain || is_some class.bound) }
{
    class.plain || class.bound.is_some()
}

// The number.
pub(crate) fn widen(n: u8) -> i128
    ensures value { result ≡ pos n }
    ensures in_range { InRange result }
{
    i128::from(n)
}

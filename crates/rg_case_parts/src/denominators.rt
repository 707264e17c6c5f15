//! The least common multiple of denominators.
ghost use Rattle.std.specs.Prelude.{◌≡◌, ℕ, ◌<◌, ◌<ℤ◌, pos, map, length, All, IfOk};
ghost use Rattle.rg_integers.specs.Range.{InRange};
ghost use Rattle.rg_fraction.specs.Fractions.{numerator_of, denominator_of};
ghost use Rattle.rg_folds.specs.Fold.{Comes, ratio_of, whole, each, mul, common_multiple, multiple_of_all};
ghost use Rattle.rg_case_folds.specs.Rewriting.{scaled_fold};
ghost use Rattle.rg_case_parts.specs.WholeNumbers.{scaled_of};

use crate::scaled::Scaled;
use rg_fraction::{FoldStop, Fraction, gcd, whole_product};
use rg_integers::Wide;
use std::alloc::{AllocError, Global};

/// Returns the fractions, each multiplied by the least common multiple of all denominators: the usual way from
/// rational to whole numbers (Schrijver, *Theory of Linear and Integer Programming*). `numbers` has one entry for
/// each fraction, in order.
///
/// Returns `FoldStop::Wide` exactly if a step of this is out of range, with the first such step: first the multiple,
/// two denominators at a time, then the products in order. Returns `FoldStop::NoMemory` if memory runs out.
pub fn without_denominators(alloc: Global, fractions: &[Fraction]) -> Result<Scaled, FoldStop>
    ensures comes { Comes (scaled_fold (map ratio_of fractions.now)) scaled_of result }
    ensures one_each { IfOk result (λ s. length s.numbers.items ≡ length fractions.now) }
{
    let multiple = common_denominator(fractions)?;
    if multiple == 1 {
        let numbers = numerators(alloc, fractions)?;
        return Ok(Scaled { multiple, numbers });
    }
    let products = products(alloc, fractions, multiple)?;
    let numbers = numerators(alloc, &products)?;
    Ok(Scaled { multiple, numbers })
}

// The numerators of the fractions.
fn numerators(alloc: Global, fractions: &[Fraction]) -> Result<Vec<i128>, AllocError>
    ensures numerators { IfOk result (λ v. v.items ≡ map numerator_of fractions.now) }
    ensures in_range { IfOk result (λ v. All InRange v.items) }
{
    fractions.iter().map(|f| f.numerator()).collect(alloc)
}

/// Returns the least common multiple of all denominators, formed two at a time from the first on; 1 of none. Returns
/// `Wide` exactly if a multiple on the way is out of range, with the first such step.
pub fn common_denominator(fractions: &[Fraction]) -> Result<i128, Wide>
    ensures value { multiple_of_all (map denominator_of fractions.now) result }
    ensures in_range { IfOk result InRange }
    ensures positive { IfOk result (λ m. pos 0 <ℤ m) }
{
    let Some((first, rest)) = fractions.split_first() else {
        return Ok(1);
    };
    let mut multiple = first.denominator();
    for fraction in rest {
        multiple = common_multiple(multiple, fraction.denominator())?;
    }
    Ok(multiple)
}

// The least common multiple of two positive numbers.
fn common_multiple(x: i128, y: i128) -> Result<i128, Wide>
    requires x_in_range { InRange x }
    requires y_in_range { InRange y }
    requires x_positive { pos 0 <ℤ x }
    requires y_positive { pos 0 <ℤ y }
    ensures value { common_multiple x y result }
    ensures in_range { IfOk result InRange }
{
    if y == 1 {
        return Ok(x);
    }
    whole_product(x / gcd(x, y), y)
}

/// Returns the fractions times the number: one product for each, in order.
///
/// Returns `FoldStop::Wide` exactly if a product is out of range, with the first such step, and `FoldStop::NoMemory`
/// if memory runs out.
pub fn products(
    alloc: Global,
    fractions: &[Fraction],
    number: i128,
) -> Result<Vec<Fraction>, FoldStop>
    requires { InRange number }
    ensures { Comes (each (λ f. mul f (whole number)) (map ratio_of fractions.now)) (λ v. map ratio_of v.items) result }
{
    if number == 1 {
        let same = fractions.to_vec(alloc)?;
        return Ok(same);
    }
    let factor = Fraction::new(number, 1);
    let mut products = Vec::with_capacity(alloc, fractions.len())?;
    for fraction in fractions {
        products.push(fraction.mul(factor)?)?;
    }
    Ok(products)
}

//! Sums and products of whole numbers, which stop where they are out of range.

ghost use Rattle.std.specs.Prelude.{◌≡◌, ◌+ℤ◌, ◌*ℤ◌, IfOk, MatchResult};
ghost use Rattle.rg_integers.specs.Range.{InRange};
ghost use Rattle.rg_fraction.specs.Terms.{sum_term, product_term};
ghost use Rattle.rg_integers.specs.Term.{FitsTerm, term_value};

use rg_integers::{Wide, difference, negate, product};

/// Returns the sum of two whole numbers. Refused exactly where it is out of range, with the numbers `x`, 1, `-y` and
/// 1 of the term `x*1 - -y*1`.
#[inline(always)]
pub fn whole_sum(x: i128, y: i128) -> Result<i128, Wide>
    requires { InRange y }
    ensures value { MatchResult result (λ z. FitsTerm (sum_term x y) × (z ≡ term_value (sum_term x y))) (λ w. (FitsTerm (sum_term x y) → ⊥) × (w ≡ sum_term x y)) }
    ensures sum { IfOk result (λ z. z ≡ x +ℤ y) }
    ensures in_range { IfOk result InRange }
{
    let c = negate(y);
    // `x` itself may be the number below the range
    match difference(x, c) {
        Some(z) if x != i128::MIN => Ok(z),
        _ => Err(Wide {
            a: x,
            b: 1,
            c,
            d: 1,
        }),
    }
}

/// Returns the product of two whole numbers. Refused exactly where it is out of range, with the numbers `x`, `y`, 0
/// and 0 of the term `x*y - 0*0`.
#[inline(always)]
pub fn whole_product(x: i128, y: i128) -> Result<i128, Wide>
    ensures value { MatchResult result (λ z. FitsTerm (product_term x y) × (z ≡ term_value (product_term x y))) (λ w. (FitsTerm (product_term x y) → ⊥) × (w ≡ product_term x y)) }
    ensures product { IfOk result (λ z. z ≡ x *ℤ y) }
    ensures in_range { IfOk result InRange }
{
    match product(x, y) {
        Some(z) => Ok(z),
        None => Err(Wide {
            a: x,
            b: y,
            c: 0,
            d: 0,
        }),
    }
}

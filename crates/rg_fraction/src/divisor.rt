//! Greatest common divisors, and quotients by divisors.

ghost use Rattle.std.specs.Prelude.{◌≡◌, ◌≢◌, ◌*◌, ◌≤◌, max, pos, ◌*ℤ◌, ◌≤ℤ◌, ◌<ℤ◌, unsigned_abs, int_div};
ghost use Rattle.std.specs.Int.{IsGcd, ◌∣◌};
ghost use Rattle.rg_integers.specs.Range.{InRange};
ghost use Rattle.rg_integers.specs.Divisor.{int_gcd};

use crate::binary::binary_gcd;

// The greatest common divisor of `a` and `b`: in 64 bits where both fit there, or one of them does and so the
// remainder by it.
pub(crate) fn gcd_of_sizes(a: u128, b: u128) -> u128
    ensures greatest { IsGcd a b result }
    ensures bound { result ≤ max a b }
{
    if a == 0 {
        return b;
    }
    if b == 0 {
        return a;
    }
    match (u64::try_from(a), u64::try_from(b)) {
        (Ok(p), Ok(q)) => u128::from(gcd_of_words(p, q)),
        (Err(_), Ok(q)) => u128::from(gcd_of_words(q, (a % b) as u64)),
        (Ok(p), Err(_)) => u128::from(gcd_of_words(p, (b % a) as u64)),
        (Err(_), Err(_)) => binary_gcd(a, b),
    }
}

// The same for numbers of 64 bits.
fn gcd_of_words(a: u64, b: u64) -> u64
    ensures greatest { IsGcd a b result }
    ensures bound { result ≤ max a b }
{
    let mut x = a;
    let mut y = b;
    while y != 0 {
        let rest = x % y;
        x = y;
        y = rest;
    }
    x
}

/// Returns the greatest common divisor, which is never negative; 0 exactly for two zeros.
pub fn gcd(a: i128, b: i128) -> i128
    requires a_in_range { InRange a }
    requires b_in_range { InRange b }
    ensures not_negative { pos 0 ≤ℤ result }
    ensures value { result ≡ int_gcd a b }
    ensures greatest { IsGcd (unsigned_abs a) (unsigned_abs b) (unsigned_abs result) }
    ensures positive { b ≢ pos 0 → pos 0 <ℤ result }
    ensures in_range { InRange result }
{
    gcd_of_sizes(a.unsigned_abs(), b.unsigned_abs()) as i128
}

// The quotient, rounded toward zero.
pub(crate) fn quotient(z: i128, g: i128) -> i128
    requires { pos 0 <ℤ g }
    ensures { result ≡ int_div z g }
{
    if let Ok(x) = i64::try_from(z)
        && let Ok(y) = i64::try_from(g)
    {
        return i128::from(x / y);
    }
    z / g
}

// The quotient by a divisor.
#[tactic(auto, using(crate::proofs::Parts::parts))]
pub(crate) fn part(z: i128, g: i128) -> i128
    requires positive { pos 0 <ℤ g }
    requires divides { unsigned_abs g ∣ unsigned_abs z }
    requires in_range { InRange z }
    ensures value { result ≡ int_div z g }
    ensures exact { result *ℤ g ≡ z }
    ensures size { unsigned_abs result * unsigned_abs g ≡ unsigned_abs z }
    ensures in_range { InRange result }
{
    quotient(z, g)
}

// The two numbers divided by their greatest common divisor.
#[tactic(auto, using(rg_integers::proofs::Casts::casts))]
pub(crate) fn split(a: i128, b: i128) -> (i128, i128)
    requires a_in_range { InRange a }
    requires b_in_range { InRange b }
    requires nonzero { b ≢ pos 0 }
    ensures first { result.0 ≡ int_div a (int_gcd a b) }
    ensures second { result.1 ≡ int_div b (int_gcd a b) }
    ensures exact_first { result.0 *ℤ int_gcd a b ≡ a }
    ensures exact_second { result.1 *ℤ int_gcd a b ≡ b }
    ensures reduced { IsGcd (unsigned_abs result.0) (unsigned_abs result.1) 1 }
    ensures first_in_range { InRange result.0 }
    ensures second_in_range { InRange result.1 }
{
    if b == 1 {
        return (a, 1);
    }
    let g = gcd(a, b);
    let x = part(a, g);
    let y = part(b, g);
    (x, y)
}

//! The greatest common divisor by halves and differences (Stein's algorithm): no number is divided.

ghost use Rattle.std.specs.Prelude.{◌≡◌, ℕ, ◌*◌, ◌^◌, ◌%◌, ◌<◌, ◌≤◌};
ghost use Rattle.std.specs.Int.{IsGcd, w128, trailing_zeros};

// The number without its factors 2.
fn odd_part(x: u128) -> u128
    requires { 0 < x }
    ensures part { (k : ℕ) × (x ≡ result * 2 ^ k) }
    ensures odd { result % 2 ≡ 1 }
    ensures bound { result ≤ x }
{
    x >> x.trailing_zeros()
}

// The greatest common divisor of two numbers, of which the second is odd.
fn gcd_with_odd(a: u128, b: u128) -> u128
    requires { b % 2 ≡ 1 }
    ensures greatest { IsGcd a b result }
    ensures bound { result ≤ b }
{
    let mut x = a;
    let mut y = b;
    while x != 0 {
        let z = odd_part(x);
        if z < y {
            x = y - z;
            y = z;
        } else {
            x = z - y;
        }
    }
    y
}

// The greatest common divisor, where the second number has no more factors 2 than the first.
fn gcd_with_fewer_twos(a: u128, b: u128) -> u128
    requires first { 0 < a }
    requires second { 0 < b }
    requires twos { trailing_zeros w128 b ≤ trailing_zeros w128 a }
    ensures { IsGcd a b result }
{
    let k = b.trailing_zeros();
    gcd_with_odd(a >> k, b >> k) << k
}

/// Returns the greatest common divisor of two numbers that aren't 0.
pub(crate) fn binary_gcd(a: u128, b: u128) -> u128
    requires first { 0 < a }
    requires second { 0 < b }
    ensures { IsGcd a b result }
{
    if b.trailing_zeros() <= a.trailing_zeros() {
        gcd_with_fewer_twos(a, b)
    } else {
        gcd_with_fewer_twos(b, a)
    }
}

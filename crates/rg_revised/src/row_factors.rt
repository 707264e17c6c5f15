//! What an exchange makes of the numbers of one row.

ghost use Rattle.std.specs.Prelude.{◌≡◌, ◌↔◌, ◌<◌, ◌≤◌, ◌^◌, pos, ◌-ℤ◌, ◌*ℤ◌, ◌<ℤ◌, ◌≤ℤ◌, unsigned_abs, IsTrue, IfSome};

use crate::divisor::Divisor;
use crate::row::renew_number;

// A number is short where its size is below this one: 2^31. The product of two short ones fits 64 bits.
const SHORT: i64 = 2_147_483_648;

/// Returns whether the number is short.
pub(crate) fn is_short(z: i64) -> bool
    ensures { IsTrue result ↔ (unsigned_abs z < 2 ^ 31) }
{
    z < SHORT && z > -SHORT
}

/// Returns `a*b - c*d` in 64 bits.
pub(crate) fn difference(a: i64, b: i64, c: i64, d: i64) -> i64
    requires a { unsigned_abs a < 2 ^ 31 }
    requires b { unsigned_abs b < 2 ^ 31 }
    requires c { unsigned_abs c < 2 ^ 31 }
    requires d { unsigned_abs d < 2 ^ 31 }
    ensures value { result ≡ (a *ℤ b) -ℤ (c *ℤ d) }
    ensures above_least { unsigned_abs result < 2 ^ 63 }
{
    a * b - c * d
}

/// The factors of a row: a number `a` of the row and the number `c` of the pivot in its column become `(a*size -
/// c*leaving) / by`, of a size of at most `most`.
#[derive(Clone, Copy)]
pub(crate) struct Factors {
    size: i64,
    leaving: i64,
    by: Divisor,
    most: i64,
    are_short: bool,
    ghost positive: { pos 0 <ℤ by.value },
    ghost not_negative: { pos 0 ≤ℤ most },
    ghost short: { IsTrue are_short → (unsigned_abs size < 2 ^ 31) × (unsigned_abs leaving < 2 ^ 31) × (unsigned_abs by.value < 2 ^ 31) × (2 ^ 31 ≤ unsigned_abs most) },
}

impl Factors {
    /// Returns these factors. They are short where all of them are, and the numbers may have the size of any short
    /// one.
    pub(crate) fn new(size: i64, leaving: i64, by: Divisor, most: i64) -> Factors
        requires positive { pos 0 <ℤ by.value }
        requires not_negative { pos 0 ≤ℤ most }
        ensures { (result.size ≡ size) × (result.leaving ≡ leaving) × (result.by ≡ by) × (result.most ≡ most) }
    {
        let are_short = is_short(size) && is_short(leaving) && is_short(by.value) && most >= SHORT;
        Factors {
            size,
            leaving,
            by,
            most,
            are_short,
        }
    }

    /// Returns what these numbers become. None where there is a rest, or the size is larger than `most`.
    #[inline(always)]
    pub(crate) fn renewed(self, a: i64, c: i64) -> Option<i64>
        requires small { unsigned_abs a ≤ unsigned_abs self.most }
        ensures value { IfSome result (λ q. self.by.value *ℤ q ≡ (a *ℤ self.size) -ℤ (c *ℤ self.leaving)) }
        ensures within { IfSome result (λ q. unsigned_abs q ≤ unsigned_abs self.most) }
    {
        if self.are_short && is_short(a) && is_short(c) {
            if let Some(q) = self.short_quotient(a, c) {
                return Some(q);
            }
        }
        renew_number(a, self.size, c, self.leaving, self.by, self.most)
    }

    // What short numbers become by short factors, where that is short too.
    #[inline(always)]
    fn short_quotient(self, a: i64, c: i64) -> Option<i64>
        requires factors { IsTrue self.are_short }
        requires a { unsigned_abs a < 2 ^ 31 }
        requires c { unsigned_abs c < 2 ^ 31 }
        ensures value { IfSome result (λ q. self.by.value *ℤ q ≡ (a *ℤ self.size) -ℤ (c *ℤ self.leaving)) }
        ensures within { IfSome result (λ q. unsigned_abs q ≤ unsigned_abs self.most) }
    {
        let n = difference(a, self.size, c, self.leaving);
        let q = self.by.candidate(n);
        if is_short(q) && difference(self.by.value, q, 0, 0) == n {
            Some(q)
        } else {
            None
        }
    }
}

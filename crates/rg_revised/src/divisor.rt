//! Exact quotients by one number, by multiplication with an inverse modulo 2^64.

ghost use Rattle.std.specs.Prelude.{◌≡◌, ◌<◌, ◌^◌, pos, ◌<ℤ◌, ◌*ℤ◌, unsigned_abs, IfSome};
ghost use Rattle.rg_integers.specs.Range.{InRange};

// An inverse of the number in twice as many last bits (Newton's step).
fn refine_inverse(number: i64, inverse: i64) -> i64 {
    let product = number.wrapping_mul(inverse);
    inverse.wrapping_mul(2i64.wrapping_sub(product))
}

// The inverse of an odd number modulo 2^64. In the last three bits any odd number is its own.
fn inverse_of(odd: i64) -> i64 {
    let six = refine_inverse(odd, odd);
    let twelve = refine_inverse(odd, six);
    let twenty_four = refine_inverse(odd, twelve);
    let forty_eight = refine_inverse(odd, twenty_four);
    refine_inverse(odd, forty_eight)
}

/// A divisor, with the number of its factors 2, and the inverse of the odd number that is left. No clause is about
/// these two: each quotient that they give is checked.
#[derive(Clone, Copy)]
pub(crate) struct Divisor {
    pub(crate) value: i64,
    twos: u32,
    inverse: i64,
}

impl Divisor {
    /// Returns the divisor of this value.
    pub(crate) fn new(value: i64) -> Divisor
        ensures { result.value ≡ value }
    {
        let twos = value.trailing_zeros();
        let inverse = inverse_of(value.wrapping_shr(twos));
        Divisor {
            value,
            twos,
            inverse,
        }
    }

    /// Returns the quotient where there is no rest, and else some number.
    pub(crate) fn candidate(self, n: i64) -> i64 {
        n.wrapping_shr(self.twos).wrapping_mul(self.inverse)
    }

    // The quotient that the inverse gives, where it is one.
    fn product_quotient(self, n: i64) -> Option<i64>
        ensures { IfSome result (λ q. self.value *ℤ q ≡ n) }
    {
        let quotient = self.candidate(n);
        match self.value.checked_mul(quotient) {
            Some(product) if product == n => Some(quotient),
            _ => None,
        }
    }

    /// Returns the quotient, where there is no rest.
    pub(crate) fn whole_quotient(self, n: i64) -> Option<i64>
        requires positive { pos 0 <ℤ self.value }
        requires above_least { unsigned_abs n < 2 ^ 63 }
        ensures value { IfSome result (λ q. self.value *ℤ q ≡ n) }
        ensures above_least { IfSome result (λ q. unsigned_abs q < 2 ^ 63) }
    {
        if self.value == 1 {
            return Some(n);
        }
        match self.product_quotient(n) {
            Some(quotient) => Some(quotient),
            None => divide_exactly(n, self.value),
        }
    }

    /// Returns the same for any number in range.
    pub(crate) fn exact_quotient(self, n: i128) -> Option<i128>
        requires n_in_range { InRange n }
        requires positive { pos 0 <ℤ self.value }
        ensures value { IfSome result (λ q. self.value *ℤ q ≡ n) }
        ensures in_range { IfSome result InRange }
    {
        if self.value == 1 {
            return Some(n);
        }
        match i64::try_from(n) {
            Ok(short) => self.short_quotient(short),
            Err(_) => long_quotient(n, self.value),
        }
    }

    // The same for a number of 64 bits.
    fn short_quotient(self, n: i64) -> Option<i128>
        requires positive { pos 0 <ℤ self.value }
        ensures value { IfSome result (λ q. self.value *ℤ q ≡ n) }
        ensures in_range { IfSome result InRange }
    {
        match self.product_quotient(n) {
            Some(quotient) => Some(i128::from(quotient)),
            None => long_quotient(i128::from(n), self.value),
        }
    }
}

// The quotient by division, where there is no rest.
fn divide_exactly(n: i64, by: i64) -> Option<i64>
    requires positive { pos 0 <ℤ by }
    requires above_least { unsigned_abs n < 2 ^ 63 }
    ensures value { IfSome result (λ q. by *ℤ q ≡ n) }
    ensures above_least { IfSome result (λ q. unsigned_abs q < 2 ^ 63) }
{
    if n % by != 0 {
        return None;
    }
    Some(n / by)
}

// The same for any number in range.
fn long_quotient(n: i128, by: i64) -> Option<i128>
    requires n_in_range { InRange n }
    requires positive { pos 0 <ℤ by }
    ensures value { IfSome result (λ q. by *ℤ q ≡ n) }
    ensures in_range { IfSome result InRange }
{
    let by = i128::from(by);
    if n % by != 0 {
        return None;
    }
    Some(n / by)
}

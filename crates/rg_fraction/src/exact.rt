//! Exact quotients by one number, by multiplication with an inverse modulo 2^128: nothing is divided.

ghost use Rattle.std.specs.Prelude.{◌≡◌, ℕ, ◌+◌, ◌*◌, ◌%◌, ◌<◌, ◌≤◌, pos, ◌*ℤ◌, unsigned_abs};
ghost use Rattle.std.specs.Int.{◌∣◌};
ghost use Rattle.rg_integers.specs.Range.{InRange};
ghost use Rattle.rg_fraction.specs.Exact.{IsInverseIn, IsTakenApart};

// An inverse of the number in twice as many last bits (Newton's step).
fn refine_inverse(number: u128, inverse: u128) -> u128
    ensures { (j : ℕ) → 0 < j → j + j ≤ 128 → IsInverseIn j number inverse → IsInverseIn (j + j) number result }
{
    let product = number.wrapping_mul(inverse);
    inverse.wrapping_mul(2u128.wrapping_sub(product))
}

// The inverse of an odd number modulo 2^128. In the last bit any odd number is one.
fn inverse_of(odd: u128) -> u128
    requires { odd % 2 ≡ 1 }
    ensures { IsInverseIn 128 odd result }
{
    let two = refine_inverse(odd, odd);
    let four = refine_inverse(odd, two);
    let eight = refine_inverse(odd, four);
    let sixteen = refine_inverse(odd, eight);
    let half_word = refine_inverse(odd, sixteen);
    let word = refine_inverse(odd, half_word);
    refine_inverse(odd, word)
}

/// A divisor, taken apart: the number of its factors 2, and the inverse of the odd number that is left.
#[derive(Clone, Copy)]
pub(crate) struct Divisor {
    size: u128,
    twos: u32,
    inverse: u128,
    ghost taken_apart: { IsTakenApart size twos inverse },
}

impl Divisor {
    /// Returns the divisor of this size, which isn't 0.
    pub(crate) fn new(size: u128) -> Divisor
        requires { 0 < size }
        ensures { result.size ≡ size }
    {
        let twos = size.trailing_zeros();
        let inverse = inverse_of(size >> twos);
        Divisor {
            size,
            twos,
            inverse,
        }
    }

    // The quotient of a size that it divides.
    fn share(self, n: u128) -> u128
        requires { self.size ∣ n }
        ensures { result * self.size ≡ n }
    {
        (n >> self.twos).wrapping_mul(self.inverse)
    }

    /// Returns the quotient of a number that it divides.
    pub(crate) fn part(self, z: i128) -> i128
        requires divides { self.size ∣ unsigned_abs z }
        requires in_range { InRange z }
        ensures exact { result *ℤ pos self.size ≡ z }
        ensures in_range { InRange result }
    {
        let share = self.share(z.unsigned_abs()) as i128;
        if z < 0 { -share } else { share }
    }
}

//! Fractions: their values, sums, products, order and whole parts.

ghost use Rattle.std.specs.Prelude.{◌≡◌, ◌≢◌, pos, neg_ℤ, ◌+ℤ◌, ◌*ℤ◌, ◌≤ℤ◌, ◌<ℤ◌, unsigned_abs, int_rem, IsTrue, ◌↔◌, ◌⊎◌};
ghost use Rattle.std.specs.Int.{IsGcd};
ghost use Rattle.std.specs.Ordering.{int_cmp};
ghost use Rattle.rg_integers.specs.Range.{InRange};
ghost use Rattle.rg_fraction.specs.Terms.{ProductIsReduced};
ghost use Rattle.rg_integers.specs.Term.{term_value};

use crate::divisor::{quotient, split};
use crate::order::compare;
use crate::whole::{whole_product, whole_sum};
use rg_integers::{Wide, negate};
use std::cmp::Ordering;

/// A rational number: a numerator and a denominator in range, without a common factor, the
/// denominator positive. So two fractions of one value have the same numbers.
#[derive(Clone, Copy, PartialEq, Eq, Debug)]
pub struct Fraction {
    numerator: i128,
    denominator: i128,
    pub ghost numerator_in_range: { InRange numerator },
    pub ghost denominator_in_range: { InRange denominator },
    pub ghost positive: { pos 0 <ℤ denominator },
    pub ghost reduced: { IsGcd (unsigned_abs numerator) (unsigned_abs denominator) 1 },
}

// The remainder, with the sign of `z`.
fn remainder(z: i128, g: i128) -> i128
    requires { pos 0 <ℤ g }
    ensures { result ≡ int_rem z g }
{
    z % g
}

// The fraction of two numbers without a common factor, of any sign.
#[tactic(auto, using(rg_integers::proofs::Casts::casts))]
fn from_reduced(top: i128, bottom: i128) -> Fraction
    requires top_in_range { InRange top }
    requires bottom_in_range { InRange bottom }
    requires nonzero { bottom ≢ pos 0 }
    requires reduced { IsGcd (unsigned_abs top) (unsigned_abs bottom) 1 }
    ensures { ((result.numerator ≡ top) × (result.denominator ≡ bottom)) ⊎ ((result.numerator ≡ neg_ℤ top) × (result.denominator ≡ neg_ℤ bottom)) }
{
    if bottom < 0 {
        let numerator = negate(top);
        let denominator = negate(bottom);
        return Fraction {
            numerator,
            denominator,
        };
    }
    Fraction {
        numerator: top,
        denominator: bottom,
    }
}

impl Fraction {
    ghost use Rattle.rg_fraction.specs.Fractions.{numerator_of, denominator_of, IsValue, Shows, IsFormed, IsSum, IsProduct, ShowsProduct};

    /// Returns the fraction with the value of `n` over `d`.
    #[inline(always)]
    pub fn new(n: i128, d: i128) -> Fraction
        requires n_in_range { InRange n }
        requires d_in_range { InRange d }
        requires nonzero { d ≢ pos 0 }
        ensures { IsValue result n d }
    {
        if d == 1 {
            return Fraction::whole(n);
        }
        Fraction::divided(n, d)
    }

    // The fraction with the value of `n` over `d`: their common factor is taken out.
    #[inline(never)]
    fn divided(n: i128, d: i128) -> Fraction
        requires n_in_range { InRange n }
        requires d_in_range { InRange d }
        requires nonzero { d ≢ pos 0 }
        ensures { IsValue result n d }
    {
        let (top, bottom) = split(n, d);
        from_reduced(top, bottom)
    }

    // The first term over the second, or the first of them that passes.
    fn over(top: Wide, bottom: Wide) -> Result<Fraction, Wide>
        requires { term_value bottom ≢ pos 0 }
        ensures { IsFormed top bottom (term_value top) (term_value bottom) result }
    {
        let n = match top.evaluate() {
            Ok(n) => n,
            Err(w) => return Err(w),
        };
        let d = match bottom.evaluate() {
            Ok(d) => d,
            Err(w) => return Err(w),
        };
        Ok(Fraction::new(n, d))
    }

    // The first term over the second, which have no common factor, or the first of them that passes.
    fn of_reduced(top: Wide, bottom: Wide) -> Result<Fraction, Wide>
        requires positive { pos 0 <ℤ term_value bottom }
        requires reduced { IsGcd (unsigned_abs (term_value top)) (unsigned_abs (term_value bottom)) 1 }
        ensures { IsFormed top bottom (term_value top) (term_value bottom) result }
    {
        let numerator = match top.evaluate() {
            Ok(n) => n,
            Err(w) => return Err(w),
        };
        let denominator = match bottom.evaluate() {
            Ok(d) => d,
            Err(w) => return Err(w),
        };
        Ok(Fraction {
            numerator,
            denominator,
        })
    }

    // The whole number as a fraction.
    #[inline(always)]
    fn whole(n: i128) -> Fraction
        requires { InRange n }
        ensures { Shows result n (pos 1) }
    {
        Fraction {
            numerator: n,
            denominator: 1,
        }
    }

    // The sum of two whole numbers: no divisor is sought.
    #[inline(always)]
    fn whole_sum(n: i128, m: i128) -> Result<Fraction, Wide>
        requires first { InRange n }
        requires second { InRange m }
        ensures { IsSum n (pos 1) m (pos 1) result }
    {
        let z = whole_sum(n, m)?;
        Ok(Fraction::whole(z))
    }

    // The product of two whole numbers: no divisor is sought.
    #[inline(always)]
    fn whole_product(n: i128, m: i128) -> Result<Fraction, Wide>
        requires first { InRange n }
        requires second { InRange m }
        ensures { IsProduct n (pos 1) m (pos 1) result }
    {
        let z = whole_product(n, m)?;
        Ok(Fraction::whole(z))
    }

    /// Returns the sum `n/d + m/e`. With the greatest common divisor `g` of `d` and `e` it forms the numerator
    /// `n*(e/g) - (-m)*(d/g)` and the denominator `(d/g)*e`, and is refused exactly where one of them passes. A
    /// numerator that passes is shown as `n`, `e/g`, `-m`, `d/g`, a denominator that passes alone as `d/g`, `e`, 0,
    /// 0.
    #[inline(always)]
    pub fn add(self, o: Fraction) -> Result<Fraction, Wide>
        ensures { IsSum (numerator_of self) (denominator_of self) (numerator_of o) (denominator_of o) result }
    {
        if self.is_whole() && o.is_whole() {
            return Fraction::whole_sum(self.numerator, o.numerator);
        }
        self.sum(o)
    }

    // The sum of any two fractions, by the greatest common divisor of the denominators.
    #[inline(never)]
    fn sum(self, o: Fraction) -> Result<Fraction, Wide>
        ensures { IsSum (numerator_of self) (denominator_of self) (numerator_of o) (denominator_of o) result }
    {
        let (d, e) = split(self.denominator, o.denominator);
        let m = negate(o.numerator);
        Fraction::over(
            Wide {
                a: self.numerator,
                b: e,
                c: m,
                d,
            },
            Wide {
                a: d,
                b: o.denominator,
                c: 0,
                d: 0,
            },
        )
    }

    /// Returns the difference: `add` of the negated value.
    pub fn sub(self, o: Fraction) -> Result<Fraction, Wide>
        ensures { IsSum (numerator_of self) (denominator_of self) (neg_ℤ (numerator_of o)) (denominator_of o) result }
    {
        self.add(o.opposite())
    }

    // The negated value.
    fn opposite(self) -> Fraction
        ensures top { numerator_of result ≡ neg_ℤ (numerator_of self) }
        ensures bottom { denominator_of result ≡ denominator_of self }
    {
        let numerator = negate(self.numerator);
        Fraction {
            numerator,
            denominator: self.denominator,
        }
    }

    /// Returns the product of `n/d` and `m/e`. With the greatest common divisors `g` of `n` and `e` and `h` of `m`
    /// and `d`, its reduced numerator is `(n/g)*(m/h)` and its reduced denominator `(d/h)*(e/g)`, and it is refused
    /// exactly where one of them is out of range. A numerator that passes is shown as `n/g`, `m/h`, 0, 0, a
    /// denominator that passes alone as `d/h`, `e/g`, 0, 0.
    pub fn mul(self, o: Fraction) -> Result<Fraction, Wide>
        ensures product { IsProduct (numerator_of self) (denominator_of self) (numerator_of o) (denominator_of o) result }
        ensures numbers { ShowsProduct (numerator_of self) (denominator_of self) (numerator_of o) (denominator_of o) result }
        ensures reduced { ProductIsReduced (numerator_of self) (denominator_of self) (numerator_of o) (denominator_of o) }
    {
        if self.is_whole() && o.is_whole() {
            return Fraction::whole_product(self.numerator, o.numerator);
        }
        let (n, e) = split(self.numerator, o.denominator);
        let (m, d) = split(o.numerator, self.denominator);
        Fraction::of_reduced(
            Wide {
                a: n,
                b: m,
                c: 0,
                d: 0,
            },
            Wide {
                a: d,
                b: e,
                c: 0,
                d: 0,
            },
        )
    }

    /// Returns the order of the values, for any two fractions: no product is formed.
    pub fn cmp(&self, o: &Fraction) -> Ordering
        ensures { result ≡ int_cmp (numerator_of self.now *ℤ denominator_of o.now) (numerator_of o.now *ℤ denominator_of self.now) }
    {
        let n = self.numerator;
        let d = self.denominator;
        let m = o.numerator;
        let e = o.denominator;
        if n < 0 {
            if m < 0 {
                return compare(
                    m.unsigned_abs(),
                    e.unsigned_abs(),
                    n.unsigned_abs(),
                    d.unsigned_abs(),
                );
            }
            return Ordering::Less;
        }
        if m < 0 {
            return Ordering::Greater;
        }
        compare(
            n.unsigned_abs(),
            d.unsigned_abs(),
            m.unsigned_abs(),
            e.unsigned_abs(),
        )
    }

    /// Returns the greatest whole number that is not above the value.
    pub fn floor(&self) -> i128
        ensures low { (result *ℤ denominator_of self.now) ≤ℤ numerator_of self.now }
        ensures high { numerator_of self.now <ℤ ((result +ℤ pos 1) *ℤ denominator_of self.now) }
        ensures in_range { InRange result }
    {
        // `q` is rounded toward zero
        let q = quotient(self.numerator, self.denominator);
        let r = remainder(self.numerator, self.denominator);
        if r < 0 { q - 1 } else { q }
    }

    /// Returns whether the value is a whole number.
    #[inline(always)]
    pub fn is_whole(&self) -> bool
        ensures { IsTrue result ↔ (denominator_of self.now ≡ pos 1) }
    {
        self.denominator == 1
    }

    /// Returns the numerator of the reduced form, with the sign of the value.
    pub fn numerator(&self) -> i128
        ensures value { result ≡ numerator_of self.now }
        ensures in_range { InRange result }
    {
        self.numerator
    }

    /// Returns the denominator of the reduced form.
    pub fn denominator(&self) -> i128
        ensures value { result ≡ denominator_of self.now }
        ensures in_range { InRange result }
        ensures positive { pos 0 <ℤ result }
    {
        self.denominator
    }
}

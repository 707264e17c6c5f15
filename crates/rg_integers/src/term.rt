//! Terms a*b - c*d over numbers in range.

ghost use Rattle.std.specs.Prelude.{◌≡◌, neg_ℤ, ◌-ℤ◌, ◌*ℤ◌, MatchResult};
ghost use Rattle.std.specs.Option.{SomeIff};
ghost use Rattle.rg_integers.specs.Range.{InRange};
ghost use Rattle.rg_integers.specs.Term.{FitsTerm, term_value};

/// The four numbers of a term: as a refusal it says that `a*b`, `c*d` or `a*b - c*d` is out of
/// range.
#[derive(Clone, Copy, PartialEq, Eq, Debug)]
pub struct Wide {
    pub a: i128,
    pub b: i128,
    pub c: i128,
    pub d: i128,
}

impl Wide {
    /// Returns the term `a*b - c*d`. Refused, with its four numbers, exactly where `a*b`, `c*d` or the difference is
    /// out of range.
    #[inline(always)]
    pub fn evaluate(self) -> Result<i128, Wide>
        ensures { MatchResult result (λ z. FitsTerm self × (z ≡ term_value self)) (λ w. (FitsTerm self → ⊥) × (w ≡ self)) }
    {
        let Some(left) = product(self.a, self.b) else {
            return Err(self);
        };
        let Some(right) = product(self.c, self.d) else {
            return Err(self);
        };
        match difference(left, right) {
            Some(z) => Ok(z),
            None => Err(self),
        }
    }
}

// The product of two numbers of 64 bits, which is never out of range.
fn short_product(a: i64, b: i64) -> i128
    ensures value { result ≡ a *ℤ b }
    ensures in_range { InRange result }
{
    i128::from(a) * i128::from(b)
}

/// Returns the negative, which is in range too.
#[inline(always)]
pub fn negate(z: i128) -> i128
    requires { InRange z }
    ensures value { result ≡ neg_ℤ z }
    ensures in_range { InRange result }
{
    -z
}

/// Returns the product; None exactly where it is out of range.
pub fn product(a: i128, b: i128) -> Option<i128>
    ensures { SomeIff result (InRange (a *ℤ b)) (a *ℤ b) }
{
    if let Ok(x) = i64::try_from(a)
        && let Ok(y) = i64::try_from(b)
    {
        return Some(short_product(x, y));
    }
    match a.checked_mul(b) {
        Some(z) if z != i128::MIN => Some(z),
        _ => None,
    }
}

/// Returns the difference `a - b`; None exactly where it is out of range.
pub fn difference(a: i128, b: i128) -> Option<i128>
    ensures { SomeIff result (InRange (a -ℤ b)) (a -ℤ b) }
{
    match a.checked_sub(b) {
        Some(z) if z != i128::MIN => Some(z),
        _ => None,
    }
}

/// Returns the number that a term is, where both products and the difference are in range.
pub fn value(t: Wide) -> i128
    requires { FitsTerm t }
    ensures value { result ≡ term_value t }
    ensures in_range { InRange result }
{
    minus(times(t.a, t.b), times(t.c, t.d))
}

// The product, which is in range.
fn times(a: i128, b: i128) -> i128
    requires { InRange (a *ℤ b) }
    ensures value { result ≡ a *ℤ b }
    ensures in_range { InRange result }
{
    a * b
}

// The difference, which is in range.
fn minus(a: i128, b: i128) -> i128
    requires { InRange (a -ℤ b) }
    ensures value { result ≡ a -ℤ b }
    ensures in_range { InRange result }
{
    a - b
}

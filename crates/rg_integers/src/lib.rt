//! Integer arithmetic that the crates above share: the range of numbers, terms out of range, greatest common
//! divisors, rational values as two whole numbers, and finite sums. The definitions are in `specs/`, the lemmas in
//! `proofs/`; the functions in this file are laws, and do nothing.
#![tactic(auto)]

mod term;

ghost use Rattle.std.specs.Prelude.{◌≡◌, ◌≢◌, ℕ, ◌*◌, List, length, ℤ, pos, ◌*ℤ◌, ◌≤ℤ◌, unsigned_abs};
ghost use Rattle.std.specs.Int.{IsGcd, ◌∣◌};
ghost use Rattle.rg_integers.specs.Divisor.{gcd_of, int_gcd, IsGcdBelow};
ghost use Rattle.rg_integers.specs.Value.{SameValue, IsReducedForm};
ghost use Rattle.rg_integers.specs.Sum.{number_at, dot, sum_below};

pub use term::{Wide, difference, negate, product, value};

/// The greatest number in range, `2^127 - 1`.
pub const GREATEST: i128 = i128::MAX;

/// Law: Euclid's steps give the greatest common divisor. It divides both numbers, each number that divides both
/// divides it, and no other number does so.
pub fn gcd_is_greatest()
    ensures greatest { (a b : ℕ) → IsGcd a b (gcd_of a b) }
    ensures only { (a b g : ℕ) → IsGcd a b g → g ≡ gcd_of a b }
    ensures whole { (a b : ℤ) → IsGcd (unsigned_abs a) (unsigned_abs b) (unsigned_abs (int_gcd a b)) }
    ensures not_negative { (a b : ℤ) → pos 0 ≤ℤ int_gcd a b }
{}

/// Law: every finite row of numbers has a greatest common divisor, and one only.
pub fn rows_have_a_divisor()
    ensures some { (n : ℕ) (f : ℕ → ℕ) → (g : ℕ) × IsGcdBelow n f g }
    ensures one { (n : ℕ) (f : ℕ → ℕ) (g h : ℕ) → IsGcdBelow n f g → IsGcdBelow n f h → g ≡ h }
{}

/// Law: Euclid's lemma: a number that has no common factor with `n`, and divides `n * e`, divides `e`.
pub fn coprime_divides()
    ensures { (d n e : ℕ) → IsGcd d n 1 → d ∣ n * e → d ∣ e }
{}

/// Law: a rational value has one reduced form.
pub fn reduced_form_is_one()
    ensures { (p q r s n d : ℤ) → d ≢ pos 0 → IsReducedForm p q n d → IsReducedForm r s n d → (p ≡ r) × (q ≡ s) }
{}

/// Law: to have the same value is transitive, past a denominator that is not 0.
pub fn same_value_is_transitive()
    ensures { (n d m e k f : ℤ) → e ≢ pos 0 → SameValue n d m e → SameValue m e k f → SameValue n d k f }
{}

/// Law: a sum of products of two lists is the sum over the indices of the first one, with 0 for a number that is not
/// there.
pub fn dot_is_a_sum()
    ensures { (xs ys : List ℤ) → dot xs ys ≡ sum_below (length xs) (λ j. number_at xs j *ℤ number_at ys j) }
{}

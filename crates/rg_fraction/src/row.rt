//! Rows of numbers: their greatest common divisors, and the elimination of an entry.

ghost use Rattle.std.specs.Prelude.{◌≡◌, ◌≢◌, ℕ, ◌<◌, length, pos, ◌<ℤ◌, ◌≤ℤ◌, ◌*ℤ◌, unsigned_abs, MatchResult};
ghost use Rattle.std.specs.Int.{◌∣◌};
ghost use Rattle.rg_integers.specs.Range.{InRange};
ghost use Rattle.rg_integers.specs.Sum.{number_at};
ghost use Rattle.rg_fraction.specs.Rows.{RowFits, IsFirstWide, IsCrossed, IsRowGcd, IsPrimitivePart, IsEliminated, IsRefused};

use crate::divisor::gcd;
use crate::exact::Divisor;
use rg_integers::{Wide, value};

// Whether each term of the row fits; else the first that passes.
fn check(p: &[i128], q: &[i128], b: i128, d: i128, j: usize) -> Result<(), Wide>
    requires lengths { length p.now ≡ length q.now }
    requires pivot { b ≡ number_at p.now j }
    requires entry { d ≡ number_at q.now j }
    ensures { MatchResult result (λ _. RowFits p.now q.now j) (IsFirstWide p.now q.now j) }
{
    for i in 0..q.len() {
        let term = Wide {
            a: q[i],
            b,
            c: p[i],
            d,
        };
        match term.evaluate() {
            Ok(_) => {}
            Err(w) => return Err(w),
        }
    }
    Ok(())
}

// Writes the terms over the row.
fn cross(p: &[i128], q: &mut [i128], b: i128, d: i128, j: usize)
    requires lengths { length p.now ≡ length q.old }
    requires pivot { b ≡ number_at p.now j }
    requires entry { d ≡ number_at q.old j }
    requires fits { RowFits p.now q.old j }
    ensures { IsCrossed p.now q.old j q.new }
{
    for i in 0..q.len() {
        let z = value(Wide {
            a: q[i],
            b,
            c: p[i],
            d,
        });
        q[i] = z;
    }
}

/// Returns the greatest common divisor of the numbers of a row: it is never negative, and 0 exactly where no number
/// is other than 0.
pub fn row_gcd(row: &[i128]) -> i128
    requires { (k : ℕ) → k < length row.now → InRange (number_at row.now k) }
    ensures value { IsRowGcd row.now (unsigned_abs result) }
    ensures not_negative { pos 0 ≤ℤ result }
    ensures in_range { InRange result }
{
    let mut divisor = 0;
    for &number in row {
        divisor = gcd(number, divisor);
        if divisor == 1 {
            return 1;
        }
    }
    divisor
}

// Divides each number by a common divisor.
fn divide(q: &mut [i128], g: i128)
    requires positive { pos 0 <ℤ g }
    requires divides { (k : ℕ) → k < length q.old → unsigned_abs g ∣ unsigned_abs (number_at q.old k) }
    requires in_range { (k : ℕ) → k < length q.old → InRange (number_at q.old k) }
    ensures quotients { (k : ℕ) → k < length q.old → number_at q.new k *ℤ g ≡ number_at q.old k }
    ensures in_range { (k : ℕ) → k < length q.old → InRange (number_at q.new k) }
{
    let divisor = Divisor::new(g.unsigned_abs());
    for i in 0..q.len() {
        let z = divisor.part(q[i]);
        q[i] = z;
    }
}

/// Divides the row by the greatest common divisor of its numbers. A row of zeros stays.
pub fn reduce(q: &mut [i128])
    requires { (k : ℕ) → k < length q.old → InRange (number_at q.old k) }
    ensures part { (g : ℕ) × IsPrimitivePart q.old q.new g }
    ensures in_range { (k : ℕ) → k < length q.old → InRange (number_at q.new k) }
{
    let g = row_gcd(q);
    if g > 1 {
        divide(q, g);
    }
}

/// Eliminates the entry of `q` at `j` by the row `p`, whose entry there is positive: a step of
/// Gauss's elimination over whole numbers. Where `q[j]` is 0, `q` stays. Otherwise `q` becomes the
/// row of the terms `q[k]*p[j] - p[k]*q[j]` divided by its greatest common divisor; a row of zeros
/// isn't divided. Refused exactly where a term passes: with the first one, by the numbers `q[k]`,
/// `p[j]`, `p[k]`, `q[j]`, and `q` is unchanged.
pub fn eliminate(p: &[i128], q: &mut [i128], j: usize) -> Result<(), Wide>
    requires lengths { length p.now ≡ length q.old }
    requires index { j < length p.now }
    requires pivot { pos 0 <ℤ number_at p.now j }
    requires p_in_range { (k : ℕ) → k < length p.now → InRange (number_at p.now k) }
    requires q_in_range { (k : ℕ) → k < length q.old → InRange (number_at q.old k) }
    ensures row { MatchResult result (λ _. IsEliminated p.now q.old j q.new) (λ w. IsRefused p.now q.old j q.new w) }
    ensures in_range { (k : ℕ) → k < length q.old → InRange (number_at q.new k) }
{
    let b = p[j];
    let d = q[j];
    if d == 0 {
        return Ok(());
    }
    match check(p, q, b, d, j) {
        Ok(()) => {}
        Err(first) => return Err(first),
    }
    cross(p, q, b, d, j);
    reduce(q);
    Ok(())
}

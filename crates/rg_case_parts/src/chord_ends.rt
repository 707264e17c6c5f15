//! The row of one chord.
ghost use Rattle.std.specs.Prelude.{◌≡◌, ◌↔◌, ◌<◌, ℤ, List, length, IsTrue, IfOk, if◌then◌else◌, pos, ◌+ℤ◌, ◌-ℤ◌, FitsSigned};
ghost use Rattle.std.proofs.Common.{ap};
ghost use Rattle.std.specs.Int.{w64};
ghost use Rattle.std.specs.Hash as fed;
ghost use Rattle.std.specs.Ordering.{int_eq};
ghost use Rattle.std.specs.Cmp.{on_per, on_equiv, partial_equiv_from_equiv, int_eq_equiv};
ghost use Rattle.std.specs.Cmp.Lexicographic.{pointwise, lists_per, lists_equiv};
ghost use Rattle.rg_linear.specs.Cycle.{IsZeroVector};
ghost use Rattle.rg_case_parts.specs.ChordRows.{entry_between, row_between, mixed, row_hash, rows_decide};

use std::alloc::{AllocError, Global};
use std::hash::{Hash, Hasher};

/// What the row of a chord is counted from: the Parikh vectors of its source and its target, and its label. Two are
/// equal if their rows are.
#[derive(Clone, Copy)]
pub struct ChordEnds<'a> {
    source: &'a [u32],
    target: &'a [u32],
    label: u32,
    pub ghost one_each: { length source.now ≡ length target.now },
}

impl<'a> ChordEnds<'a> {
    // The ends with these Parikh vectors.
    pub(crate) fn new(source: &'a [u32], target: &'a [u32], label: u32) -> ChordEnds<'a>
        requires { length source.now ≡ length target.now }
        ensures source { result.source.now ≡ source.now }
        ensures target { result.target.now ≡ target.now }
        ensures label { result.label ≡ label }
    {
        ChordEnds {
            source,
            target,
            label,
        }
    }

    // The number of label `t`: how often it occurs on the way to the source and on the chord, less how often it
    // occurs on the way to the target.
    fn number(self, t: usize) -> i64
        requires { t < length self.source.now }
        ensures value { result ≡ entry_between self.entry.source.now self.entry.target.now self.entry.label t }
        ensures fits { FitsSigned w64 result }
    {
        difference(self.source[t], t == self.label as usize, self.target[t])
    }

    // Whether each number is 0.
    pub(crate) fn is_zero(self) -> bool
        ensures { IsTrue result ↔ IsZeroVector (row_between self.entry.source.now self.entry.target.now self.entry.label) }
    {
        for t in 0..self.source.len() {
            if self.number(t) != 0 {
                return false;
            }
        }
        true
    }

    // The numbers.
    pub(crate) fn row(self, alloc: Global) -> Result<Vec<i128>, AllocError>
        ensures { IfOk result (λ v. v.items ≡ row_between self.entry.source.now self.entry.target.now self.entry.label) }
    {
        let mut numbers = Vec::with_capacity(alloc, self.source.len())?;
        for t in 0..self.source.len() {
            numbers.push(i128::from(self.number(t)))?;
        }
        Ok(numbers)
    }

    // The hash of the numbers.
    fn row_hash(self) -> u64
        ensures { result ≡ row_hash (row_between self.entry.source.now self.entry.target.now self.entry.label) }
    {
        let mut hash = 14695981039346656037;
        for t in 0..self.source.len() {
            hash = mix(hash, self.number(t));
        }
        hash
    }
}

impl PartialEq for ChordEnds<'_> {
    ghost eq = { λ a b. pointwise int_eq (row_between a.source.now a.target.now a.label) (row_between b.source.now b.target.now b.label) };

    ghost laws = { on_per (λ k. row_between k.source.now k.target.now k.label) (lists_per (partial_equiv_from_equiv int_eq_equiv)) };

    fn eq(&self, other: &Self) -> bool {
        if self.source.len() != other.source.len() {
            return false;
        }
        for t in 0..self.source.len() {
            if self.number(t) != other.number(t) {
                return false;
            }
        }
        true
    }
}

impl Eq for ChordEnds<'_> {
    ghost laws = { on_equiv (λ k. row_between k.source.now k.target.now k.label) (lists_equiv int_eq_equiv) };
}

impl Hash for ChordEnds<'_> {
    ghost hash_input = { λ k. fed.u64 (row_hash (row_between k.source.now k.target.now k.label)) };

    ghost respects_eq = { λ a b same. ap (λ row. fed.u64 (row_hash row)) ((rows_decide (row_between a.source.now a.target.now a.label) (row_between b.source.now b.target.now b.label)).0 same) };

    fn hash<H: Hasher>(&self, state: &mut H) {
        state.write_u64(self.row_hash());
    }
}

// The hash with one number more.
fn mix(hash: u64, number: i64) -> u64
    ensures { result ≡ mixed hash number }
{
    (hash ^ number.cast_unsigned()).wrapping_mul(1099511628211)
}

// The source's count, and one where the chord has the label, less the target's.
fn difference(source: u32, own: bool, target: u32) -> i64
    ensures value { result ≡ (pos source +ℤ (if own then pos 1 else pos 0)) -ℤ pos target }
    ensures fits { FitsSigned w64 result }
{
    i64::from(source) + i64::from(own) - i64::from(target)
}

//! Bases of the cycle equations.
ghost use Rattle.std.specs.Prelude.{◌≡◌, ◌↔◌, All, IsTrue, IfOk};
ghost use Rattle.rg_integers.specs.Range.{InRange};
ghost use Rattle.rg_linear.specs.Cycle.{IsCycleBasis};
ghost use Rattle.rg_cycles.specs.Vectors.{vectors_by, AreVectors};
ghost use Rattle.rg_cycles.specs.View.{labels_of, cycle_of};

use rg_cycles::{Basis, ChordEntry, Stop, reduce};
use std::alloc::Global;

/// Returns whether the numbers lie in range.
pub fn is_in_range(numbers: &[i128]) -> bool
    ensures { IsTrue result ↔ All InRange numbers.now }
{
    numbers
        .iter()
        .all(|z| z.unsigned_abs() <= i128::MAX.unsigned_abs())
}

// The same of the entries of a chord.
fn are_in_range<N: ChordEntry>(entries: &[N]) -> bool
    ensures { IsTrue result → All (λ z. InRange (N.number z)) entries.now }
{
    entries
        .iter()
        .all(|z| z.number().unsigned_abs() <= i128::MAX.unsigned_abs())
}

// Whether each chord has one entry in range for each label.
fn are_vectors<N: ChordEntry>(labels: u32, chords: &[Vec<N>]) -> bool
    ensures { IsTrue result → AreVectors labels (vectors_by N.numbers chords.now) }
{
    for chord in chords {
        if chord.len() != labels as usize || !are_in_range(chord) {
            return false;
        }
    }
    true
}

/// Returns the basis of these chords, as `reduce` gives it. Returns `NoMemory` also if there are more labels or
/// chords than a system has, or if a chord hasn't one entry in range for each label.
pub fn solved<N: ChordEntry>(alloc: Global, labels: u32, chords: &[Vec<N>]) -> Result<Basis, Stop>
    ensures labels { IfOk result (λ b. labels_of b ≡ labels) }
    ensures basis { IfOk result (λ b. IsCycleBasis labels (vectors_by N.numbers chords.now) (cycle_of b)) }
{
    if labels <= 256 && chords.len() <= 262144 && are_vectors(labels, chords) {
        reduce(alloc, labels, chords)
    } else {
        Err(Stop::NoMemory)
    }
}

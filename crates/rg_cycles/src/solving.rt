//! The walk over the chords.
ghost use Rattle.std.specs.Prelude.{◌≡◌, ◌↔◌, ℕ, ℤ, ◌+◌, ◌<◌, ◌≤◌, ◌^◌, length, Contains, IfOk, IsErrOf};
ghost use Rattle.rg_theory.specs.Limits.{most_labels, most_arcs};
ghost use Rattle.rg_linear.specs.Cycle.{IsCycleBasis, KeepsVectors, vector_system};
ghost use Rattle.rg_linear.specs.Dictionary.{numbers_from};
ghost use Rattle.rg_feasible.specs.Contents.{IsDictionary};
ghost use Rattle.rg_linear.specs.Descent.{WideAt};
ghost use Rattle.rg_cycles.specs.declared.stop.Stop.TheVariants as stop;
ghost use Rattle.rg_cycles.specs.declared.stop.CycleWide.{CycleWide};
ghost use Rattle.rg_cycles.specs.Vectors.{vectors_by, AreVectors, AllSumsAreZero};
ghost use Rattle.rg_cycles.specs.Solutions.{FollowsFree, RelationsHold, AreReduced};
ghost use Rattle.rg_cycles.specs.View.{labels_of, cycle_of};
ghost use Rattle.rg_cycles.specs.Refusal.{PassesAt, shown_term};

use crate::basis::Basis;
use crate::chord_entry::ChordEntry;
use crate::chord_rows::{ChordRows, ListedChords};
use crate::columns::walk_columns;
use crate::distinct::first_indices;
use crate::relations::Relations;
use crate::stop::Stop;
use crate::walk::walk;
use rg_feasible::RelationTable;
use rg_revised::RevisedWalk;
use std::alloc::{AllocError, Global};

/// Solves the equations that each chord has the value 0, over the effects of `labels` labels. A chord has one entry
/// for each label, which is not `i128::MIN`. The distinct chords that aren't 0 are taken in order; each whose
/// relation names a label is exchanged with the least such label. Labels that are left over are free.
///
/// Returns `Stop::Wide` exactly if a term on this walk is out of range, with the first such term, and
/// `Stop::NoMemory` if memory runs out.
pub fn reduce<N: ChordEntry>(alloc: Global, labels: u32, chords: &[Vec<N>]) -> Result<Basis, Stop>
    requires labels { labels ≤ most_labels }
    requires chords { length chords.now ≤ most_arcs }
    requires vectors { AreVectors labels (vectors_by N.numbers chords.now) }
    ensures labels { IfOk result (λ b. labels_of b ≡ labels) }
    ensures basis { IfOk result (λ b. IsCycleBasis labels (vectors_by N.numbers chords.now) (cycle_of b)) }
    ensures solutions { IfOk result (λ b. (v : ℕ → ℤ) → AllSumsAreZero labels (vectors_by N.numbers chords.now) v ↔ FollowsFree labels (cycle_of b) v) }
    ensures holds { IfOk result (λ b. RelationsHold labels (cycle_of b) (vectors_by N.numbers chords.now)) }
    ensures reduced { IfOk result (λ b. AreReduced labels (cycle_of b)) }
    ensures fits { IfOk result (λ _. (at : WideAt) → ¬ PassesAt labels (vectors_by N.numbers chords.now) at) }
    ensures wide { (w : CycleWide) → IsErrOf result (stop.Wide w) → PassesAt labels (vectors_by N.numbers chords.now) (shown_term w) }
{
    reduce_rows(alloc, labels, &ListedChords { vectors: chords })
}

/// Returns what `reduce` returns, for chords whose rows are listed only when they are read.
pub fn reduce_rows<R: ChordRows>(alloc: Global, labels: u32, rows: &R) -> Result<Basis, Stop>
    requires labels { labels ≤ most_labels }
    requires chords { length (R.rows rows.now) ≤ most_arcs }
    requires rows { AreVectors labels (R.rows rows.now) }
    ensures labels { IfOk result (λ b. labels_of b ≡ labels) }
    ensures basis { IfOk result (λ b. IsCycleBasis labels (R.rows rows.now) (cycle_of b)) }
    ensures solutions { IfOk result (λ b. (v : ℕ → ℤ) → AllSumsAreZero labels (R.rows rows.now) v ↔ FollowsFree labels (cycle_of b) v) }
    ensures holds { IfOk result (λ b. RelationsHold labels (cycle_of b) (R.rows rows.now)) }
    ensures reduced { IfOk result (λ b. AreReduced labels (cycle_of b)) }
    ensures fits { IfOk result (λ _. (at : WideAt) → ¬ PassesAt labels (R.rows rows.now) at) }
    ensures wide { (w : CycleWide) → IsErrOf result (stop.Wide w) → PassesAt labels (R.rows rows.now) (shown_term w) }
{
    let kept = first_indices(alloc, rows)?;
    let basis = basis_of(alloc, labels, rows, kept)?;
    Ok(basis)
}

// The basis of the rows, of which these are kept.
fn basis_of<R: ChordRows>(
    alloc: Global,
    labels: u32,
    rows: &R,
    kept: Vec<u32>,
) -> Result<Basis, Stop>
    requires few { labels + length kept.items < 2 ^ 32 }
    requires keeps { KeepsVectors (R.rows rows.now) kept.items }
    requires rows { AreVectors labels (R.rows rows.now) }
    ensures labels { IfOk result (λ b. labels_of b ≡ labels) }
    ensures basis { IfOk result (λ b. IsCycleBasis labels (R.rows rows.now) (cycle_of b)) }
    ensures wide { (w : CycleWide) → IsErrOf result (stop.Wide w) → PassesAt labels (R.rows rows.now) (shown_term w) }
{
    let mut columns = RevisedWalk::new(alloc, labels)?;
    if walk_columns(alloc, &mut columns, labels, rows, &kept)? {
        let basis = Basis::read(alloc, Relations::OfColumns(&columns), kept)?;
        return Ok(basis);
    }
    full_basis(alloc, labels, rows, kept)
}

// The same with a dictionary that has a row for each variable.
fn full_basis<R: ChordRows>(
    alloc: Global,
    labels: u32,
    rows: &R,
    kept: Vec<u32>,
) -> Result<Basis, Stop>
    requires few { labels + length kept.items < 2 ^ 32 }
    requires keeps { KeepsVectors (R.rows rows.now) kept.items }
    requires rows { AreVectors labels (R.rows rows.now) }
    ensures labels { IfOk result (λ b. labels_of b ≡ labels) }
    ensures basis { IfOk result (λ b. IsCycleBasis labels (R.rows rows.now) (cycle_of b)) }
    ensures wide { (w : CycleWide) → IsErrOf result (stop.Wide w) → PassesAt labels (R.rows rows.now) (shown_term w) }
{
    let mut dictionary = fill(alloc, labels, rows, &kept)?;
    walk(alloc, &mut dictionary)?;
    let basis = Basis::read(alloc, Relations::OfAll(&dictionary), kept)?;
    Ok(basis)
}

// The dictionary of the rows that are kept, over so many columns.
fn fill<R: ChordRows>(
    alloc: Global,
    labels: u32,
    rows: &R,
    kept: &[u32],
) -> Result<RelationTable, AllocError>
    requires few { labels + length kept.now < 2 ^ 32 }
    requires kept { (c : ℕ) → Contains kept.now c → c < length (R.rows rows.now) }
    requires rows { AreVectors labels (R.rows rows.now) }
    ensures whole { IfOk result (IsDictionary (vector_system labels (R.rows rows.now) kept.now)) }
    ensures start { IfOk result (λ d. d.members ≡ numbers_from 0 d.columns) }
{
    let mut dictionary = RelationTable::with_columns(alloc, labels, kept.len() as u32)?;
    for &index in kept {
        let row = rows.row(alloc, index as usize)?;
        dictionary.push_row(&row, 0);
    }
    Ok(dictionary)
}

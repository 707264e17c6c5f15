//! The walk with the relations of the labels alone.
ghost use Rattle.std.specs.Prelude.{◌≡◌, ℕ, ◌+◌, ◌<◌, ◌^◌, length, Contains, IsTrue, IfOk};
ghost use Rattle.rg_linear.specs.Cycle.{CycleOutcome, CycleWalk, vector_system};
ghost use Rattle.rg_revised.specs.Basis.{HasNorms};
ghost use Rattle.rg_revised.specs.Walk.{IsWalkOf};
ghost use Rattle.rg_cycles.specs.Vectors.{AreVectors};

use crate::chord_rows::ChordRows;
use rg_linear::norm;
use rg_revised::{RevisedWalk, Taken};
use std::alloc::{AllocError, Global};

// The greatest norm of the rows that are kept, `u64::MAX` where that passes.
fn greatest_norm<R: ChordRows>(alloc: Global, rows: &R, kept: &[u32]) -> Result<u64, AllocError>
    requires kept { (c : ℕ) → Contains kept.now c → c < length (R.rows rows.now) }
    ensures { IfOk result (λ n. (labels : ℕ) → n < 2 ^ 63 → HasNorms (vector_system labels (R.rows rows.now) kept.now) n) }
{
    let mut greatest = 0u64;
    for &index in kept {
        let row = rows.row(alloc, index as usize)?;
        greatest = greatest.max(norm(&row, 0));
    }
    Ok(greatest)
}

// Takes the rows that are kept, in order; see `reduce`. False where a number is too large for 64 bits.
pub(crate) fn walk_columns<R: ChordRows>(
    alloc: Global,
    walk: &mut RevisedWalk,
    labels: u32,
    rows: &R,
    kept: &[u32],
) -> Result<bool, AllocError>
    requires columns { walk.old.columns ≡ labels }
    requires few { labels + length kept.now < 2 ^ 32 }
    requires kept { (c : ℕ) → Contains kept.now c → c < length (R.rows rows.now) }
    requires rows { AreVectors labels (R.rows rows.now) }
    ensures are { IfOk result (λ walked. IsTrue walked → IsWalkOf (vector_system labels (R.rows rows.now) kept.now) walk.new) }
    ensures ends { IfOk result (λ walked. IsTrue walked → CycleWalk (vector_system labels (R.rows rows.now) kept.now) (CycleOutcome.free_set walk.new.members)) }
    ensures columns { walk.new.columns ≡ labels }
{
    let norm = greatest_norm(alloc, rows, kept)?;
    if !walk.start(norm) {
        return Ok(false);
    }
    for i in 0..kept.len() {
        let row = rows.row(alloc, kept[i] as usize)?;
        let taken = walk.take(&row, i as u32);
        if let Taken::Large = taken {
            return Ok(false);
        }
    }
    Ok(true)
}

//! The distinct rows that aren't 0.
ghost use Rattle.std.specs.Prelude.{◌<◌, ◌^◌, length, IfOk};
ghost use Rattle.rg_linear.specs.Cycle.{KeepsVectors};

use crate::chord_rows::ChordRows;
use std::alloc::{AllocError, Global};
use std::collections::HashSet;

// The indices of the rows that aren't 0, each at its first index.
pub(crate) fn first_indices<R: ChordRows>(alloc: Global, rows: &R) -> Result<Vec<u32>, AllocError>
    requires { length (R.rows rows.now) < 2 ^ 32 }
    ensures { IfOk result (λ kept. KeepsVectors (R.rows rows.now) kept.items) }
{
    let mut seen = HashSet::new(alloc);
    let mut kept = Vec::new(alloc);
    for i in 0..rows.count() {
        if rows.is_zero(i) {
            continue;
        }
        let is_new = seen.insert(rows.key(i))?;
        if is_new {
            kept.push(i as u32)?;
        }
    }
    Ok(kept)
}

//! The states with an arc of a label.
ghost use Rattle.std.specs.Prelude.{◌≡◌, IfOk};
ghost use Rattle.rg_case_folds.specs.Rewriting.{states_with};

use rg_lts::Lts;
use std::alloc::{AllocError, Global};

/// Returns the states with an arc of label `t`, in order, by one pass over all arcs, which are in the order of the
/// states that they leave. Returns `AllocError` if memory runs out.
pub fn states_with(alloc: Global, lts: &Lts, t: u32) -> Result<Vec<u32>, AllocError>
    ensures { IfOk result (λ found. found.items ≡ states_with lts.now t) }
{
    let mut found = Vec::new(alloc);
    let mut next = 0;
    for a in lts.arcs() {
        if a.label == t && next <= a.from {
            found.push(a.from)?;
            next = a.from + 1;
        }
    }
    Ok(found)
}

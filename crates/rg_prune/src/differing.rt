//! Whether two lists together give the states different numbers.
ghost use Rattle.std.specs.Prelude.{◌≡◌, length, false, IsTrue, IfOk};
ghost use Rattle.rg_prune.specs.Differing.{AllDiffer, SomeAgree};

use indexmap::IndexSet;
use std::alloc::{AllocError, Global};

// Whether each two states have different cells by one of the two lists.
pub(crate) fn all_differ(alloc: Global, a: &[u32], b: &[u32]) -> Result<bool, AllocError>
    requires { length a.now ≡ length b.now }
    ensures yes { IfOk result (λ r. IsTrue r → AllDiffer a.now b.now) }
    ensures no { IfOk result (λ r. r ≡ false → SomeAgree a.now b.now) }
{
    let mut seen = IndexSet::new(alloc);
    for s in 0..a.len() {
        if !seen.insert((a[s], b[s]))? {
            return Ok(false);
        }
    }
    Ok(true)
}

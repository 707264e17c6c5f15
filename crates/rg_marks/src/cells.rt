//! Cells of states that places don't distinguish.
ghost use Rattle.std.specs.Prelude.{◌≡◌, ◌≢◌, ◌↔◌, ℕ, ◌<◌, length, IsTrue, IfOk, IfSome, IfNone, slice_index};
ghost use Rattle.rg_marks.specs.Cells.{AreSingle, AreRefined};

use indexmap::IndexSet;
use std::alloc::{AllocError, Global};

// The cells after the tokens of one more place, where they aren't the same: they are finer.
pub(crate) fn finer(
    alloc: Global,
    cells: &[u32],
    tokens: &[u128],
) -> Result<Option<Vec<u32>>, AllocError>
    requires same { length cells.now ≡ length tokens.now }
    requires few { length cells.now < 4294967296 }
    ensures after { IfOk result (λ after. IfSome after (λ numbers. AreRefined cells.now tokens.now numbers.items × (numbers.items ≢ cells.now))) }
    ensures stay { IfOk result (λ after. IfNone after (AreRefined cells.now tokens.now cells.now)) }
{
    if are_same_within(cells, tokens) {
        return Ok(None);
    }
    let refined = refine_cells(alloc, cells, tokens)?;
    if refined.as_slice() == cells {
        return Ok(None);
    }
    Ok(Some(refined))
}

// Whether each state has as many tokens as the state by which its cell is numbered. The answer may be no where a
// number isn't that of a state of the cell.
fn are_same_within(cells: &[u32], tokens: &[u128]) -> bool
    requires { length cells.now ≡ length tokens.now }
    ensures { IsTrue result → AreRefined cells.now tokens.now cells.now }
{
    for s in 0..cells.len() {
        let first = cells[s] as usize;
        if first != s && (first >= tokens.len() || tokens[first] != tokens[s]) {
            return false;
        }
    }
    true
}

// Whether each state has its own number.
pub(crate) fn are_single(cells: &[u32]) -> bool
    ensures { IsTrue result ↔ AreSingle cells.now }
{
    for s in 0..cells.len() {
        if cells[s] as usize != s {
            return false;
        }
    }
    true
}

// The cells after the tokens of one more place: each is numbered by the first of its states.
fn refine_cells(alloc: Global, cells: &[u32], tokens: &[u128]) -> Result<Vec<u32>, AllocError>
    requires same { length cells.now ≡ length tokens.now }
    requires few { length cells.now < 4294967296 }
    ensures { IfOk result (λ refined. AreRefined cells.now tokens.now refined.items) }
{
    let mut seen = IndexSet::new(alloc);
    let mut firsts = Vec::new(alloc);
    let mut refined = Vec::with_capacity(alloc, cells.len())?;
    for s in 0..cells.len() {
        let (number, _) = seen.insert_full((cells[s], tokens[s]))?;
        if number == firsts.len() {
            firsts.push(s as u32)?;
        }
        refined.push(firsts[number])?;
    }
    Ok(refined)
}

//! Firings of a label by the list of its places.
ghost use Rattle.std.specs.Prelude.{◌≡◌, ◌↔◌, ℕ, ◌<◌, ◌≤◌, length, All, IsTrue, IfOk, IsErrOf, slice_index};
ghost use Rattle.rg_integers.specs.Range.{greatest};
ghost use Rattle.rg_net.specs.declared.firing.FireStop.TheVariants as stop;
ghost use Rattle.rg_net_verdict.specs.Flows.{AreListed, HasTokens, IsMoved, IsFirstOver, left_by};

use crate::flow::Flow;
use rg_integers::GREATEST;
use rg_net::FireStop;
use std::alloc::Global;

// Whether each place of the list has the tokens that the label takes. It stops at the first that lacks some.
pub(crate) fn allows(flow: &[Flow], row: &[u128]) -> bool
    requires { All (λ f. f.place < length row.now) flow.now }
    ensures { IsTrue result ↔ HasTokens flow.now row.now }
{
    for f in flow {
        if row[f.place as usize] < f.pre {
            return false;
        }
    }
    true
}

// The row after the firing.
pub(crate) fn row_after(alloc: Global, flow: &[Flow], row: &[u128]) -> Result<Vec<u128>, FireStop>
    requires listed { AreListed flow.now (length row.now) }
    requires tokens { HasTokens flow.now row.now }
    requires in_range { All (λ n. n ≤ greatest) row.now }
    ensures moved { IfOk result (λ after. IsMoved flow.now row.now after.items) }
    ensures in_range { IfOk result (λ after. All (λ n. n ≤ greatest) after.items) }
    ensures passes { (p : ℕ) → IsErrOf result (stop.Passes p) → IsFirstOver flow.now row.now p }
{
    let mut after = Vec::from_slice(alloc, row)?;
    for f in flow {
        let tokens = tokens_after(f, row);
        if tokens > GREATEST as u128 {
            return Err(FireStop::Passes(f.place));
        }
        after[f.place as usize] = tokens;
    }
    Ok(after)
}

// Whether the label is enabled at one row and its firing leads to the other. Each place is looked at once.
pub(crate) fn leads(flow: &[Flow], from: &[u128], to: &[u128]) -> bool
    requires listed { AreListed flow.now (length from.now) }
    requires long { length to.now ≡ length from.now }
    requires in_range { All (λ n. n ≤ greatest) from.now }
    ensures { IsTrue result ↔ (HasTokens flow.now from.now × IsMoved flow.now from.now to.now) }
{
    let mut start = 0;
    for f in flow {
        let place = f.place as usize;
        if !are_same(from, to, start, place) {
            return false;
        }
        if from[place] < f.pre {
            return false;
        }
        if to[place] != tokens_after(f, from) {
            return false;
        }
        start = place + 1;
    }
    are_same(from, to, start, from.len())
}

// Whether the rows are the same from one place up to another.
fn are_same(from: &[u128], to: &[u128], start: usize, end: usize) -> bool
    requires order { start ≤ end }
    requires from { end ≤ length from.now }
    requires to { end ≤ length to.now }
    ensures { IsTrue result ↔ ((i : ℕ) → start ≤ i → i < end → slice_index to.now i ≡ slice_index from.now i) }
{
    &from[start..end] == &to[start..end]
}

// What a firing leaves on a place of the list.
fn tokens_after(f: &Flow, row: &[u128]) -> u128
    requires place { f.now.place < length row.now }
    requires enough { f.now.pre ≤ slice_index row.now f.now.place }
    requires tokens { slice_index row.now f.now.place ≤ greatest }
    requires post { f.now.post ≤ greatest }
    ensures { result ≡ left_by row.now f.now }
{
    row[f.place as usize] - f.pre + f.post
}

//! Which labels are stopped at which states.
ghost use Rattle.std.specs.Prelude.{◌≡◌, ◌↔◌, ◌⊎◌, ℕ, ◌<◌, true, false, [], length, replicate, Contains, IfOk, OnOk, slice_index, slice_index_or};
ghost use Rattle.rg_theory.specs.System.{states, labels};
ghost use Rattle.rg_net.specs.Shown.{shown_place};
ghost use Rattle.rg_marks.specs.Stops.{rows_in, mark_at, IsTable, MarksStops, IsStoppedBy};

use rg_lts::Lts;
use rg_net::Place;
use std::alloc::{AllocError, Global};

// A table without marks.
pub(crate) fn no_marks(alloc: Global, lts: &Lts) -> Result<Vec<Vec<bool>>, AllocError>
    ensures { IfOk result (λ rows. MarksStops lts.now [] (rows_in rows.items)) }
{
    let mut rows = Vec::new(alloc);
    for _ in 0..lts.labels() {
        rows.push(empty_row(alloc, lts.states())?)?;
    }
    Ok(rows)
}

// So many states without marks.
fn empty_row(alloc: Global, states: u32) -> Result<Vec<bool>, AllocError>
    ensures { IfOk result (λ row. row.items ≡ replicate states false) }
{
    vec![in alloc; false; states as usize]
}

// The states and labels that the place stops and that aren't marked.
pub(crate) fn new_stops(
    alloc: Global,
    lts: &Lts,
    rows: &[Vec<bool>],
    place: &Place,
    tokens: &[u128],
) -> Result<Vec<(u32, u32)>, AllocError>
    requires table { IsTable lts.now (rows_in rows.now) }
    requires weights { length place.now.pre.items ≡ labels lts.now }
    requires tokens { length tokens.now ≡ states lts.now }
    ensures within { IfOk result (λ events. (s t : ℕ) → Contains events.items (record { 0 = s; 1 = t }) → (s < states lts.now) × (t < labels lts.now)) }
    ensures events { IfOk result (λ events. (s t : ℕ) → s < states lts.now → t < labels lts.now → Contains events.items (record { 0 = s; 1 = t }) ↔ (IsStoppedBy (shown_place place.now) tokens.now s t × (mark_at (rows_in rows.now) s t ≡ false))) }
{
    let mut events = Vec::new(alloc);
    for t in 0..lts.labels() {
        let weight = place.pre[t as usize];
        if weight > 0 {
            push_new(&rows[t as usize], tokens, weight, t, &mut events)?;
        }
    }
    Ok(events)
}

// Adds the states that aren't marked and have fewer tokens than the weight, each with the label.
#[inline(never)]
fn push_new(
    row: &[bool],
    tokens: &[u128],
    weight: u128,
    t: u32,
    events: &mut Vec<(u32, u32)>,
) -> Result<(), AllocError>
    requires same { length row.now ≡ length tokens.now }
    requires few { length tokens.now < 4294967296 }
    ensures { OnOk result ((s u : ℕ) → Contains events.new.items (record { 0 = s; 1 = u }) ↔ (Contains events.old.items (record { 0 = s; 1 = u }) ⊎ ((u ≡ t) × (s < length tokens.now) × (slice_index tokens.now s < weight) × (slice_index_or row.now s false ≡ false)))) }
{
    for s in 0..row.len() {
        if tokens[s] < weight && !row[s] {
            events.push((s as u32, t))?;
        }
    }
    Ok(())
}

// Marks each of the labels at its state.
pub(crate) fn mark(lts: &Lts, rows: &mut [Vec<bool>], events: &[(u32, u32)])
    requires table { IsTable lts.now (rows_in rows.old) }
    requires within { (s t : ℕ) → Contains events.now (record { 0 = s; 1 = t }) → (s < states lts.now) × (t < labels lts.now) }
    ensures table { IsTable lts.now (rows_in rows.new) }
    ensures marks { (s t : ℕ) → s < states lts.now → t < labels lts.now → (mark_at (rows_in rows.new) s t ≡ true) ↔ ((mark_at (rows_in rows.old) s t ≡ true) ⊎ Contains events.now (record { 0 = s; 1 = t })) }
{
    for &(s, t) in events {
        rows[t as usize][s as usize] = true;
    }
}

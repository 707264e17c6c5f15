//! Comparing two systems.
ghost use Rattle.std.specs.Prelude.{◌≡◌, ◌↔◌, ◌<◌, ◌+◌, ℕ, length, slice_index, IfOk, IfSome, IfNone, OnOk};
ghost use Rattle.rg_theory.specs.System.{labels};
ghost use Rattle.rg_checks.specs.Flaws.{IsFlawless};
ghost use Rattle.rg_iso.specs.Isomorphic.{HaveSameLabels, HaveOneName, AreIsomorphic};
ghost use Rattle.rg_iso.specs.Compared.{AreComparable, told_of, Compares, IsTold, IsMap};
ghost use Rattle.rg_iso.specs.Pairing.{pairs_in, IsFollowedTo};

use crate::labels::{first_alone, namesakes};
use crate::pairing::{Pairing, become_pair, first_pair, map_of};
use crate::same::Same;
use rg_lts::Lts;
use rg_memory::NoMemory;
use std::alloc::Global;

/// Returns whether two systems are isomorphic, of which all states can be reached and no label leads from a state to
/// two. The map where they are; else the first label that one alone has, those of the first system first; else the
/// first difference that a breadth first walk over pairs of states meets, which begins with the initial states and
/// takes the labels of a pair in the first system's order. Each difference shows that no map exists. Returns
/// `NoMemory` if the pairs that are met don't fit into memory.
pub fn compare(alloc: Global, a: &Lts, b: &Lts) -> Result<Same, NoMemory>
    requires first { IsFlawless a.now }
    requires second { IsFlawless b.now }
    ensures told { IfOk result (λ same. Compares a.now b.now (told_of same)) }
    ensures map { IfOk result (λ same. IsMap (told_of same) ↔ AreIsomorphic a.now b.now) }
{
    a.is_well_formed();
    b.is_well_formed();
    if let Some(t) = first_alone(a, b) {
        return Ok(Same::Label(1, t));
    }
    if let Some(t) = first_alone(b, a) {
        return Ok(Same::Label(2, t));
    }
    let numbers = namesakes(alloc, a, b)?;
    walk(alloc, a, b, &numbers)
}

// The same of systems with the same label names, of which the first one's have these numbers in the second.
fn walk(alloc: Global, a: &Lts, b: &Lts, numbers: &[u32]) -> Result<Same, NoMemory>
    requires comparable { AreComparable a.now b.now }
    requires labels { HaveSameLabels a.now b.now }
    requires long { length numbers.now ≡ labels a.now }
    requires each { (t : ℕ) → t < labels a.now → HaveOneName a.now b.now t (slice_index numbers.now t) }
    ensures { IfOk result (λ same. Compares a.now b.now (told_of same)) }
{
    let mut pairing = first_pair(alloc, a, b)?;
    let mut index = 0;
    while index < pairing.order.len() {
        if let Some(difference) = follow(a, b, numbers, &mut pairing, index)? {
            return Ok(difference);
        }
        index += 1;
    }
    Ok(Same::Map(map_of(alloc, &pairing.partners)?))
}

// The first difference at a pair; or all labels lead on from it to pairs.
fn follow(
    a: &Lts,
    b: &Lts,
    numbers: &[u32],
    pairing: &mut Pairing,
    index: usize,
) -> Result<Option<Same>, NoMemory>
    requires comparable { AreComparable a.now b.now }
    requires long { length numbers.now ≡ labels a.now }
    requires each { (t : ℕ) → t < labels a.now → HaveOneName a.now b.now t (slice_index numbers.now t) }
    requires within { index < length pairing.old.order.items }
    requires followed { IsFollowedTo a.now b.now (pairs_in pairing.old) index 0 }
    ensures found { IfOk result (λ o. IfSome o (IsTold a.now b.now)) }
    ensures none { IfOk result (λ o. IfNone o (IsFollowedTo a.now b.now (pairs_in pairing.new) (index + 1) 0)) }
{
    for t in 0..a.labels() {
        if let Some(difference) = lead_on(a, b, pairing, index, t, numbers[t as usize])? {
            return Ok(Some(difference));
        }
    }
    Ok(None)
}

// What is different at a pair by a label, which has number `t` in the first system and `u` in the second; or it leads
// on to a pair.
fn lead_on(
    a: &Lts,
    b: &Lts,
    pairing: &mut Pairing,
    index: usize,
    t: u32,
    u: u32,
) -> Result<Option<Same>, NoMemory>
    requires comparable { AreComparable a.now b.now }
    requires name { HaveOneName a.now b.now t u }
    requires within { index < length pairing.old.order.items }
    requires followed { IsFollowedTo a.now b.now (pairs_in pairing.old) index t }
    ensures found { IfOk result (λ o. IfSome o (IsTold a.now b.now)) }
    ensures none { IfOk result (λ o. IfNone o (IsFollowedTo a.now b.now (pairs_in pairing.new) index (t + 1))) }
    ensures within { OnOk result (index < length pairing.new.order.items) }
{
    let (s, q) = pairing.order[index];
    match (a.arc_at(s, t), b.arc_at(q, u)) {
        (None, None) => Ok(None),
        (Some(_), None) => Ok(Some(Same::Step(1, s, t))),
        (None, Some(_)) => Ok(Some(Same::Step(2, q, u))),
        (Some(to), Some(other)) => {
            if become_pair(pairing, to, other)? {
                Ok(None)
            } else {
                Ok(Some(Same::Target(s, t)))
            }
        }
    }
}

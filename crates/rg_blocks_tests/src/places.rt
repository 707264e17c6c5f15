//! Places that no arc changes, so that each stops a label at every state or at none.
ghost use Rattle.std.specs.Prelude.{◌≡◌, ◌↔◌, ℕ, ◌<◌, ◌≤◌, All, Any, map, length, slice_index, IfOk, IsTrue};
ghost use Rattle.rg_theory.specs.System.{IsAllReachable};
ghost use Rattle.rg_net.specs.Shown.{shown_place};
ghost use Rattle.rg_blocks_tests.specs.Constant.{HasDead, IsConstant, RegionStops, RegionIsConstant, HasNoToken};

use rg_blocks::{Keeping, NoMemory};
use rg_lts::Lts;
use rg_marks::{CompactPlace, RegionPlace};
use rg_net::Place;
use rg_theory::Problem;
use std::alloc::Global;

// Whether the system has so many labels at least, and the first ones have no arc.
pub(crate) fn has_dead(lts: &Lts, labels: usize) -> bool
    ensures { IsTrue result → HasDead labels lts.now }
{
    for arc in lts.arcs() {
        if (arc.label as usize) < labels {
            return false;
        }
    }
    labels <= lts.labels() as usize
}

// A weight for each label: one for `t`, one for the other label if it is among the first ones, and none for the
// others.
fn weights(
    alloc: Global,
    labels: usize,
    first: usize,
    t: usize,
    other: usize,
) -> Result<Vec<u128>, NoMemory>
    requires label { t < first }
    requires few { first ≤ labels }
    ensures long { IfOk result (λ v. length v.items ≡ labels) }
    ensures one { IfOk result (λ v. slice_index v.items t ≡ 1) }
    ensures none { IfOk result (λ v. (u : ℕ) → first ≤ u → slice_index v.items u ≡ 0) }
{
    let mut weights = vec![in alloc; 0u128; labels]?;
    if other < first {
        weights[other] = 1;
    }
    weights[t] = 1;
    Ok(weights)
}

// The place without tokens that takes one with label `t`, and one with the other label if it is among the first ones,
// which have no arc.
pub(crate) fn stopping(
    alloc: Global,
    lts: &Lts,
    first: usize,
    t: u32,
    other: u32,
) -> Result<RegionPlace, NoMemory>
    requires dead { HasDead first lts.now }
    requires label { t < first }
    ensures stops { IfOk result (RegionStops t) }
    ensures empty { IfOk result (HasNoToken lts.now) }
{
    let labels = lts.labels() as usize;
    let pre = weights(alloc, labels, first, t as usize, other as usize)?;
    let post = vec![in alloc; 0u128; labels]?;
    let tokens = vec![in alloc; 0u128; lts.states() as usize]?;
    let place = Place {
        start: 0,
        pre,
        post,
    };
    Ok(RegionPlace { place, tokens })
}

// Places in a list, each of which is asked. Their tokens aren't read.
#[derive(Drop)]
pub(crate) struct Places {
    pub(crate) alloc: Global,
    pub(crate) kept: Vec<RegionPlace>,
}

// Whether the place stops label `t`.
fn stops(place: &RegionPlace, t: u32) -> bool
    ensures { IsTrue result ↔ RegionStops t place.now }
{
    match place.place.pre.get(t as usize) {
        Some(&weight) => place.place.start < weight,
        None => false,
    }
}

// Whether one of the places stops label `t`.
fn is_stopped(kept: &[RegionPlace], t: u32) -> bool
    ensures { IsTrue result ↔ Any (RegionStops t) kept.now }
{
    for place in kept {
        if stops(place, t) {
            return true;
        }
    }
    false
}

impl Keeping for Places {
    ghost places = { λ k. map (λ r. shown_place r.place) k.kept.items };

    ghost keeps_for = { λ k lts. IsAllReachable lts × All (RegionIsConstant lts) k.kept.items };

    ghost may_keep = { λ lts r. RegionIsConstant lts r };

    ghost may_keep_compact = { IsConstant };

    fn separates(&self, _lts: &Lts, problem: Problem) -> bool {
        match problem {
            Problem::Event(_, t) => is_stopped(&self.kept, t),
            Problem::States(_, _) => false,
        }
    }

    fn are_all_apart(&self, lts: &Lts) -> bool {
        lts.states() < 2
    }

    fn keep(&mut self, _lts: &Lts, place: RegionPlace) -> Result<(), NoMemory> {
        Ok(self.kept.push(place)?)
    }

    fn keep_compact(&mut self, _lts: &Lts, place: CompactPlace) -> Result<(), NoMemory> {
        let place = place.place(self.alloc)?;
        let tokens = Vec::new(self.alloc);
        Ok(self.kept.push(RegionPlace { place, tokens })?)
    }
}

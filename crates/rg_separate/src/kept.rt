//! Places that are kept.
ghost use Rattle.std.specs.Prelude.{◌≡◌, ◌++◌, ◌∷◌, [], All, IfOk, OnOk};
ghost use Rattle.rg_theory.specs.System.{IsInRange, IsAllReachable};
ghost use Rattle.rg_theory.specs.Tree.{IsTree};
ghost use Rattle.rg_net.specs.Shown.{shown_place};
ghost use Rattle.rg_separate.specs.Keeping.{IsKept, MayKeep, IsKeeping};

use rg_blocks::Keeping;
use rg_lts::Lts;
use rg_marks::{CompactPlace, Firsts, RegionPlace, Separated, fill_tokens, no_tokens};
use rg_memory::NoMemory;
use rg_net::Place;
use rg_theory::{Arc, Problem};
use std::alloc::Global;

// Places of a system that are kept, for each the problems that it is the first to separate, and what they separate.
// Their tokens are let go. Those of a place that comes without them are written into `tokens`, along the arcs of a
// spanning tree of the system.
#[derive(Drop)]
pub(crate) struct Kept<'a> {
    alloc: Global,
    tree: &'a [Arc],
    tokens: Vec<u128>,
    pub(crate) places: Vec<CompactPlace>,
    pub(crate) firsts: Vec<Firsts>,
    separated: Separated,
}

impl<'a> Kept<'a> {
    // No place, and nothing that any separates.
    fn nothing(alloc: Global, lts: &Lts, tree: &'a [Arc]) -> Result<Kept<'a>, NoMemory>
        requires reachable { IsAllReachable lts.now }
        requires tree { IsTree lts.now tree.now }
        ensures none { IfOk result (λ k. k.places.items ≡ []) }
        ensures keeping { IfOk result (IsKeeping lts.now) }
    {
        Ok(Kept {
            alloc,
            tree,
            tokens: no_tokens(alloc, lts)?,
            places: Vec::new(alloc),
            firsts: Vec::new(alloc),
            separated: Separated::nothing(alloc, lts)?,
        })
    }

    // These places, which are regions.
    pub(crate) fn known(
        alloc: Global,
        lts: &Lts,
        tree: &'a [Arc],
        places: &[CompactPlace],
    ) -> Result<Kept<'a>, NoMemory>
        requires reachable { IsAllReachable lts.now }
        requires tree { IsTree lts.now tree.now }
        requires places { All (IsKept lts.now) places.now }
        ensures places { IfOk result (λ k. k.places.items ≡ places.now) }
        ensures keeping { IfOk result (IsKeeping lts.now) }
    {
        lts.is_well_formed();
        let mut kept = Kept::nothing(alloc, lts, tree)?;
        for place in places {
            let place = place.place(alloc)?;
            let compact = CompactPlace::new(alloc, &place)?;
            kept.add(lts, &place, compact)?;
        }
        Ok(kept)
    }

    // Keeps one more place, given in both forms, after the others. Its tokens are written anew.
    fn add(&mut self, lts: &Lts, place: &Place, compact: CompactPlace) -> Result<(), NoMemory>
        requires keeping { IsKeeping lts.now self.old }
        requires place { IsKept lts.now (shown_place place.now) }
        requires compact { compact ≡ shown_place place.now }
        ensures keeping { OnOk result (IsKeeping lts.now self.new) }
        ensures places { OnOk result (self.new.places.items ≡ self.old.places.items ++ compact ∷ []) }
    {
        fill_tokens(lts, self.tree, place, &mut self.tokens);
        let firsts = self.separated.add(self.alloc, lts, place, &self.tokens)?;
        self.firsts.push(firsts)?;
        self.places.push(compact)?;
        Ok(())
    }
}

impl Keeping for Kept<'_> {
    ghost places = { λ k. k.places.items };

    ghost keeps_for = { λ k lts. IsKeeping lts k };

    ghost may_keep = { MayKeep };

    ghost may_keep_compact = { IsKept };

    fn separates(&self, lts: &Lts, problem: Problem) -> bool {
        self.separated.separates(lts, problem)
    }

    fn are_all_apart(&self, _lts: &Lts) -> bool {
        self.separated.are_all_apart()
    }

    fn keep(&mut self, lts: &Lts, place: RegionPlace) -> Result<(), NoMemory> {
        let firsts = self
            .separated
            .add(self.alloc, lts, &place.place, &place.tokens)?;
        lts.is_well_formed();
        let compact = CompactPlace::new(self.alloc, &place.place)?;
        self.firsts.push(firsts)?;
        self.places.push(compact)?;
        Ok(())
    }

    fn keep_compact(&mut self, lts: &Lts, place: CompactPlace) -> Result<(), NoMemory> {
        let all_weights = place.place(self.alloc)?;
        self.add(lts, &all_weights, place)
    }
}

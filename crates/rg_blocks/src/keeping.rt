//! What is kept of the places.
ghost use Rattle.std.specs.Prelude.{◌≡◌, ◌↔◌, ◌++◌, ◌∷◌, [], List, IsTrue, OnOk};
ghost use Rattle.rg_theory.specs.System.{System};
ghost use Rattle.rg_theory.specs.Net.{Place};
ghost use Rattle.rg_theory.specs.Problem.{IsProblem};
ghost use Rattle.rg_net.specs.Shown.{shown_place};
ghost use Rattle.rg_marks.specs.Cells.{AreAllApart};
ghost use Rattle.rg_marks.specs.declared.region_place.RegionPlace.{RegionPlace};
ghost use Rattle.rg_outcome.specs.Coming.{IsSeparated};

use rg_lts::Lts;
use rg_marks::{CompactPlace, RegionPlace};
use rg_memory::NoMemory;
use rg_theory::Problem;

/// Places of a system that are kept, in the order in which they were made.
pub trait Keeping {
    /// The places, in order.
    ghost places: { Self → List Place };

    /// They are kept for this system.
    ghost keeps_for: { Self → System → Type 0 };

    /// What is asked of a place that is kept.
    ghost may_keep: { System → RegionPlace → Type 0 };

    /// What is asked of a place that is kept without its tokens.
    ghost may_keep_compact: { System → Place → Type 0 };

    /// Returns whether one of the places separates the problem of the system.
    fn separates(&self, lts: &Lts, problem: Problem) -> bool
        requires system { keeps_for self.now lts.now }
        requires problem { IsProblem lts.now problem }
        ensures { IsTrue result ↔ IsSeparated lts.now (places self.now) problem };

    /// Returns whether the places separate all state problems of the system.
    fn are_all_apart(&self, lts: &Lts) -> bool
        requires system { keeps_for self.now lts.now }
        ensures { IsTrue result ↔ AreAllApart lts.now (places self.now) };

    /// Keeps one more place, after the others. Returns `NoMemory` if memory runs out.
    fn keep(&mut self, lts: &Lts, place: RegionPlace) -> Result<(), NoMemory>
        requires system { keeps_for self.old lts.now }
        requires place { may_keep lts.now place }
        ensures system { OnOk result (keeps_for self.new lts.now) }
        ensures places { OnOk result (places self.new ≡ places self.old ++ shown_place place.place ∷ []) };

    /// Keeps one more place, of which only the weights that aren't 0 are given, after the others. Returns `NoMemory`
    /// if memory runs out.
    fn keep_compact(&mut self, lts: &Lts, place: CompactPlace) -> Result<(), NoMemory>
        requires system { keeps_for self.old lts.now }
        requires place { may_keep_compact lts.now place }
        ensures system { OnOk result (keeps_for self.new lts.now) }
        ensures places { OnOk result (places self.new ≡ places self.old ++ place ∷ []) };
}

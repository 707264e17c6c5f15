//! What some places separate, and what one more does.
ghost use Rattle.std.specs.Prelude.{◌≡◌, ◌≢◌, ◌↔◌, List, [], Any, IsTrue, IfOk, OnOk, OnErr, IfSome, IfNone};
ghost use Rattle.rg_theory.specs.System.{System};
ghost use Rattle.rg_theory.specs.Net.{Place as PlaceOfTheory};
ghost use Rattle.rg_theory.specs.Problem.{IsProblem, IsSeparatedBy};
ghost use Rattle.rg_net.specs.Shown.{shown_place};
ghost use Rattle.rg_marks.specs.Tokens.{IsNarrow, AreTokens};
ghost use Rattle.rg_marks.specs.Firsts.{AreFirsts};
ghost use Rattle.rg_marks.specs.Cells.{AreAllApart};
ghost use Rattle.rg_marks.specs.Separated.{AddsOne, SeparateSoMuch, AreSome};

use crate::cells::{are_single, finer};
use crate::firsts::Firsts;
use crate::stops::{mark, new_stops, no_marks};
use rg_lts::Lts;
use rg_net::Place;
use rg_theory::Problem;
use std::alloc::{AllocError, Global};

/// What some places of a system separate. The order of the places doesn't matter, and the places themselves aren't
/// kept.
#[derive(Drop)]
pub struct Separated {
    /// A row for each label, with a mark for each state: whether one of the places stops the label there.
    pub stops: Vec<Vec<bool>>,
    /// A number for each state. Two states have different ones exactly if one of the places distinguishes them. The
    /// number of a state is that of a state that no place distinguishes from it.
    pub cells: Vec<u32>,
}

impl Separated {
    /// Returns what no place separates: nothing. Returns `AllocError` if memory runs out.
    pub fn nothing(alloc: Global, lts: &Lts) -> Result<Separated, AllocError>
        ensures { IfOk result (SeparateSoMuch lts.now []) }
    {
        let stops = no_marks(alloc, lts)?;
        let cells = vec![in alloc; 0; lts.states() as usize]?;
        Ok(Separated { stops, cells })
    }

    /// Adds what one more place separates, given with its tokens, one number for each state. Returns what it is the
    /// first to separate, after the places that were added before: with the former cells, if it changes them, that
    /// is, if the place distinguishes two states of one cell. Returns `AllocError` if memory runs out; then nothing
    /// is added.
    pub fn add(
        &mut self,
        alloc: Global,
        lts: &Lts,
        place: &Place,
        tokens: &[u128],
    ) -> Result<Firsts, AllocError>
        requires narrow { IsNarrow lts.now (shown_place place.now) }
        requires tokens { AreTokens lts.now (shown_place place.now) tokens.now }
        requires some { AreSome lts.now self.old }
        ensures separated { OnOk result ((places more : List PlaceOfTheory) → AddsOne (shown_place place.now) places more → SeparateSoMuch lts.now places self.old → SeparateSoMuch lts.now more self.new) }
        ensures firsts { IfOk result (λ firsts. (front : List PlaceOfTheory) → SeparateSoMuch lts.now front self.old → AreFirsts lts.now front (shown_place place.now) firsts) }
        ensures before { IfOk result (λ firsts. IfSome firsts.cells (λ numbers. (numbers.items ≡ self.old.cells.items) × (self.new.cells.items ≢ numbers.items))) }
        ensures same { IfOk result (λ firsts. IfNone firsts.cells (self.new.cells.items ≡ self.old.cells.items)) }
        ensures none_added { OnErr result (self.new ≡ self.old) }
    {
        lts.is_well_formed();
        let events = new_stops(alloc, lts, &self.stops, place, tokens)?;
        let cells = finer(alloc, &self.cells, tokens)?;
        mark(lts, &mut self.stops, &events);
        let cells = match cells {
            Some(after) => Some(std::mem::replace(&mut self.cells, after)),
            None => None,
        };
        Ok(Firsts { events, cells })
    }

    /// Returns whether one of the places separates the problem of the system.
    pub fn separates(&self, lts: &Lts, problem: Problem) -> bool
        requires problem { IsProblem lts.now problem }
        requires some { AreSome lts.now self.now }
        ensures { (places : List PlaceOfTheory) → SeparateSoMuch lts.now places self.now → (IsTrue result ↔ Any (IsSeparatedBy lts.now problem) places) }
    {
        match problem {
            Problem::Event(s, t) => self.stops[t as usize][s as usize],
            Problem::States(s, other) => self.cells[s as usize] != self.cells[other as usize],
        }
    }
    /// Returns whether the places separate all state problems of the system: every two states are distinguished by
    /// one of them.
    pub fn are_all_apart(&self) -> bool
        ensures { (lts : System) (places : List PlaceOfTheory) → SeparateSoMuch lts places self.now → (IsTrue result ↔ AreAllApart lts places) }
    {
        are_single(&self.cells)
    }
}

//! The order of work.
ghost use Rattle.std.specs.Prelude.{◌≡◌, ◌≤◌, map, IfOk};
ghost use Rattle.rg_theory.specs.ClassWords.{HasNumbersInRange};
ghost use Rattle.rg_theory.specs.System.{IsAllReachable};
ghost use Rattle.rg_net.specs.Shown.{shown_place};
ghost use Rattle.rg_case_folds.specs.Shown.{ShownWide};
ghost use Rattle.rg_marks.specs.Firsts.{AreAllFirsts};
ghost use Rattle.rg_separate.specs.View.{shown_of};
ghost use Rattle.rg_separate.specs.Answer.{AreSeparating, IsGoodCertificate, ending_of, ending_with_firsts, IfPlaces, IfFirsts, IfUnsolvable, IfTooWide, IsSearched};

use crate::search::{Resources, search_from};
use rg_cert_data::{Certificate, WideAt};
use rg_lts::Lts;
use rg_marks::{CompactPlace, Firsts};
use rg_memory::NoMemory;
use rg_net::Place;
use rg_ports::Gate;
use rg_theory::Class;
use std::alloc::{AllocError, Global};
use std::thread::Threads;

/// The outcome of the separation problems of a system.
#[derive(Drop)]
pub enum Separation {
    /// Places that separate all problems.
    Places(Vec<Place>),
    /// No place of the class separates some problem.
    Unsolvable(Certificate),
    /// A number passes in some problem that no place found separates.
    TooWide(WideAt),
}

/// The outcome of the separation problems of a system, with the problems that each place is the first to separate.
#[derive(Drop)]
pub enum SeparationWithFirsts {
    /// Places that separate all problems, and for each the problems that it is the first to separate.
    Places(Vec<CompactPlace>, Vec<Firsts>),
    /// No place of the class separates some problem. The places are those that were found before.
    Unsolvable(Certificate, Vec<CompactPlace>),
    /// A number passes in some problem that no place found separates.
    TooWide(WideAt),
}

/// Returns places of the class that together separate all separation problems of the system, each of whose states is
/// reachable (Badouel, Bernardinello and Darondeau, *Petri Net Synthesis*).
///
/// The cycle equations are solved first, and the rows that all problems share are written. Event problems are taken
/// before state problems, each kind in order; one that a kept place separates is passed over, and that of a label
/// without an arc has a place of its own. Of any other the cases are taken in order: the rows and forms of the case,
/// the branching on them, and the place of its point or the leaves of its tree. The first place is kept. A problem
/// whose cases are all refuted ends the work: `Unsolvable`. One without a place in which a number passes is passed
/// over; at the end the first problem that no kept place separates makes the answer `TooWide`, and without one the
/// answer is `Places`. Returns `NoMemory` if memory runs out.
///
/// The answer is the one of the system and the class, for any number of jobs and any gate: `searched`, with
/// `outcome_is_one`, is "exactly". The problems are solved in blocks, on so many threads as `jobs` says at most.
pub fn separate<R: Threads + Sync, G: Gate + Sync>(
    rt: &R,
    alloc: Global,
    lts: &Lts,
    class: Class,
    jobs: u8,
    gate: &G,
) -> Result<Separation, NoMemory>
    requires reachable { IsAllReachable lts.now }
    requires bound { HasNumbersInRange class }
    requires some { 1 ≤ jobs }
    ensures searched { IfOk result (λ s. IsSearched lts.now class (ending_of s)) }
    ensures places { IfOk result (λ s. IfPlaces (ending_of s) (AreSeparating lts.now class)) }
    ensures unsolvable { IfOk result (λ s. IfUnsolvable (ending_of s) (IsGoodCertificate lts.now class)) }
    ensures too_wide { IfOk result (λ s. IfTooWide (ending_of s) (λ w. ShownWide lts.now class (shown_of w))) }
{
    let separation = separate_with_firsts(rt, alloc, lts, class, jobs, gate)?;
    Ok(separation.without_firsts(alloc)?)
}

/// Returns what `separate` returns, and for each place the problems that it is the first to separate, which the
/// search finds in any case. Returns `NoMemory` if memory runs out.
pub fn separate_with_firsts<R: Threads + Sync, G: Gate + Sync>(
    rt: &R,
    alloc: Global,
    lts: &Lts,
    class: Class,
    jobs: u8,
    gate: &G,
) -> Result<SeparationWithFirsts, NoMemory>
    requires reachable { IsAllReachable lts.now }
    requires bound { HasNumbersInRange class }
    requires some { 1 ≤ jobs }
    ensures searched { IfOk result (λ s. IsSearched lts.now class (ending_with_firsts s)) }
    ensures places { IfOk result (λ s. IfPlaces (ending_with_firsts s) (AreSeparating lts.now class)) }
    ensures firsts { IfOk result (λ s. IfFirsts s (AreAllFirsts lts.now)) }
    ensures unsolvable { IfOk result (λ s. IfUnsolvable (ending_with_firsts s) (IsGoodCertificate lts.now class)) }
    ensures too_wide { IfOk result (λ s. IfTooWide (ending_with_firsts s) (λ w. ShownWide lts.now class (shown_of w))) }
{
    lts.is_well_formed();
    search_from(rt, Resources { alloc, jobs, gate }, lts, class, &[])
}

impl SeparationWithFirsts {
    // The same without the problems that each place is the first to separate.
    fn without_firsts(self, alloc: Global) -> Result<Separation, AllocError>
        ensures { IfOk result (λ s. ending_of s ≡ ending_with_firsts self) }
    {
        match self {
            SeparationWithFirsts::Places(places, _) => {
                Ok(Separation::Places(all_places(alloc, &places)?))
            }
            SeparationWithFirsts::Unsolvable(certificate, _) => Ok(Separation::Unsolvable(
                certificate,
            )),
            SeparationWithFirsts::TooWide(at) => Ok(Separation::TooWide(at)),
        }
    }
}

// The places with two weights for each label.
fn all_places(alloc: Global, places: &[CompactPlace]) -> Result<Vec<Place>, AllocError>
    ensures { IfOk result (λ all. map shown_place all.items ≡ places.now) }
{
    let mut all = Vec::with_capacity(alloc, places.len())?;
    for place in places {
        all.push(place.place(alloc)?)?;
    }
    Ok(all)
}

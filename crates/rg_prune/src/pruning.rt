//! Dropping places.
ghost use Rattle.std.specs.Prelude.{◌≡◌, ◌++◌, List, ◌∷◌, map, All, IsTrue, false, IfOk};
ghost use Rattle.rg_theory.specs.System.{IsAllReachable};
ghost use Rattle.rg_theory.specs.Net.{Place as PlaceOfTheory};
ghost use Rattle.rg_theory.specs.Tree.{IsTree};
ghost use Rattle.rg_theory.specs.Problem.{SeparateAll};
ghost use Rattle.rg_net.specs.Shown.{shown_place};
ghost use Rattle.rg_marks.specs.Tokens.{IsNarrow};
ghost use Rattle.rg_marks.specs.Separated.{SeparateSoMuch};
ghost use Rattle.rg_theory.specs.Pruned.{IsPruned};
ghost use Rattle.rg_marks.specs.Firsts.{AreFirsts, AreAllFirsts};
ghost use Rattle.rg_prune.specs.Pending.{IsPending};

use crate::differing::all_differ;
use crate::firsts::all_firsts;
use crate::stops::are_marked;
use rg_lts::Lts;
use rg_marks::{CompactPlace, Firsts, Separated, fill_tokens, no_tokens};
use rg_memory::NoMemory;
use rg_net::Place;
use rg_spanning::TreeArcs;
use rg_theory::Arc;
use std::alloc::{AllocError, Global};

/// Returns what is left of places that separate all separation problems of the system, each of whose states is
/// reachable: from the last place to the first, a place is dropped where the others that are left still separate all.
/// They stay in order, and none of those left can be left out. Returns `NoMemory` if memory runs out.
pub fn prune(alloc: Global, lts: &Lts, places: Vec<Place>) -> Result<Vec<Place>, NoMemory>
    requires reachable { IsAllReachable lts.now }
    requires narrow { All (λ p. IsNarrow lts.now (shown_place p)) places.items }
    requires separate { SeparateAll (map shown_place places.items) lts.now }
    ensures { IfOk result (λ left. IsPruned lts.now (map shown_place places.items) (map shown_place left.items)) }
{
    let tree = TreeArcs::grow(alloc, lts)?;
    let firsts = all_firsts(alloc, lts, &tree.arcs, &places)?;
    let compact = compact_all(alloc, lts, &places)?;
    Ok(drop_unneeded(alloc, lts, &tree.arcs, compact, firsts)?)
}

/// Returns what `prune` leaves of the places, where the caller has the problems that each place is the first to
/// separate, as a search for places finds them. Returns `NoMemory` if memory runs out.
pub fn prune_with_firsts(
    alloc: Global,
    lts: &Lts,
    places: Vec<CompactPlace>,
    firsts: Vec<Firsts>,
) -> Result<Vec<Place>, NoMemory>
    requires reachable { IsAllReachable lts.now }
    requires narrow { All (IsNarrow lts.now) places.items }
    requires separate { SeparateAll places.items lts.now }
    requires firsts { AreAllFirsts lts.now places.items firsts.items }
    ensures { IfOk result (λ left. IsPruned lts.now places.items (map shown_place left.items)) }
{
    let tree = TreeArcs::grow(alloc, lts)?;
    Ok(drop_unneeded(alloc, lts, &tree.arcs, places, firsts)?)
}

// Takes the places from the last one to the first, and keeps those that are needed.
fn drop_unneeded(
    alloc: Global,
    lts: &Lts,
    tree: &[Arc],
    mut places: Vec<CompactPlace>,
    mut all_firsts: Vec<Firsts>,
) -> Result<Vec<Place>, AllocError>
    requires tree { IsTree lts.now tree.now }
    requires reachable { IsAllReachable lts.now }
    requires narrow { All (IsNarrow lts.now) places.items }
    requires separate { SeparateAll places.items lts.now }
    requires firsts { AreAllFirsts lts.now places.items all_firsts.items }
    ensures { IfOk result (λ left. IsPruned lts.now places.items (map shown_place left.items)) }
{
    let mut separated = Separated::nothing(alloc, lts)?;
    let mut tokens = no_tokens(alloc, lts)?;
    let mut left = Vec::new(alloc);
    while let Some(place) = places.pop() {
        let Some(firsts) = all_firsts.pop() else {
            continue;
        };
        if is_needed(alloc, lts, &separated, &firsts)? {
            let place = place.place(alloc)?;
            fill_tokens(lts, tree, &place, &mut tokens);
            separated.add(alloc, lts, &place, &tokens)?;
            left.push(place)?;
        }
    }
    left.reverse();
    Ok(left)
}

/// Returns the places of a system, each with its weights that aren't 0, as `prune_with_firsts` takes them. Returns
/// `AllocError` if memory runs out.
pub fn compact_all(
    alloc: Global,
    lts: &Lts,
    places: &[Place],
) -> Result<Vec<CompactPlace>, AllocError>
    requires { All (λ p. IsNarrow lts.now (shown_place p)) places.now }
    ensures { IfOk result (λ all. all.items ≡ map shown_place places.now) }
{
    lts.is_well_formed();
    let mut all = Vec::with_capacity(alloc, places.len())?;
    for place in places {
        all.push(CompactPlace::new(alloc, place)?)?;
    }
    Ok(all)
}

// Whether the place, which is the first to separate these problems, is needed besides those after it that separate so
// much.
fn is_needed(
    alloc: Global,
    lts: &Lts,
    separated: &Separated,
    firsts: &Firsts,
) -> Result<bool, AllocError>
    requires { IsPending lts.now firsts.now separated.now }
    ensures yes { IfOk result (λ r. IsTrue r → (front behind : List PlaceOfTheory) (p : PlaceOfTheory) → AreFirsts lts.now front p firsts.now → SeparateSoMuch lts.now behind separated.now → ¬ SeparateAll (front ++ behind) lts.now) }
    ensures no { IfOk result (λ r. r ≡ false → (front behind : List PlaceOfTheory) (p : PlaceOfTheory) → AreFirsts lts.now front p firsts.now → SeparateSoMuch lts.now behind separated.now → SeparateAll (front ++ p ∷ behind) lts.now → SeparateAll (front ++ behind) lts.now) }
{
    if !are_marked(lts, &separated.stops, &firsts.events) {
        return Ok(true);
    }
    match &firsts.cells {
        Some(cells) => Ok(!all_differ(alloc, cells, &separated.cells)?),
        None => Ok(false),
    }
}

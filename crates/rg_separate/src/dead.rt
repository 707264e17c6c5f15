//! Labels without an arc.
ghost use Rattle.std.specs.Prelude.{◌≡◌, ◌≢◌, ℕ, ◌<◌, ◌↔◌, All, IfOk, IsTrue, replicate};
ghost use Rattle.rg_theory.specs.System.{labels, IsDead};
ghost use Rattle.rg_theory.specs.declared.Class.{Class};
ghost use Rattle.rg_theory.specs.declared.Problem.TheVariants as problem;
ghost use Rattle.rg_theory.specs.Region.{blocking};
ghost use Rattle.rg_net.specs.Shown.{shown_place};
ghost use Rattle.rg_places.specs.RegionPlaces.{IsRegionPlace, PlaceSeparates};

use rg_lts::{Arc, Lts};
use rg_marks::RegionPlace;
use rg_net::Place;
use std::alloc::{AllocError, Global};

// Whether no arc has the label.
pub(crate) fn is_dead(lts: &Lts, t: u32) -> bool
    ensures { IsTrue result ↔ IsDead lts.now t }
{
    is_without(lts.arcs(), t)
}

// Whether none of the arcs has the label.
fn is_without(arcs: &[Arc], t: u32) -> bool
    ensures { IsTrue result ↔ All (λ a. a.label ≢ t) arcs.now }
{
    arcs.iter().all(|a| a.label != t)
}

// The place without tokens from which label `t` alone takes one.
fn blocking_place(alloc: Global, labels: u32, t: u32) -> Result<Place, AllocError>
    requires { t < labels }
    ensures { IfOk result (λ p. shown_place p ≡ blocking labels t) }
{
    let mut pre = vec![in alloc; 0u128; labels as usize]?;
    pre[t as usize] = 1;
    let post = vec![in alloc; 0u128; labels as usize]?;
    Ok(Place {
        start: 0,
        pre,
        post,
    })
}

// No tokens at each of so many states.
fn no_tokens(alloc: Global, states: u32) -> Result<Vec<u128>, AllocError>
    ensures { IfOk result (λ tokens. tokens.items ≡ replicate states 0) }
{
    vec![in alloc; 0u128; states as usize]
}

// That place with its tokens at the states, where the label is dead.
pub(crate) fn block_label(alloc: Global, lts: &Lts, t: u32) -> Result<RegionPlace, AllocError>
    requires label { t < labels lts.now }
    requires dead { IsDead lts.now t }
    ensures place { IfOk result (λ r. shown_place r.place ≡ blocking (labels lts.now) t) }
    ensures region { IfOk result (λ r. (class : Class) → IsRegionPlace lts.now class r) }
    ensures separates { IfOk result (λ r. (s : ℕ) → PlaceSeparates (problem.Event s t) r) }
{
    let place = blocking_place(alloc, lts.labels(), t)?;
    let tokens = no_tokens(alloc, lts.states())?;
    Ok(RegionPlace { place, tokens })
}

//! The first labels, and the first marking, that show that a place isn't of a class, and its start.
ghost use Rattle.std.specs.Prelude.{◌≡◌, ◌⊎◌, ◌↔◌, ℕ, ◌<◌, ◌≤◌, length, All, Some, IfSome, IfNone, IsTrue, slice_get};
ghost use Rattle.rg_theory.specs.Net.{Marking, pre_weight, post_weight, tokens};
ghost use Rattle.rg_theory.specs.Class.{IsPure, IsPlain, IsNonbranching, IsMultiple};
ghost use Rattle.rg_net.specs.Shown.{shown_place};
ghost use Rattle.rg_net.specs.ClassBreaks.{shown_markings};
ghost use Rattle.rg_net.specs.Overs.{IsFirstOver};

use crate::net::Place;

// The first of the labels that both takes from the place and puts on it.
pub(crate) fn first_impure(labels: u32, place: &Place) -> Option<u32>
    requires pre { length place.now.pre.items ≡ labels }
    requires post { length place.now.post.items ≡ labels }
    ensures some { IfSome result (λ t. (t < labels) × (0 < pre_weight (shown_place place.now) t) × (0 < post_weight (shown_place place.now) t)) }
    ensures least { IfSome result (λ t. IsPure t (shown_place place.now)) }
    ensures none { IfNone result (IsPure labels (shown_place place.now)) }
{
    for t in 0..labels {
        if place.pre[t as usize] > 0 && place.post[t as usize] > 0 {
            return Some(t);
        }
    }
    None
}

// The first of the labels that takes more than one token from the place, or puts more than one on it.
pub(crate) fn first_heavy(labels: u32, place: &Place) -> Option<u32>
    requires pre { length place.now.pre.items ≡ labels }
    requires post { length place.now.post.items ≡ labels }
    ensures some { IfSome result (λ t. (t < labels) × ((1 < pre_weight (shown_place place.now) t) ⊎ (1 < post_weight (shown_place place.now) t))) }
    ensures least { IfSome result (λ t. IsPlain t (shown_place place.now)) }
    ensures none { IfNone result (IsPlain labels (shown_place place.now)) }
{
    for t in 0..labels {
        if place.pre[t as usize] > 1 || place.post[t as usize] > 1 {
            return Some(t);
        }
    }
    None
}

// Of so many places the first that has more tokens than the bound in one of the markings, and the first such marking.
// It goes over the markings once.
pub(crate) fn first_over(
    markings: &[Vec<u128>],
    places: u32,
    bound: Option<u8>,
) -> Option<(u32, u32)>
    requires places { All (λ m. length m ≡ places) (shown_markings markings.now) }
    requires few { length markings.now < 4294967296 }
    ensures { IsFirstOver (shown_markings markings.now) bound places result }
{
    let most = bound?;
    let mut end = places;
    let mut first = 0;
    for (s, marking) in markings.iter().enumerate() {
        if let Some(i) = first_above(marking, end, most) {
            end = i;
            first = s as u32;
        }
    }
    if end < places {
        Some((end, first))
    } else {
        None
    }
}

// The first of the places below the end that has more tokens than the bound in the marking.
fn first_above(marking: &[u128], end: u32, bound: u8) -> Option<u32>
    requires { end ≤ length marking.now }
    ensures some { IfSome result (λ i. (i < end) × (bound < tokens marking.now i)) }
    ensures least { IfSome result (λ i. (j : ℕ) → j < i → tokens marking.now j ≤ bound) }
    ensures none { IfNone result ((j : ℕ) → j < end → tokens marking.now j ≤ bound) }
{
    for i in 0..end {
        if marking[i as usize] > u128::from(bound) {
            return Some(i);
        }
    }
    None
}

// The two first of the labels that take from the place.
pub(crate) fn first_two_takers(labels: u32, place: &Place) -> Option<(u32, u32)>
    requires { length place.now.pre.items ≡ labels }
    ensures some { IfSome result (λ f. (f.0 < f.1) × (f.1 < labels) × (0 < pre_weight (shown_place place.now) f.0) × (0 < pre_weight (shown_place place.now) f.1)) }
    ensures least { IfSome result (λ f. (t u : ℕ) → t < u → u < labels → 0 < pre_weight (shown_place place.now) t → 0 < pre_weight (shown_place place.now) u → (f.0 < t) ⊎ ((f.0 ≡ t) × (f.1 ≤ u))) }
    ensures none { IfNone result (IsNonbranching labels (shown_place place.now)) }
{
    let t = first_taker(labels, place, 0)?;
    let u = first_taker(labels, place, t + 1)?;
    Some((t, u))
}

// The first of the labels from this one on that takes from the place.
fn first_taker(labels: u32, place: &Place, from: u32) -> Option<u32>
    requires { length place.now.pre.items ≡ labels }
    ensures some { IfSome result (λ t. (from ≤ t) × (t < labels) × (0 < pre_weight (shown_place place.now) t)) }
    ensures least { IfSome result (λ t. (u : ℕ) → from ≤ u → u < t → pre_weight (shown_place place.now) u ≡ 0) }
    ensures none { IfNone result ((u : ℕ) → from ≤ u → u < labels → pre_weight (shown_place place.now) u ≡ 0) }
{
    for t in from..labels {
        if place.pre[t as usize] > 0 {
            return Some(t);
        }
    }
    None
}

// Whether the number is so many times n.
pub(crate) fn is_multiple(n: u8, number: u128) -> bool
    ensures { IsTrue result ↔ IsMultiple n number }
{
    if n == 0 {
        return number == 0;
    }
    number % u128::from(n) == 0
}

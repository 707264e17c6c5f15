//! Firing.
ghost use Rattle.std.specs.Prelude.{◌≡◌, ◌↔◌, ℕ, ◌+◌, ◌-◌, ◌<◌, ◌≤◌, length, All, IsTrue, IfOk, IfSome, IfNone, IsErrOf};
ghost use Rattle.rg_integers.specs.Range.{greatest};
ghost use Rattle.rg_theory.specs.Net.{IsEnabled, Fires, pre_weight, post_weight, tokens};
ghost use Rattle.rg_net.specs.Range.{IsPlaceInRange};
ghost use Rattle.rg_net.specs.Shown.{shown_place};
ghost use Rattle.rg_net.specs.Firing.{IsFirstPassed, StaysInRange, left_of};
ghost use Rattle.rg_net.specs.declared.firing.FireStop.TheVariants as stop;

use crate::net::{Net, Place};
use rg_integers::GREATEST;
use std::alloc::{AllocError, Global};

/// Why a label didn't fire.
#[derive(Clone, Copy, Debug, PartialEq, Eq)]
pub enum FireStop {
    /// The first place that would get more than `2^127 - 1` tokens.
    Passes(u32),
    /// Memory ran out.
    NoMemory,
}

impl From<AllocError> for FireStop {
    ghost from_gives = { λ _ e. e ≡ stop.NoMemory };

    fn from(_: AllocError) -> FireStop {
        FireStop::NoMemory
    }
}

/// Returns whether label `t` is enabled at the marking, which has one number for each place: every place has the
/// tokens that the label takes from it. It takes no memory.
pub fn enabled(net: &Net, marking: &[u128], t: u32) -> bool
    requires places { length marking.now ≡ length net.now.places }
    requires label { t < net.now.labels }
    ensures { IsTrue result ↔ IsEnabled net.now marking.now t }
{
    let places = net.places();
    for (i, place) in places.iter().enumerate() {
        if marking[i] < place.pre[t as usize] {
            return false;
        }
    }
    true
}

/// Returns the marking after the firing of label `t`, which is enabled at the marking. The marking has one number for
/// each place, none over `2^127 - 1`. Returns `Passes` if a place would get more than `2^127 - 1` tokens.
pub fn fire(alloc: Global, net: &Net, marking: &[u128], t: u32) -> Result<Vec<u128>, FireStop>
    requires enabled { IsEnabled net.now marking.now t }
    requires places { length marking.now ≡ length net.now.places }
    requires label { t < net.now.labels }
    requires in_range { All (λ n. n ≤ greatest) marking.now }
    ensures fires { IfOk result (λ after. Fires net.now marking.now t after.items) }
    ensures in_range { IfOk result (λ after. All (λ n. n ≤ greatest) after.items) }
    ensures passes { (p : ℕ) → IsErrOf result (stop.Passes p) → IsFirstPassed net.now marking.now t p }
{
    if let Some(p) = first_passed(net, marking, t) {
        return Err(FireStop::Passes(p));
    }
    Ok(marking_after(alloc, net, marking, t)?)
}

// The first place that would get more tokens than are in range.
fn first_passed(net: &Net, marking: &[u128], t: u32) -> Option<u32>
    requires enabled { IsEnabled net.now marking.now t }
    requires places { length marking.now ≡ length net.now.places }
    requires label { t < net.now.labels }
    requires in_range { All (λ n. n ≤ greatest) marking.now }
    ensures passed { IfSome result (IsFirstPassed net.now marking.now t) }
    ensures none { IfNone result (StaysInRange net.now marking.now t) }
{
    let places = net.places();
    for (i, place) in places.iter().enumerate() {
        if tokens_after(place, marking[i], t) > GREATEST as u128 {
            return Some(i as u32);
        }
    }
    None
}

// The marking after the firing, which stays in range.
fn marking_after(
    alloc: Global,
    net: &Net,
    marking: &[u128],
    t: u32,
) -> Result<Vec<u128>, AllocError>
    requires enabled { IsEnabled net.now marking.now t }
    requires places { length marking.now ≡ length net.now.places }
    requires label { t < net.now.labels }
    requires in_range { All (λ n. n ≤ greatest) marking.now }
    requires stays { StaysInRange net.now marking.now t }
    ensures fires { IfOk result (λ after. Fires net.now marking.now t after.items) }
    ensures in_range { IfOk result (λ after. All (λ n. n ≤ greatest) after.items) }
{
    let places = net.places();
    let mut after = Vec::with_capacity(alloc, places.len())?;
    for (i, place) in places.iter().enumerate() {
        after.push(tokens_after(place, marking[i], t))?;
    }
    Ok(after)
}

// What a firing of the label leaves on a place with so many tokens.
fn tokens_after(place: &Place, tokens: u128, t: u32) -> u128
    requires place { IsPlaceInRange (shown_place place.now) }
    requires pre { t < length place.now.pre.items }
    requires post { t < length place.now.post.items }
    requires enough { pre_weight (shown_place place.now) t ≤ tokens }
    requires in_range { tokens ≤ greatest }
    ensures { result ≡ left_of tokens (shown_place place.now) t }
{
    tokens - place.pre[t as usize] + place.post[t as usize]
}

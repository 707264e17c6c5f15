//! Where a net leaves a class.
ghost use Rattle.std.specs.Prelude.{◌≡◌, ℕ, ◌<◌, ◌≤◌, List, length, All, IfSome, IfNone, IfErr, OnOk};
ghost use Rattle.rg_theory.specs.Net.{Marking, IsPlaceAt};
ghost use Rattle.rg_theory.specs.Class.{IsPlaceInClass};
ghost use Rattle.rg_net.specs.Range.{IsNetInRange};
ghost use Rattle.rg_net.specs.Shown.{shown_place};
ghost use Rattle.rg_net.specs.ClassBreaks.{AreInClass, IsFirstBreak, IsBreak, IsBreakBefore, shown_markings, place_of};
ghost use Rattle.rg_net.specs.Overs.{IsFirstOver};

use crate::net::{Net, Place};
use crate::weights::{first_heavy, first_impure, first_over, first_two_takers, is_multiple};
use rg_theory::Class;

/// What keeps a net from being of a class: a place, by its number, and the labels or the marking that show it.
#[derive(Clone, Copy, Debug, PartialEq, Eq)]
pub enum ClassBreak {
    /// The label both takes from the place and puts on it.
    NotPure(u32, u32),
    /// The label takes more than one token from the place, or puts more than one on it.
    NotPlain(u32, u32),
    /// The place has more tokens in this marking than the bound allows.
    Over(u32, u32),
    /// The two least labels that take from the place, in order.
    Branching(u32, u32, u32),
    /// The place's start number isn't a multiple of the class's marking.
    NotMultiple(u32),
}

/// Returns whether the net is of the class as far as these markings show, each with one number for each place: every
/// place meets the conditions on weights, and has in none of the markings more tokens than the bound. If not, the
/// first break: by place, then pure, plain, the bound, nonbranching and the marking in this order, then by the other
/// numbers. It takes no memory.
pub fn in_class(net: &Net, markings: &[Vec<u128>], class: Class) -> Result<(), ClassBreak>
    requires places { All (λ m. length m ≡ length net.now.places) (shown_markings markings.now) }
    requires few { length markings.now < 4294967296 }
    ensures ok { OnOk result (AreInClass net.now (shown_markings markings.now) class) }
    ensures first { IfErr result (IsFirstBreak net.now (shown_markings markings.now) class) }
{
    let places = net.places();
    let over = first_over(markings, places.len() as u32, class.bound);
    for (i, place) in places.iter().enumerate() {
        if let Some(first) = first_at(net, class, over, i as u32, place) {
            return Err(first);
        }
    }
    Ok(())
}

// The first break at the place with this number. Of the markings it is given the first place with more tokens than
// the bound, which doesn't come before, and the first marking that shows it.
fn first_at(
    net: &Net,
    class: Class,
    over: Option<(u32, u32)>,
    i: u32,
    place: &Place,
) -> Option<ClassBreak>
    requires in_range { IsNetInRange net.now }
    requires at { IsPlaceAt net.now i (shown_place place.now) }
    requires ahead { IfSome over (λ f. i ≤ f.0) }
    ensures breaks { IfSome result (λ b. (ms : List Marking) → IsFirstOver ms class.bound (length net.now.places) over → IsBreak net.now ms class b) }
    ensures first { IfSome result (λ b. (place_of b ≡ i) × ((ms : List Marking) → IsFirstOver ms class.bound (length net.now.places) over
        → (a : ClassBreak) → place_of a ≡ i → IsBreakBefore a b → ¬ IsBreak net.now ms class a)) }
    ensures weights { IfNone result (IsPlaceInClass class net.now.labels (shown_place place.now)) }
    ensures passed { IfNone result (IfSome over (λ f. i < f.0)) }
{
    if class.pure
        && let Some(t) = first_impure(net.labels(), place)
    {
        return Some(ClassBreak::NotPure(i, t));
    }
    if class.plain
        && let Some(t) = first_heavy(net.labels(), place)
    {
        return Some(ClassBreak::NotPlain(i, t));
    }
    if let Some((first, s)) = over
        && first == i
    {
        return Some(ClassBreak::Over(i, s));
    }
    if class.nonbranching
        && let Some((t, u)) = first_two_takers(net.labels(), place)
    {
        return Some(ClassBreak::Branching(i, t, u));
    }
    if let Some(n) = class.marking
        && !is_multiple(n, place.start)
    {
        return Some(ClassBreak::NotMultiple(i));
    }
    None
}

//! From a point to its place.
ghost use Rattle.std.specs.Prelude.{◌≡◌, ℕ, ◌+◌, ◌<◌, length, map, drop, unsigned_abs, IfOk, IsTrue};
ghost use Rattle.rg_cert_meaning.specs.Refutes.{IsSeparationProblem};
ghost use Rattle.rg_theory.specs.System.{states, labels};
ghost use Rattle.rg_spanning.specs.Spanning.{IsTreeOf};
ghost use Rattle.rg_cycles.specs.View.{labels_of, cycle_of};
ghost use Rattle.rg_case_folds.specs.Rewriting.{has_start, column_count};
ghost use Rattle.rg_case_folds.specs.Placing.{place_fold};
ghost use Rattle.rg_case_folds.specs.Shown.{IsLive};
ghost use Rattle.rg_folds.specs.Fold.{Comes, ratio_of};
ghost use Rattle.rg_case_folds.specs.Meaning.{first_column};
ghost use Rattle.rg_net.specs.Shown.{shown_place};
ghost use Rattle.rg_places.specs.PointValues.{ratios_of, point_start, point_value, SolvesCase};
ghost use Rattle.rg_places.specs.Steps.{found_fold, weights_fold};
ghost use Rattle.rg_places.specs.RegionPlaces.{IsRegionPlace, PlaceSeparates, AreTokensMade};
ghost use Rattle.rg_case_parts.specs.SettingViews.{shown_setting};

use crate::columns::columns_with;
use crate::effects::effects;
use crate::numbers::{along_tree, shift_and_lift};
use crate::weights::{post_weights, pre_weights, sizes, whole_sizes};
use crate::whole::make_whole;
use rg_case_parts::{Setting, has_start, used_labels};
use rg_fraction::{FoldStop, Fraction};
use rg_lts::Lts;
use rg_marks::RegionPlace;
use rg_net::Place;
use rg_theory::{Class, Problem};
use std::alloc::Global;

/// Returns the place that a point of a case's system makes, with its tokens at the states.
///
/// The point has one fraction for each column: Start, the tokens of the initial state, if the class is pure, plain or
/// bounded, and then the effects of the free labels with an arc, in order. The effects of the other labels follow by
/// the basis. In a class that is neither plain nor bounded, Start and all effects are multiplied by their least
/// common denominator, and then by the class's marking, if it asks one. The tokens of the states follow along the
/// tree; in a class that isn't bounded, and is plain or not pure, the least of them is taken from all. In a problem
/// of two states of a plain class without bound the least number that makes the initial state's tokens a multiple of
/// the marking is then added to all. Then each label takes as much as its effect takes away, and the event's label as
/// much as stops it: its effect taken away in a pure class, else 1 in a plain one, and in others the least tokens of
/// the states that it leaves.
///
/// If the point meets every row of the system of a case of the problem, and the forms of the case are whole at it,
/// the place is a region of the class that separates the problem. Returns `FoldStop::Wide` exactly if a step of the
/// computation is out of range, with the first such step, and `FoldStop::NoMemory` if memory runs out.
pub fn make_place(
    alloc: Global,
    setting: Setting<'_>,
    problem: Problem,
    point: &[Fraction],
) -> Result<RegionPlace, FoldStop>
    requires tree { IsTreeOf setting.lts.now setting.tree.now }
    requires labels { labels_of setting.basis.now ≡ labels setting.lts.now }
    requires asked { IsSeparationProblem setting.lts.now problem }
    requires columns { length point.now ≡ column_count setting.lts.now (cycle_of setting.basis.now) setting.class }
    ensures comes { let s = shown_setting setting.entry in
        Comes (place_fold s problem (point_start s.class point.now) (point_value s.lts s.basis s.class point.now)) (λ r. shown_place r.place) result }
    ensures tokens { let s = shown_setting setting.entry in IfOk result (λ r. AreTokensMade s problem (point_start s.class point.now) (point_value s.lts s.basis s.class point.now) r.tokens.items) }
    ensures region { let s = shown_setting setting.entry in IfOk result (λ r. IsLive s.lts problem → SolvesCase s problem point.now → IsRegionPlace s.lts s.class r × PlaceSeparates problem r) }
{
    let Setting { lts, class, .. } = setting;
    let found = found_numbers(alloc, setting, point)?;
    let numbers = along_tree(alloc, lts, setting.tree.arcs(), &found)?;
    let numbers = shift_and_lift(lts, class, problem, numbers)?;
    place_of(alloc, lts, class, problem, &found, &numbers)
}

// The effects of the labels at the point, and Start after them, made whole where the class asks.
fn found_numbers(
    alloc: Global,
    setting: Setting<'_>,
    point: &[Fraction],
) -> Result<Vec<Fraction>, FoldStop>
    requires labels { labels_of setting.basis.now ≡ labels setting.lts.now }
    requires columns { length point.now ≡ column_count setting.lts.now (cycle_of setting.basis.now) setting.class }
    ensures length { IfOk result (λ found. length found.items ≡ labels setting.entry.lts.now + 1) }
    ensures comes { let s = shown_setting setting.entry in
        Comes (found_fold s.lts s.basis s.class (point_start s.class point.now) (point_value s.lts s.basis s.class point.now)) (λ found. ratios_of found.items) result }
{
    let Setting {
        lts,
        basis,
        class,
        ..
    } = setting;
    let (start, values) = start_and_values(class, point);
    let used = used_labels(alloc, lts)?;
    let columns = columns_with(alloc, lts, basis, &used, values)?;
    let mut numbers = effects(alloc, lts, basis, &used, &columns)?;
    numbers.push(start)?;
    make_whole(alloc, class, numbers)
}

// Start, and the values of the free labels.
fn start_and_values(class: Class, point: &[Fraction]) -> (Fraction, &[Fraction])
    requires { IsTrue (has_start class) → 0 < length point.now }
    ensures start { ratio_of result.0 ≡ point_start class point.now }
    ensures values { result.1.now ≡ drop (first_column class) point.now }
{
    if has_start(class) {
        (point[0], &point[1..])
    } else {
        (Fraction::new(0, 1), point)
    }
}

// The place with these numbers of the states and these effects.
fn place_of(
    alloc: Global,
    lts: &Lts,
    class: Class,
    problem: Problem,
    found: &[Fraction],
    numbers: &[Fraction],
) -> Result<RegionPlace, FoldStop>
    requires asked { IsSeparationProblem lts.now problem }
    requires found { length found.now ≡ labels lts.now + 1 }
    requires numbers { length numbers.now ≡ states lts.now }
    ensures comes { Comes (weights_fold lts.now class problem (ratios_of found.now) (ratios_of numbers.now)) (λ r. shown_place r.place) result }
    ensures tokens { IfOk result (λ r. r.tokens.items ≡ map (λ n. unsigned_abs n.top) (ratios_of numbers.now)) }
{
    let taken = pre_weights(alloc, lts, class, problem, numbers, found)?;
    let put = post_weights(alloc, &taken, found)?;
    let pre = sizes(alloc, &taken)?;
    let post = sizes(alloc, &put)?;
    let tokens = whole_sizes(alloc, numbers)?;
    let start = tokens[lts.initial() as usize];
    Ok(RegionPlace {
        place: Place { start, pre, post },
        tokens,
    })
}

//! What the labels take from a place and put on it.
ghost use Rattle.std.specs.Prelude.{◌≡◌, ℕ, ◌<◌, ◌≤◌, ◌+◌, ℤ, pos, length, map, All, IfOk, unsigned_abs};
ghost use Rattle.rg_theory.specs.System.{states, labels};
ghost use Rattle.rg_cert_meaning.specs.Refutes.{IsSeparationProblem};
ghost use Rattle.rg_integers.specs.Range.{InRange};
ghost use Rattle.rg_integers.specs.Sum.{number_at};
ghost use Rattle.rg_fraction.specs.Fractions.{numerator_of};
ghost use Rattle.rg_folds.specs.Fold.{Comes, each, whole_sum, ratio_of};
ghost use Rattle.rg_case_folds.specs.Rewriting.{all_numbers, states_with};
ghost use Rattle.rg_case_folds.specs.Placing.{ratio_at, top_at, taken_by_effect, taken};
ghost use Rattle.rg_places.specs.PointValues.{ratios_of};
ghost use Rattle.rg_places.specs.Steps.{taken_to_stop};

use crate::numbers::least;
use rg_case_parts::states_with;
use rg_fraction::{FoldStop, Fraction, whole_sum};
use rg_integers::Wide;
use rg_lts::Lts;
use rg_theory::{Class, Problem};
use std::alloc::{AllocError, Global};

// What each label takes: as much as its effect takes away, and the event's label as much as stops it. `numbers` has
// the tokens of the states, `found` the effects of the labels.
pub(crate) fn pre_weights(
    alloc: Global,
    lts: &Lts,
    class: Class,
    problem: Problem,
    numbers: &[Fraction],
    found: &[Fraction],
) -> Result<Vec<i128>, AllocError>
    requires asked { IsSeparationProblem lts.now problem }
    requires numbers { length numbers.now ≡ states lts.now }
    requires found { length found.now ≡ labels lts.now + 1 }
    ensures value { IfOk result (λ pre. pre.items ≡ map (taken lts.now class problem (ratios_of numbers.now) (ratios_of found.now)) (all_numbers (labels lts.now))) }
    ensures in_range { IfOk result (λ pre. All InRange pre.items) }
{
    let mut taken = take_by_effects(alloc, &found[..lts.labels() as usize])?;
    if let Problem::Event(_, t) = problem {
        taken[t as usize] = pre_weight_to_stop(alloc, lts, class, numbers, found[t as usize], t)?;
    }
    Ok(taken)
}

// What labels with these effects take at least.
fn take_by_effects(alloc: Global, effects: &[Fraction]) -> Result<Vec<i128>, AllocError>
    ensures { IfOk result (λ pre. pre.items ≡ map (λ e. taken_by_effect (numerator_of e)) effects.now) }
{
    effects.iter().map(|e| pre_weight(*e)).collect(alloc)
}

// What a label with this effect takes at least.
fn pre_weight(effect: Fraction) -> i128
    ensures value { result ≡ taken_by_effect (numerator_of effect) }
    ensures in_range { InRange result }
{
    let e = effect.numerator();
    if e < 0 { -e } else { 0 }
}

// What the event's label t with this effect takes.
fn pre_weight_to_stop(
    alloc: Global,
    lts: &Lts,
    class: Class,
    numbers: &[Fraction],
    effect: Fraction,
    t: u32,
) -> Result<i128, AllocError>
    requires label { t < labels lts.now }
    requires numbers { length numbers.now ≡ states lts.now }
    ensures value { IfOk result (λ z. z ≡ taken_to_stop lts.now class (ratios_of numbers.now) (numerator_of effect) t) }
    ensures in_range { IfOk result InRange }
{
    if class.pure {
        return Ok(-effect.numerator());
    }
    if class.plain {
        return Ok(1);
    }
    let left = numbers_left(alloc, lts, numbers, t)?;
    Ok(least(&left).numerator())
}

// The numbers of the states that label t leaves.
fn numbers_left(
    alloc: Global,
    lts: &Lts,
    numbers: &[Fraction],
    t: u32,
) -> Result<Vec<Fraction>, AllocError>
    requires label { t < labels lts.now }
    requires numbers { length numbers.now ≡ states lts.now }
    ensures { IfOk result (λ left. ratios_of left.items ≡ map (ratio_at (ratios_of numbers.now)) (states_with lts.now t)) }
{
    let states = states_with(alloc, lts, t)?;
    let mut left = Vec::with_capacity(alloc, states.len())?;
    for &s in &states {
        left.push(numbers[s as usize])?;
    }
    Ok(left)
}

// What each label puts: what it takes, and its effect.
pub(crate) fn post_weights(
    alloc: Global,
    taken: &[i128],
    found: &[Fraction],
) -> Result<Vec<i128>, FoldStop>
    requires lengths { length taken.now ≤ length found.now }
    requires in_range { All InRange taken.now }
    ensures { Comes (each (λ u. whole_sum (number_at taken.now u) (top_at (ratios_of found.now) u)) (all_numbers (length taken.now))) (λ post. post.items) result }
{
    let mut put = Vec::with_capacity(alloc, taken.len())?;
    for (u, &pre) in taken.iter().enumerate() {
        let post = post_weight(pre, found[u].numerator())?;
        put.push(post)?;
    }
    Ok(put)
}

// What a label puts that takes so much and has this effect. An effect of 0 leaves the number as it is.
fn post_weight(pre: i128, effect: i128) -> Result<i128, Wide>
    requires pre_in_range { InRange pre }
    requires effect_in_range { InRange effect }
    ensures value { whole_sum pre effect result }
    ensures in_range { IfOk result InRange }
{
    if effect == 0 {
        return Ok(pre);
    }
    whole_sum(pre, effect)
}

// The numbers without their signs.
pub(crate) fn sizes(alloc: Global, numbers: &[i128]) -> Result<Vec<u128>, AllocError>
    ensures { IfOk result (λ v. v.items ≡ map unsigned_abs numbers.now) }
{
    numbers.iter().map(|z| z.unsigned_abs()).collect(alloc)
}

// The numerators without their signs.
pub(crate) fn whole_sizes(alloc: Global, numbers: &[Fraction]) -> Result<Vec<u128>, AllocError>
    ensures { IfOk result (λ v. v.items ≡ map (λ n. unsigned_abs (numerator_of n)) numbers.now) }
{
    numbers
        .iter()
        .map(|number| number.numerator().unsigned_abs())
        .collect(alloc)
}

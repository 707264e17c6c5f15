//! The numbers of the states.
ghost use Rattle.std.specs.Prelude.{◌≡◌, ℕ, ◌<◌, ◌+◌, ◌∷◌, unwrap_or, unsigned_abs, pos, length, map, Err, IfOk, IsErrOf};
ghost use Rattle.rg_theory.specs.System.{states, labels};
ghost use Rattle.rg_theory.specs.Tree.{IsTree};
ghost use Rattle.rg_integers.specs.declared.term.Wide.{Wide};
ghost use Rattle.rg_folds.specs.Fold.{Comes, gives, either, each, add, whole, Ratio, ratio_of};
ghost use Rattle.rg_case_folds.specs.Rewriting.{all_numbers};
ghost use Rattle.rg_case_folds.specs.Placing.{along_tree, ratio_at, negated, lesser, least_of, is_shifted, is_lifted, missing, moved_fold, lifted_fold, shift_fold};
ghost use Rattle.rg_fraction.specs.declared.fold_stop.FoldStop.TheVariants as stop;
ghost use Rattle.rg_fraction.specs.Fractions.{numerator_of, denominator_of, IsSum};
ghost use Rattle.rg_places.specs.PointValues.{ratios_of};
ghost use Rattle.rg_places.specs.Steps.{IsAlongTree};

use crate::whole::widen;
use rg_fraction::{FoldStop, Fraction};
use rg_integers::Wide;
use rg_lts::{Arc, Lts};
use rg_theory::{Class, Problem};
use std::alloc::Global;
use std::cmp::Ordering;

// The number of each state along the tree. `found` has the effects of the labels, and after them the number of
// the initial state.
pub(crate) fn along_tree(
    alloc: Global,
    lts: &Lts,
    tree: &[Arc],
    found: &[Fraction],
) -> Result<Vec<Fraction>, FoldStop>
    requires tree { IsTree lts.now tree.now }
    requires found { length found.now ≡ labels lts.now + 1 }
    ensures value { IfOk result (λ numbers. IsAlongTree lts.now tree.now (ratios_of found.now) (ratios_of numbers.items)) }
    ensures wide { (w : Wide) → IsErrOf result (stop.Wide w) → along_tree (ratio_at (ratios_of found.now)) (λ s. ratio_at (ratios_of found.now) (labels lts.now)) tree.now (Err w) }
{
    let start = found[lts.labels() as usize];
    let mut numbers = vec![in alloc; start; lts.states() as usize]?;
    for a in tree {
        let number = after_effect(numbers[a.from as usize], found[a.label as usize])?;
        numbers[a.to as usize] = number;
    }
    Ok(numbers)
}

// The number and the effect. An effect of 0 leaves the number as it is.
fn after_effect(number: Fraction, effect: Fraction) -> Result<Fraction, Wide>
    ensures { IsSum (numerator_of number) (denominator_of number) (numerator_of effect) (denominator_of effect) result }
{
    if effect.numerator() == 0 {
        return Ok(number);
    }
    number.add(effect)
}

// The numbers, moved so that the least is 0 where the class asks that, and then moved back where the start has to be
// a multiple.
pub(crate) fn shift_and_lift(
    lts: &Lts,
    class: Class,
    problem: Problem,
    numbers: Vec<Fraction>,
) -> Result<Vec<Fraction>, FoldStop>
    requires { length numbers.items ≡ states lts.now }
    ensures { Comes (shift_fold lts.now class problem (ratios_of numbers.items)) (λ shifted. ratios_of shifted.items) result }
{
    let moved = shift_by_least(class, numbers)?;
    lift(lts, class, problem, moved)
}

// In a class that isn't bounded, and is plain or not pure, the numbers less the least of them, and in others the
// numbers.
fn shift_by_least(class: Class, numbers: Vec<Fraction>) -> Result<Vec<Fraction>, FoldStop>
    ensures { Comes (moved_fold class (ratios_of numbers.items)) (λ moved. ratios_of moved.items) result }
{
    if !is_shifted(class) {
        return Ok(numbers);
    }
    let by = least(&numbers);
    subtract_from_each(numbers, by)
}

// In a problem of two states of a plain class without bound the numbers and what is missing at the start, which is to
// be a multiple of the class's marking, and in others the numbers.
fn lift(
    lts: &Lts,
    class: Class,
    problem: Problem,
    numbers: Vec<Fraction>,
) -> Result<Vec<Fraction>, FoldStop>
    requires { length numbers.items ≡ states lts.now }
    ensures { Comes (lifted_fold lts.now class problem (ratios_of numbers.items)) (λ lifted. ratios_of lifted.items) result }
{
    if !is_lifted(class, problem) {
        return Ok(numbers);
    }
    let start = numbers[lts.initial() as usize].numerator().unsigned_abs();
    let by = missing(class.marking.unwrap_or(1), start);
    add_to_each(numbers, whole_number(by))
}

// Whether the start has to be moved back to a multiple: in a problem of two states of a plain class without bound.
fn is_lifted(class: Class, problem: Problem) -> bool
    ensures { result ≡ is_lifted class problem }
{
    match problem {
        Problem::Event(..) => false,
        Problem::States(..) => { class.marking.is_some() && (class.plain && class.bound.is_none()) }
    }
}

// The number as a fraction.
fn whole_number(n: u8) -> Fraction
    ensures { ratio_of result ≡ whole (pos n) }
{
    Fraction::new(widen(n), 1)
}

// How many more make m a multiple of n; 0 where n is 0.
fn missing(n: u8, m: u128) -> u8
    ensures { result ≡ missing n m }
{
    if n == 0 {
        return 0;
    }
    let n = u128::from(n);
    ((n - m % n) % n) as u8
}

// Whether the class asks that the least number be 0.
fn is_shifted(class: Class) -> bool
    ensures { result ≡ is_shifted class }
{
    class.bound.is_none() && (class.plain || !class.pure)
}

// Each number less so much; the numbers as they are where that is 0.
fn subtract_from_each(numbers: Vec<Fraction>, by: Fraction) -> Result<Vec<Fraction>, FoldStop>
    ensures { Comes (each (λ m. add m (negated (ratio_of by))) (ratios_of numbers.items)) (λ lowered. ratios_of lowered.items) result }
{
    if by.numerator() == 0 {
        return Ok(numbers);
    }
    let mut lowered = numbers;
    for k in 0..lowered.len() {
        let difference = lowered[k].sub(by)?;
        lowered[k] = difference;
    }
    Ok(lowered)
}

// Each number and so much; the numbers as they are where that is 0.
fn add_to_each(numbers: Vec<Fraction>, by: Fraction) -> Result<Vec<Fraction>, FoldStop>
    ensures { Comes (each (λ m. add m (ratio_of by)) (ratios_of numbers.items)) (λ raised. ratios_of raised.items) result }
{
    if by.numerator() == 0 {
        return Ok(numbers);
    }
    let mut raised = numbers;
    for k in 0..raised.len() {
        let sum = raised[k].add(by)?;
        raised[k] = sum;
    }
    Ok(raised)
}

// The least of the numbers, 0 of none.
pub(crate) fn least(numbers: &[Fraction]) -> Fraction
    ensures { ratio_of result ≡ least_of (ratios_of numbers.now) }
{
    let Some((first, rest)) = numbers.split_first() else {
        return Fraction::new(0, 1);
    };
    let mut least = *first;
    for number in rest {
        least = lesser(least, *number);
    }
    least
}

// The lesser of the two.
fn lesser(before: Fraction, number: Fraction) -> Fraction
    ensures { ratio_of result ≡ lesser (ratio_of before) (ratio_of number) }
{
    if number.cmp(&before) == Ordering::Less {
        number
    } else {
        before
    }
}

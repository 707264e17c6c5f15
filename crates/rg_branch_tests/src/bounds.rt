//! Tests whether a branching may be asked for.
ghost use Rattle.std.specs.Prelude.{◌≡◌, ◌+◌, ◌^◌, ◌<◌, ◌≤◌, [], length, pos, ◌-ℤ◌, ◌*ℤ◌, ◌≤ℤ◌, All, IsTrue, IsFalse, IfSome, IfNone};
ghost use Rattle.rg_integers.specs.Range.{InRange};
ghost use Rattle.rg_linear.specs.Room.{room};
ghost use Rattle.rg_linear.specs.System.{row_at};
ghost use Rattle.rg_linear.specs.View.{linear_row, IsWellFormed};
ghost use Rattle.rg_branch.specs.Asked.{IsFormOf, CanBranch};
ghost use Rattle.rg_branch.specs.View.{forms_of};
ghost use Rattle.rg_branch_tests.specs.Bounds.{AreTimes, IsLow, IsTop, IsByRows, EachIsByRows, AreByRows};

use rg_branch::Bounded;
use rg_fraction::whole_product;
use rg_linear::{JoinedSystem, Row, System};

// So many forms are tested at most.
const MOST_FORMS: usize = 1000;

/// A row that bounds a form from above: its coefficients are those of the form, each times `-times`, where `times` is
/// above 0. Its number is counted as that of the form's own row.
#[derive(Clone, Copy, PartialEq, Eq, Debug)]
pub struct Top {
    pub row: u32,
    pub times: i128,
}

// Whether the number is the other one times the factor.
#[tactic(auto, using(rg_integers::proofs::Casts::casts))]
fn is_times(number: i128, factor: i128, other: i128) -> bool
    ensures times { IsTrue result → number ≡ factor *ℤ other }
    ensures not_times { IsFalse result → ¬ (number ≡ factor *ℤ other) }
{
    match factor.checked_mul(other) {
        Some(product) => product == number,
        None => false,
    }
}

// Whether the numbers are the others, each times the factor.
#[tactic(auto, using(rg_integers::proofs::Casts::casts))]
fn are_times(numbers: &[i128], factor: i128, others: &[i128]) -> bool
    ensures times { IsTrue result → AreTimes numbers.now factor others.now }
    ensures not_times { IsFalse result → ¬ AreTimes numbers.now factor others.now }
{
    if numbers.len() != others.len() {
        return false;
    }
    for j in 0..numbers.len() {
        if !is_times(numbers[j], factor, others[j]) {
            return false;
        }
    }
    true
}

// The scale times a bound, where it is in range.
#[tactic(auto, using(rg_integers::proofs::Casts::casts))]
fn scale_bound(scale: i128, bound: i64) -> Option<i128>
    ensures value { IfSome result (λ z. z ≡ scale *ℤ bound) }
    ensures in_range { IfSome result InRange }
    ensures none { IfNone result (¬ InRange (scale *ℤ bound)) }
{
    whole_product(scale, i128::from(bound)).ok()
}

// Whether it is in range.
fn fits(scale: i128, bound: i64) -> bool
    ensures fits { IsTrue result → InRange (scale *ℤ bound) }
    ensures passes { IsFalse result → ¬ InRange (scale *ℤ bound) }
{
    match scale_bound(scale, bound) {
        Some(_) => true,
        None => false,
    }
}

fn is_in_range(numbers: &[i128]) -> bool
    ensures in_range { IsTrue result → All InRange numbers.now }
    ensures not_in_range { IsFalse result → ¬ All InRange numbers.now }
{
    numbers
        .iter()
        .all(|z| z.unsigned_abs() <= i128::MAX.unsigned_abs())
}

// The row with this number after the first `before` rows.
fn row_after<'a>(system: &JoinedSystem<'a>, before: u32, row: u32) -> Option<&'a Row>
    ensures within { IfSome result (λ r. before + row < length system.now.rows) }
    ensures value { IfSome result (λ r. linear_row r.now ≡ row_at system.now (before + row)) }
    ensures well_formed { IfSome result (λ r. IsWellFormed system.now) }
    ensures none { IfNone result (length system.now.rows ≤ before + row) }
{
    let count = system.count();
    let Some(i) = before.checked_add(row) else {
        return None;
    };
    if i < count { Some(system.row(i)) } else { None }
}

// Whether it is a form of the system, and its row is there.
fn is_form(system: &JoinedSystem<'_>, form: &Bounded, before: u32) -> bool
    ensures form { IsTrue result → IsFormOf system.now before form.now }
    ensures no_form { IsFalse result → before + form.now.row < length system.now.rows → ¬ IsFormOf system.now before form.now }
{
    let Some(row) = row_after(system, before, form.row) else {
        return false;
    };
    if form.coeffs.len() != system.columns() as usize {
        return false;
    }
    if form.scale <= 0 || form.low > form.high || form.times < 0 {
        return false;
    }
    if !fits(form.scale, form.low) || !fits(form.scale, form.high) {
        return false;
    }
    is_in_range(&form.coeffs) && are_times(&form.coeffs, form.times, &row.coeffs)
}

// Whether the form's own row bounds it from below, in numbers in range.
fn is_low(system: &JoinedSystem<'_>, form: &Bounded, before: u32) -> bool
    requires low_in_range { InRange (form.now.scale *ℤ form.now.low) }
    ensures low { IsTrue result → IsLow system.now before form.now }
    ensures not_low { IsFalse result → ¬ IsLow system.now before form.now }
{
    let Some(row) = row_after(system, before, form.row) else {
        return false;
    };
    let Ok(product) = whole_product(form.times, row.constant) else {
        return false;
    };
    let Some(low) = scale_bound(form.scale, form.low) else {
        return false;
    };
    let most = -low;
    product <= most
}

// Whether the row bounds the form from above, in numbers in range.
fn is_top(system: &JoinedSystem<'_>, form: &Bounded, before: u32, top: Top) -> bool
    requires form { IsFormOf system.now before form.now }
    ensures top { IsTrue result → IsTop system.now form.now (before + top.row) top.times }
    ensures not_top { IsFalse result → ¬ IsTop system.now form.now (before + top.row) top.times }
{
    if top.times <= 0 {
        return false;
    }
    let Some(row) = row_after(system, before, top.row) else {
        return false;
    };
    let Some(high) = scale_bound(form.scale, form.high) else {
        return false;
    };
    let Ok(most) = whole_product(top.times, high) else {
        return false;
    };
    let factor = -top.times;
    row.constant <= most && are_times(&row.coeffs, factor, &form.coeffs)
}

// Whether single rows show that the form lies between its bounds.
fn is_by_rows(system: &JoinedSystem<'_>, form: &Bounded, before: u32, top: Top) -> bool
    ensures shown { IsTrue result → IsByRows system.now before form.now top }
    ensures not_shown { IsFalse result → ¬ IsByRows system.now before form.now top }
{
    is_form(system, form, before)
        && is_low(system, form, before)
        && is_top(system, form, before, top)
}

// The same of all forms.
fn are_by_rows(system: &JoinedSystem<'_>, forms: &[Bounded], before: u32, tops: &[Top]) -> bool
    requires one_each { length tops.now ≡ length forms.now }
    ensures shown { IsTrue result → EachIsByRows system.now before forms.now tops.now }
    ensures not_shown { IsFalse result → ¬ EachIsByRows system.now before forms.now tops.now }
{
    for (f, form) in forms.iter().enumerate() {
        if !is_by_rows(system, form, before, tops[f]) {
            return false;
        }
    }
    true
}

// How far apart the bounds are.
#[tactic(auto, using(rg_integers::proofs::Casts::casts))]
fn gap(low: i64, high: i64) -> u64
    ensures { low ≤ℤ high → pos result ≡ high -ℤ low }
{
    high.abs_diff(low)
}

// How many splits the bounds of all forms allow, or None if the number doesn't fit.
fn room_of(forms: &[Bounded]) -> Option<u64>
    requires ordered { All (λ b. b.low ≤ℤ b.high) forms.now }
    ensures value { IfSome result (λ n. n ≡ room (forms_of forms.now) []) }
    ensures none { IfNone result (2 ^ 64 ≤ room (forms_of forms.now) []) }
{
    let mut room = 0u64;
    for form in forms {
        let Some(more) = room.checked_add(gap(form.low, form.high)) else {
            return None;
        };
        room = more;
    }
    Some(room)
}

/// Returns whether `solve_whole` may be called, as far as single rows show: each form is one of the system, its own
/// row bounds it from below, and its top row from above, all in numbers in range. There is one top for each form, and
/// there are up to 1,000 forms. Columns, rows and the splits that the bounds allow are fewer than 2^32.
pub fn can_branch(system: &System, forms: &[Bounded], tops: &[Top]) -> bool
    ensures can { IsTrue result → CanBranch system.now 0 forms.now }
    ensures shown { IsTrue result → AreByRows system.now 0 forms.now tops.now }
    ensures not_shown { IsFalse result → ¬ AreByRows system.now 0 forms.now tops.now }
{
    can_branch_after(&JoinedSystem::of(system), forms, 0, tops)
}

/// Returns the same, for `Solver::solve_whole`, where the rows that the forms and their tops name are counted after
/// the first `before` rows of the system.
pub fn can_branch_after(
    system: &JoinedSystem<'_>,
    forms: &[Bounded],
    before: u32,
    tops: &[Top],
) -> bool
    ensures can { IsTrue result → CanBranch system.now before forms.now }
    ensures shown { IsTrue result → AreByRows system.now before forms.now tops.now }
    ensures not_shown { IsFalse result → ¬ AreByRows system.now before forms.now tops.now }
{
    if tops.len() != forms.len() || forms.len() > MOST_FORMS {
        return false;
    }
    if !are_by_rows(system, forms, before, tops) {
        return false;
    }
    let Some(room) = room_of(forms) else {
        return false;
    };
    let variables = u64::from(system.columns()) + u64::from(system.count());
    room <= u64::from(u32::MAX) - variables
}

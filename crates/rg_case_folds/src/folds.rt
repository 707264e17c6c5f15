//! Each fold has one result, so a call whose value or shown numbers are a result of its fold answers
//! exactly.

ghost use Rattle.std.specs.Prelude.{◌≡◌, ◌≢◌, ℕ, ◌+◌, ◌<◌, ℤ, List, ◌∷◌, Ok, Result, pos};
ghost use Rattle.rg_theory.specs.System.{System};
ghost use Rattle.rg_theory.specs.Class.{IsMultiple};
ghost use Rattle.rg_integers.specs.Range.{InRange};
ghost use Rattle.rg_cert_meaning.specs.Expression.{Expression};
ghost use Rattle.rg_cert_meaning.specs.declared.RowName.{RowName};
ghost use Rattle.rg_cert_meaning.specs.Row.{Side};
ghost use Rattle.rg_linear.specs.Branching.{Weight, SplitSide};
ghost use Rattle.rg_fraction.specs.Fractions.{numerator_of, denominator_of, IsValue, IsSum, IsProduct};
ghost use Rattle.rg_case_folds.specs.Setting.{Setting, CaseSetting};
ghost use Rattle.rg_folds.specs.Fold.{IsOne, Ratio, whole, ratio_of, shown_result, and_then, further, quotient, term, add, mul, multiple_of_all};
ghost use Rattle.rg_linear.specs.Cycle.{CycleBasis};
ghost use Rattle.rg_folds.specs.Substitution.{dependent_term, substitute_fold};
ghost use Rattle.rg_case_folds.specs.Rewriting.{row_fold, CaseSystem, system_fold};
ghost use Rattle.rg_case_folds.specs.Placing.{missing, place_fold};
ghost use Rattle.rg_case_folds.specs.Spreading.{Share, leaf_fold, spread_fold};

use rg_fraction::Fraction;
use rg_integers::Wide;
use rg_theory::{Arc, Problem};

/// Law: each step has one result at most.
pub fn steps_are_one()
    ensures quotient { (n d : ℤ) → IsOne (quotient n d) }
    ensures term { (t : Wide) → IsOne (term t) }
    ensures sum { (f g : Ratio) → IsOne (add f g) }
    ensures product { (f g : Ratio) → IsOne (mul f g) }
    ensures multiple { (numbers : List ℤ) → IsOne (multiple_of_all numbers) }
{}

/// Law: what a call of `Fraction` returns is the result of its step.
pub fn calls_are_steps()
    ensures new { (f : Fraction) (n d : ℤ) → d ≢ pos 0 → IsValue f n d → quotient n d (Ok (ratio_of f)) }
    ensures add { (f g : Fraction) (r : Result Fraction Wide) → IsSum (numerator_of f) (denominator_of f) (numerator_of g) (denominator_of g) r → add (ratio_of f) (ratio_of g) (shown_result ratio_of r) }
    ensures mul { (f g : Fraction) (r : Result Fraction Wide) → IsProduct (numerator_of f) (denominator_of f) (numerator_of g) (denominator_of g) r → mul (ratio_of f) (ratio_of g) (shown_result ratio_of r) }
{}

/// Law: a count of 0 and an entry of 0 make a term of value 0, which is never out of range and leaves a sum as it is.
/// So a fold that sums may pass over such items.
pub fn zeros_add_nothing()
    ensures count { (n d : ℤ) → d ≢ pos 0 → InRange n → InRange d → and_then (quotient n d) (mul (whole (pos 0))) (Ok (whole (pos 0))) }
    ensures entry { (d count : ℤ) → d ≢ pos 0 → InRange count → and_then (quotient (pos 0) d) (mul (whole count)) (Ok (whole (pos 0))) }
    ensures sum { (f : Fraction) → add (ratio_of f) (whole (pos 0)) (Ok (ratio_of f)) }
    ensures coefficient { (basis : CycleBasis) (counts : ℕ → ℤ) (f t : ℕ) (rest : List ℕ) (sum : Fraction) (r : Result Ratio Wide) → dependent_term basis counts f t (Ok (whole (pos 0)))
        → further add (dependent_term basis counts f) (ratio_of sum) rest r → further add (dependent_term basis counts f) (ratio_of sum) (t ∷ rest) r }
{}

/// Law: the folds of rows, of a case's system, of a place and of a leaf have one result at most each.
pub fn folds_are_one()
    ensures substitute { (labels : ℕ) (basis : CycleBasis) (counts : ℕ → ℤ) → IsOne (substitute_fold labels basis counts) }
    ensures row { (s : Setting) (name : RowName) (e : Expression) → IsOne (row_fold s name e) }
    ensures system { (s : CaseSetting) → IsOne (system_fold s) }
    ensures place { (s : Setting) (problem : Problem) (start : Ratio) (value : ℕ → Ratio) → IsOne (place_fold s problem start value) }
    ensures leaf { (lts : System) (tree : List Arc) (basis : CycleBasis) (expression : RowName → Expression) (shares : List Share) → IsOne (leaf_fold lts tree basis expression shares) }
    ensures spread { (s : CaseSetting) (case : CaseSystem) (sides : List SplitSide) (above : List Side) (weights : List Weight) → IsOne (spread_fold s case sides above weights) }
{}

/// Law: so many more make a number a multiple, and no fewer do.
pub fn missing_is_least()
    ensures { (n m : ℕ) → 0 < n → IsMultiple n (m + missing n m) × ((k : ℕ) → k < missing n m → ¬ IsMultiple n (m + k)) }
{}

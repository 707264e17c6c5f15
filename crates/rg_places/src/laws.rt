//! What is proved of the place of a point.
//! Each function here has an empty body: its contract is a law.

ghost use Rattle.std.specs.Prelude.{ℕ, List, Ok, ℤ};
ghost use Rattle.rg_theory.specs.Net.{Place};
ghost use Rattle.rg_linear.specs.System.{IsPoint, MeetsRows};
ghost use Rattle.rg_linear.specs.Branching.{SplitSide, BranchOutcome, node_system, Branching, FormsWhole};
ghost use Rattle.rg_case_folds.specs.Setting.{Setting, CaseSetting};
ghost use Rattle.rg_folds.specs.Fold.{IsOne, Ratio};
ghost use Rattle.rg_case_folds.specs.Shown.{IsLive, PointOf};
ghost use Rattle.rg_case_folds.specs.Rewriting.{CaseSystem, rows_of};
ghost use Rattle.rg_case_folds.specs.Placing.{place_fold};
ghost use Rattle.rg_case_folds.specs.Meaning.{IsCaseOver, AreEffects, MeetsCase};
ghost use Rattle.rg_case_folds.specs.Places.{AreFormsWhole, AreValuesOf, AreAtPoint, numbers_fold, PlaceIsMade};

use rg_theory::Problem;

/// Law: the place that is made from values that meet the case's system, and at which its forms are whole, is a region
/// of the class with the numbers made on the way to it, which are one list. It separates, and all its numbers are at
/// most 2^127 - 1.
pub fn place_is_region()
    ensures numbers { (s : Setting) (problem : Problem) (start : Ratio) (value : ℕ → Ratio) → IsOne (numbers_fold s problem start value) }
    ensures made { (s : CaseSetting) (case : CaseSystem) (start : Ratio) (value : ℕ → Ratio) (first : ℤ) (effect : ℕ → ℤ) (scale : ℤ) (place : Place)
        → IsCaseOver s case → IsLive s.lts s.problem → AreEffects s.lts s.tree s.basis effect → MeetsCase s.setting case first effect scale
        → AreFormsWhole s.setting case first effect scale → AreValuesOf s.lts s.basis start value first effect scale
        → place_fold s.setting s.problem start value (Ok place) → PlaceIsMade s.setting s.problem start value place }
{}

/// Law: so is the place of each point over the columns that meets every row of the case's system and has whole forms,
/// and that of the point that a branching finds.
pub fn points_make_places()
    ensures point { (s : CaseSetting) (case : CaseSystem) (scale : ℤ) (v : ℕ → ℤ) (start : Ratio) (value : ℕ → Ratio) (place : Place) → IsCaseOver s case
        → IsLive s.lts s.problem → IsPoint (rows_of case) scale v → MeetsRows (rows_of case) v → FormsWhole (rows_of case) case.forms scale v
        → AreAtPoint s.lts s.basis s.class scale v start value → place_fold s.setting s.problem start value (Ok place)
        → PlaceIsMade s.setting s.problem start value place }
    ensures found { (s : CaseSetting) (case : CaseSystem) (members : List ℕ) (sides : List SplitSide) (start : Ratio) (value : ℕ → Ratio) (place : Place)
        → IsCaseOver s case → IsLive s.lts s.problem → Branching (rows_of case) case.forms (BranchOutcome.found members sides)
        → PointOf s.lts s.basis s.class (node_system (rows_of case) case.forms sides) members start value → place_fold s.setting s.problem start value (Ok place)
        → PlaceIsMade s.setting s.problem start value place }
{}

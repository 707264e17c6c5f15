//! The four numbers shown of the chords' walk and of a case's rows are fixed.

ghost use Rattle.std.specs.Prelude.{◌≡◌};
ghost use Rattle.rg_theory.specs.System.{System};
ghost use Rattle.rg_case_folds.specs.Shown.{Shown, CycleShown, RowShown};

use rg_theory::Class;

/// Law: the term of the walk is one, and so is the first step out of range of a case's rows.
pub fn shown_is_one()
    ensures cycle { (lts : System) (w w' : Shown) → CycleShown lts w → CycleShown lts w' → w.wide ≡ w'.wide }
    ensures row { (lts : System) (class : Class) (w w' : Shown) → RowShown lts class w → RowShown lts class w' → w.problem ≡ w'.problem → w.case_number ≡ w'.case_number → w.wide ≡ w'.wide }
{}

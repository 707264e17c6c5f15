//! What the rows of a case's system mean for the tokens of states and the effects of labels.
//! Each function here has an empty body: its contract is a law.
//!
//! A region is given by a number of the initial state and the effects of the labels (Badouel,
//! Bernardinello and Darondeau, *Petri Net Synthesis*). The system of a case has columns for Start, that
//! number, and for the effects that are free, and rows for the named rows of the case.
ghost use Rattle.std.specs.Prelude.{◌≡◌, ◌⊎◌, ◌↔◌, ℕ, ◌+◌, ◌<◌, ◌≤◌, IsTrue, IsFalse, List, [], ◌∷◌, length, slice_index_or, Contains, Ok, ℤ, pos, ◌*ℤ◌, ◌<ℤ◌, ◌≤ℤ◌};
ghost use Rattle.rg_theory.specs.Limits.{most_states};
ghost use Rattle.rg_theory.specs.System.{arc, System, HasArc, IsInRange, IsAllReachable, states, labels};
ghost use Rattle.rg_cert_meaning.specs.Expression.{plus};
ghost use Rattle.rg_cert_meaning.specs.declared.Variable.{Variable};
ghost use Rattle.rg_cert_meaning.specs.Row.{RowStands, row_expression, cases_of, KeepsRows, form_variable, step_of};
ghost use Rattle.rg_cert_meaning.specs.declared.RowName.{RowName};
ghost use Rattle.rg_cert_meaning.specs.declared.Form.{Form as SplitForm};
ghost use Rattle.rg_cert_meaning.specs.Refutes.{IsSeparationProblem, IsSeparable};
ghost use Rattle.rg_integers.specs.Range.{InRange};
ghost use Rattle.rg_integers.specs.Sum.{sum_below, number_at, dot};
ghost use Rattle.rg_linear.specs.System.{IsPoint, MeetsRows};
ghost use Rattle.rg_linear.specs.Branching.{Form, form_at, AreBounded};
ghost use Rattle.rg_linear.specs.Cycle.{FollowsRelations, CycleBasis};
ghost use Rattle.rg_theory.specs.Tree.{IsTree};
ghost use Rattle.rg_case_folds.specs.Setting.{Setting, CaseSetting, case_at};
ghost use Rattle.rg_case_folds.specs.Potentials.{potential};
ghost use Rattle.rg_case_folds.specs.Chords.{chord_system, IsBasis};
ghost use Rattle.rg_case_folds.specs.Shown.{IsLive};
ghost use Rattle.rg_case_folds.specs.Rewriting.{has_label, names_of, free_columns, has_start, CaseSystem, rows_of, form_fold, system_fold};
ghost use Rattle.rg_case_folds.specs.Values.{NamesLabels, numbers_along, column_values};
ghost use Rattle.rg_case_folds.specs.Meaning.{IsLeftOut, RowHolds, KeepsRowsOver, KeepsAllButTokens, shifted, IsCaseOver, AreEffects, MeetsCase, AgreeOnUsed, used_effect, first_column, AreGivenBy, HasPoint, HasSolution, HasWholeSolutionIn};
ghost use Rattle.rg_case_folds.specs.FormRows.{IsMultipleOfRow};
ghost use Rattle.rg_case_folds.specs.WholeParts.{AreWholeParts, HasWholePoint, SomeCaseHasWholePoint};
ghost use Rattle.rg_cert_meaning.specs.declared.RowName.TheVariants as row_name;
ghost use Rattle.rg_cert_meaning.specs.declared.Form.TheVariants as split_form;
ghost use Rattle.rg_cert_meaning.specs.declared.Variable.TheVariants.{Tokens};

use rg_theory::{Arc, Class, Problem};

/// Law: the names of a case's rows apply in the case and name labels of the system, and each row that applies is
/// among them or left out.
pub fn rows_are_named()
    ensures stand { (lts : System) (class : Class) (problem : Problem) (number : ℕ) (name : RowName) → Contains (names_of lts class problem number) name → RowStands lts class problem number [] name }
    ensures labels { (lts : System) (class : Class) (problem : Problem) (number : ℕ) (name : RowName) → IsSeparationProblem lts problem → Contains (names_of lts class problem number) name → NamesLabels (labels lts) (row_expression lts class problem number [] name).terms }
    ensures others { (lts : System) (class : Class) (problem : Problem) (number : ℕ) (name : RowName) → IsInRange lts → RowStands lts class problem number [] name → Contains (names_of lts class problem number) name ⊎ IsLeftOut lts class name }
{}

/// Law: Start and effects that follow the relations give numbers along the tree that keep every arc. If Start is a
/// column, they keep all rows of the case exactly if Start and the free effects meet its system; if it is none, all
/// rows but those of tokens, and some shift of all numbers keeps these too: each that leaves no state below 0.
pub fn start_and_free_effects_mean()
    ensures arcs { (s : CaseSetting) (case : CaseSystem) (start : ℤ) (effect : ℕ → ℤ) (scale : ℤ) (q t q' : ℕ) → IsCaseOver s case
        → AreEffects s.lts s.tree s.basis effect → HasArc s.lts q t q'
        → RowHolds s.lts s.class s.problem s.number scale (numbers_along s.lts s.tree start effect) (row_name.Arc (arc q t q')) }
    ensures start { (s : CaseSetting) (case : CaseSystem) (start : ℤ) (effect : ℕ → ℤ) (scale : ℤ) → IsCaseOver s case → AreEffects s.lts s.tree s.basis effect
        → pos 0 <ℤ scale → IsTrue (has_start s.class)
        → MeetsCase s.setting case start effect scale ↔ KeepsRowsOver s.lts s.class s.problem s.number scale (numbers_along s.lts s.tree start effect) }
    ensures no_start { (s : CaseSetting) (case : CaseSystem) (start : ℤ) (effect : ℕ → ℤ) (scale : ℤ) → IsCaseOver s case → AreEffects s.lts s.tree s.basis effect
        → pos 0 <ℤ scale → IsFalse (has_start s.class)
        → MeetsCase s.setting case start effect scale ↔ KeepsAllButTokens s.lts s.class s.problem s.number scale (numbers_along s.lts s.tree start effect) }
    ensures shift { (s : CaseSetting) (case : CaseSystem) (start : ℤ) (effect : ℕ → ℤ) (scale by : ℤ) → IsCaseOver s case → IsFalse (has_start s.class)
        → KeepsAllButTokens s.lts s.class s.problem s.number scale (numbers_along s.lts s.tree start effect)
        → ((q : ℕ) → q < states s.lts → pos 0 ≤ℤ shifted by (numbers_along s.lts s.tree start effect) (Tokens q))
        → KeepsRowsOver s.lts s.class s.problem s.number scale (shifted by (numbers_along s.lts s.tree start effect)) }
    ensures some_shift { (lts : System) (x : Variable → ℤ) → (by : ℤ) × ((q : ℕ) → q < states lts → pos 0 ≤ℤ shifted by x (Tokens q)) }
    ensures whole { (lts : System) (class : Class) (problem : Problem) (number : ℕ) (x : Variable → ℤ) → KeepsRowsOver lts class problem number (pos 1) x ↔ KeepsRows lts class problem number x }
{}

/// Law: a label without an arc has a free effect, and no relation names it.
pub fn unused_labels_are_free()
    ensures free { (lts : System) (tree : List Arc) (basis : CycleBasis) (t : ℕ) → IsInRange lts → IsAllReachable lts → IsTree lts tree → IsBasis lts tree basis → t < labels lts → IsFalse (has_label t lts.arcs) → Contains basis.members t }
    ensures unnamed { (lts : System) (tree : List Arc) (basis : CycleBasis) (t u : ℕ) → IsInRange lts → IsAllReachable lts → IsTree lts tree → IsBasis lts tree basis → u < labels lts → IsFalse (has_label u lts.arcs) → (basis.relation t).coefficient u ≡ pos 0 }
{}

/// Law: numbers that keep all rows of a case are given along the tree by the number of the initial state and their
/// own effects, which follow the relations; only the effects of labels without an arc may differ. With 0 for these
/// they keep all rows still, so they meet the case's system.
pub fn solutions_are_given()
    ensures follow { (s : CaseSetting) (case : CaseSystem) (x : Variable → ℤ) (effect : ℕ → ℤ) (scale : ℤ) → IsCaseOver s case
        → KeepsRowsOver s.lts s.class s.problem s.number scale x → AgreeOnUsed s.lts x effect
        → FollowsRelations (chord_system s.lts s.tree s.basis.kept) s.basis.members effect }
    ensures numbers { (s : CaseSetting) (case : CaseSystem) (x : Variable → ℤ) (effect : ℕ → ℤ) (scale : ℤ) (q : ℕ) → IsCaseOver s case
        → KeepsRowsOver s.lts s.class s.problem s.number scale x → AgreeOnUsed s.lts x effect → q < states s.lts
        → x (Tokens q) ≡ potential s.lts s.tree (x (Tokens s.lts.initial)) effect q }
    ensures effects { (s : CaseSetting) (case : CaseSystem) (x : Variable → ℤ) (scale : ℤ) → IsCaseOver s case → KeepsRowsOver s.lts s.class s.problem s.number scale x
        → AreEffects s.lts s.tree s.basis (used_effect s.lts x) }
    ensures rows { (s : CaseSetting) (case : CaseSystem) (x : Variable → ℤ) (scale : ℤ) → IsCaseOver s case → IsLive s.lts s.problem → pos 0 <ℤ scale
        → KeepsRowsOver s.lts s.class s.problem s.number scale x
        → KeepsRowsOver s.lts s.class s.problem s.number scale (numbers_along s.lts s.tree (x (Tokens s.lts.initial)) (used_effect s.lts x)) }
    ensures meets { (s : CaseSetting) (case : CaseSystem) (x : Variable → ℤ) (scale : ℤ) → IsCaseOver s case → IsLive s.lts s.problem → pos 0 <ℤ scale
        → KeepsRowsOver s.lts s.class s.problem s.number scale x → MeetsCase s.setting case (x (Tokens s.lts.initial)) (used_effect s.lts x) scale }
{}

/// Law: the columns of a case's system are Start, where it is one, and the effects of the free labels with an arc, in
/// order. A row's value at a point is its value at them.
pub fn columns_are_values()
    ensures count { (s : CaseSetting) (case : CaseSystem) (start : ℤ) (effect : ℕ → ℤ) → system_fold s (Ok case)
        → length (column_values s.lts s.basis s.class start effect) ≡ case.columns }
    ensures start { (lts : System) (basis : CycleBasis) (class : Class) (start : ℤ) (effect : ℕ → ℤ) → IsTrue (has_start class) → number_at (column_values lts basis class start effect) 0 ≡ start }
    ensures effects { (lts : System) (basis : CycleBasis) (class : Class) (start : ℤ) (effect : ℕ → ℤ) (i : ℕ) → i < length (free_columns lts basis) → number_at (column_values lts basis class start effect) (first_column class + i) ≡ effect (slice_index_or (free_columns lts basis) i 0) }
    ensures sum { (s : CaseSetting) (case : CaseSystem) (start : ℤ) (effect : ℕ → ℤ) (coeffs : List ℤ) → system_fold s (Ok case)
        → dot coeffs (column_values s.lts s.basis s.class start effect) ≡ sum_below case.columns (λ j. number_at coeffs j *ℤ number_at (column_values s.lts s.basis s.class start effect) j) }
{}

/// Law: each point over the columns gives Start and effects, over a multiple of its scale and one choice for each
/// multiple, and meets the rows exactly if they meet the case's system; and Start and effects are given by a point.
/// So some point meets all rows exactly if some numbers over a scale keep all rows that apply in the case.
pub fn points_are_exact()
    ensures give { (s : CaseSetting) (case : CaseSystem) (v : ℕ → ℤ) → IsCaseOver s case
        → (times : ℤ) × (start : ℤ) × (effect : ℕ → ℤ) × AreGivenBy s.setting case v times start effect }
    ensures one { (s : CaseSetting) (case : CaseSystem) (v : ℕ → ℤ) (times start start' : ℤ) (effect effect' : ℕ → ℤ) → IsCaseOver s case
        → AreGivenBy s.setting case v times start effect → AreGivenBy s.setting case v times start' effect'
        → (IsTrue (has_start s.class) → start ≡ start') × ((t : ℕ) → t < labels s.lts → effect t ≡ effect' t) }
    ensures given { (s : CaseSetting) (case : CaseSystem) (start : ℤ) (effect : ℕ → ℤ) (scale : ℤ) → IsCaseOver s case → AreEffects s.lts s.tree s.basis effect
        → pos 0 <ℤ scale → (v : ℕ → ℤ) × IsPoint (rows_of case) scale v × AreGivenBy s.setting case v (pos 1) start effect }
    ensures meets { (s : CaseSetting) (case : CaseSystem) (v : ℕ → ℤ) (scale times start : ℤ) (effect : ℕ → ℤ) → IsCaseOver s case → IsPoint (rows_of case) scale v
        → AreGivenBy s.setting case v times start effect → MeetsRows (rows_of case) v ↔ MeetsCase s.setting case start effect (times *ℤ scale) }
    ensures exact { (s : CaseSetting) (case : CaseSystem) → IsCaseOver s case → IsLive s.lts s.problem → HasPoint case ↔ HasSolution s.lts s.class s.problem s.number }
{}

/// Law: the form of a split, with its scale, has the value of the tokens or of the effect that Start and the effects
/// give it, by its steps; that of the start is Start alone, once. The forms of a case lie between their bounds
/// wherever its rows are met; each has the coefficients of a row, times its factor; and its bounds times its scale
/// are in range.
pub fn forms_are_exact()
    ensures value { (s : CaseSetting) (case : CaseSystem) → IsCaseOver s case → (split : SplitForm) (form : Form) (start : ℤ) (effect : ℕ → ℤ)
        → form_fold s.setting split (Ok form) → NamesLabels (labels s.lts) (plus (form_variable s.lts.initial split) ∷ [])
        → (IsFalse (has_start s.class) → start ≡ pos 0) → AreEffects s.lts s.tree s.basis effect
        → pos (step_of s.class split) *ℤ dot form.coeffs (column_values s.lts s.basis s.class start effect) ≡ form.scale *ℤ numbers_along s.lts s.tree start effect (form_variable s.lts.initial split) }
    ensures start { (s : Setting) (form : Form) → IsTree s.lts s.tree → form_fold s split_form.Start (Ok form) → form.scale ≡ pos (step_of s.class split_form.Start) }
    ensures bounded { (s : CaseSetting) (case : CaseSystem) → IsCaseOver s case → AreBounded (rows_of case) case.forms }
    ensures multiple { (s : CaseSetting) (case : CaseSystem) → IsCaseOver s case → (f : ℕ) → f < length case.forms
        → (row : ℕ) × (times : ℤ) × IsMultipleOfRow (rows_of case) (form_at case.forms f) row times }
    ensures fit { (s : CaseSetting) (case : CaseSystem) → IsCaseOver s case → states s.lts ≤ most_states → (f : ℕ) → f < length case.forms
        → InRange ((form_at case.forms f).scale *ℤ (form_at case.forms f).low) × InRange ((form_at case.forms f).scale *ℤ (form_at case.forms f).high) }
{}

/// Law: in every class the system of a case has a point with whole forms exactly where whole numbers keep all its
/// rows; so some case has one exactly where some region of the class separates the problem.
pub fn whole_points_separate()
    ensures solution { (lts : System) (class : Class) (problem : Problem) (number : ℕ) → HasWholeSolutionIn lts class problem number → HasSolution lts class problem number }
    ensures whole { (s : CaseSetting) (case : CaseSystem) → IsCaseOver s case → IsLive s.lts s.problem → HasWholePoint case ↔ HasWholeSolutionIn s.lts s.class s.problem s.number }
    ensures separable { (s : Setting) (problem : Problem) (case : ℕ → CaseSystem) → IsLive s.lts problem → 0 < cases_of s.lts s.class problem
        → ((number : ℕ) → number < cases_of s.lts s.class problem → IsCaseOver (case_at s problem number) (case number))
        → SomeCaseHasWholePoint s.lts s.class problem case ↔ IsSeparable s.lts s.class problem }
{}

/// Law: numbers over a scale that keep all rows of a case, whose effects of labels with an arc are whole and whose
/// tokens all have one fractional part, keep them as whole numbers less that part, in every class.
pub fn whole_parts_keep_rows()
    ensures { (lts : System) (class : Class) (problem : Problem) (number : ℕ) (scale : ℤ) (x y : Variable → ℤ) → IsInRange lts → IsSeparationProblem lts problem
        → IsLive lts problem → AreWholeParts lts scale x y → KeepsRowsOver lts class problem number scale x → KeepsRowsOver lts class problem number (pos 1) y }
{}

//! A row over Start and the free labels is a positive multiple of the named row that it represents.

ghost use Rattle.std.specs.Prelude.{◌≡◌, ◌↔◌, ℕ, ℤ, List, [], Contains, false, Ok, pos, ◌+ℤ◌, ◌*ℤ◌, ◌≤ℤ◌, ◌<ℤ◌};
ghost use Rattle.rg_theory.specs.System.{System, labels};
ghost use Rattle.rg_cert_meaning.specs.Expression.{Term, Expression, value_in};
ghost use Rattle.rg_cert_meaning.specs.Row.{row_expression};
ghost use Rattle.rg_cert_meaning.specs.declared.RowName.{RowName};
ghost use Rattle.rg_integers.specs.Sum.{sum_below, dot};
ghost use Rattle.rg_linear.specs.Cycle.{FollowsRelations};
ghost use Rattle.rg_case_folds.specs.Setting.{Setting, CaseSetting};
ghost use Rattle.rg_case_folds.specs.Chords.{chord_system, IsBasis};
ghost use Rattle.rg_case_folds.specs.Rewriting.{start_of, count_of, has_start, Scaled, terms_fold, KeptRow, row_fold, CaseSystem, names_of, system_fold};
ghost use Rattle.rg_case_folds.specs.Values.{NamesLabels, numbers_along, column_values, UnusedAreZero, RowIsMet, NameIsMet};

use rg_theory::Arc;

/// Law: an expression is worth its coefficient of Start and its counts of labels.
pub fn expression_is_rewritten()
    ensures { (lts : System) (tree : List Arc) (start : ℤ) (effect : ℕ → ℤ) (terms : List Term) → NamesLabels (labels lts) terms → value_in (numbers_along lts tree start effect) terms ≡ (start_of terms *ℤ start) +ℤ sum_below (labels lts) (λ t. count_of tree terms t *ℤ effect t) }
{}

/// Law: at Start and effects that follow the relations, over one scale, a row's value times the factor's bottom is
/// that of its named row times the factor's top; both are positive, so the row is met exactly where its named row is.
/// The numbers of a form are worth its value times its scale.
pub fn row_is_exact()
    ensures value { (s : Setting) (name : RowName) (e : Expression) (start : ℤ) (effect : ℕ → ℤ) (scale : ℤ) (out : KeptRow) → IsBasis s.lts s.tree s.basis
        → NamesLabels (labels s.lts) e.terms → (has_start s.class ≡ false → start ≡ pos 0)
        → FollowsRelations (chord_system s.lts s.tree s.basis.kept) s.basis.members effect → UnusedAreZero s.lts effect → row_fold s name e (Ok out)
        → out.factor.bottom *ℤ (dot out.row.coeffs (column_values s.lts s.basis s.class start effect) +ℤ (out.row.constant *ℤ scale)) ≡ out.factor.top *ℤ (value_in (numbers_along s.lts s.tree start effect) e.terms +ℤ (e.constant *ℤ scale)) }
    ensures factor { (s : Setting) (name : RowName) (e : Expression) (out : KeptRow) → row_fold s name e (Ok out) → (pos 0 <ℤ out.factor.top) × (pos 0 <ℤ out.factor.bottom) }
    ensures met { (s : Setting) (name : RowName) (e : Expression) (start : ℤ) (effect : ℕ → ℤ) (scale : ℤ) (out : KeptRow) → IsBasis s.lts s.tree s.basis
        → NamesLabels (labels s.lts) e.terms → (has_start s.class ≡ false → start ≡ pos 0)
        → FollowsRelations (chord_system s.lts s.tree s.basis.kept) s.basis.members effect → UnusedAreZero s.lts effect → row_fold s name e (Ok out) → (pos 0
        ≤ℤ (dot out.row.coeffs (column_values s.lts s.basis s.class start effect) +ℤ (out.row.constant *ℤ scale))) ↔ (pos 0
        ≤ℤ (value_in (numbers_along s.lts s.tree start effect) e.terms +ℤ (e.constant *ℤ scale))) }
    ensures form { (s : Setting) (terms : List Term) (start : ℤ) (effect : ℕ → ℤ) (scaled : Scaled) → IsBasis s.lts s.tree s.basis → NamesLabels (labels s.lts) terms
        → (has_start s.class ≡ false → start ≡ pos 0) → FollowsRelations (chord_system s.lts s.tree s.basis.kept) s.basis.members effect → UnusedAreZero s.lts effect
        → terms_fold s terms (Ok scaled)
        → dot scaled.numbers (column_values s.lts s.basis s.class start effect) ≡ scaled.multiple *ℤ value_in (numbers_along s.lts s.tree start effect) terms }
{}

/// Law: the rows of a case's system are met exactly where its named rows are, but those of arcs and splits.
pub fn system_is_exact()
    ensures { (s : CaseSetting) (start : ℤ) (effect : ℕ → ℤ) (scale : ℤ) (case : CaseSystem) → IsBasis s.lts s.tree s.basis
        → ((name : RowName) → Contains (names_of s.lts s.class s.problem s.number) name → NamesLabels (labels s.lts) (row_expression s.lts s.class s.problem s.number [] name).terms)
        → pos 0 <ℤ scale → (has_start s.class ≡ false → start ≡ pos 0) → FollowsRelations (chord_system s.lts s.tree s.basis.kept) s.basis.members effect
        → UnusedAreZero s.lts effect → system_fold s (Ok case)
        → ((k : KeptRow) → Contains case.kept k → RowIsMet (column_values s.lts s.basis s.class start effect) scale k)
        ↔ ((name : RowName) → Contains (names_of s.lts s.class s.problem s.number) name → NameIsMet s.lts s.tree start effect scale (row_expression s.lts s.class s.problem s.number [] name)) }
{}

//! What multipliers of a node's system say of its named rows.
ghost use Rattle.std.specs.Prelude.{ℕ, ◌^◌, ◌<◌, ◌≤◌, ℤ, List, [], All, Ok, length};
ghost use Rattle.rg_cert_meaning.specs.Row.{RowStands, row_expression};
ghost use Rattle.rg_linear.specs.System.{AreFarkasMultipliers};
ghost use Rattle.rg_linear.specs.Branching.{weights_from, SplitSide, node_system};
ghost use Rattle.rg_case_folds.specs.Setting.{CaseSetting};
ghost use Rattle.rg_folds.specs.Fold.{each};
ghost use Rattle.rg_case_folds.specs.Rewriting.{CaseSystem, rows_of};
ghost use Rattle.rg_case_folds.specs.Shown.{IsLive, named_sides};
ghost use Rattle.rg_case_folds.specs.Spreading.{Share, share_fold};
ghost use Rattle.rg_case_folds.specs.Meaning.{IsCaseOver};
ghost use Rattle.rg_cert_data.specs.Certificates.{IsRowNameOf};
ghost use Rattle.rg_farkas.specs.Refuting.{SharesRefute};

/// Law: if multipliers refute a node's system, the case's with the rows of the splits' sides, its named rows apply
/// below these sides, name states and labels of the system and sides, and refute: each row whose multiplier isn't 0,
/// times multiplier and factor.
pub fn node_multipliers_refute()
    ensures stand { (s : CaseSetting) (case : CaseSystem) (sides : List SplitSide) (multiplier : ℕ → ℤ) (shares : List Share) → IsCaseOver s case
        → All (λ side. side.form < length case.forms) sides
        → each (share_fold case sides (named_sides s.lts s.class s.problem sides)) (weights_from multiplier 0 (length (node_system (rows_of case) case.forms sides).rows)) (Ok shares)
        → All (λ share. RowStands s.lts s.class s.problem s.number (named_sides s.lts s.class s.problem sides) share.name) shares }
    ensures names { (s : CaseSetting) (case : CaseSystem) (sides : List SplitSide) (multiplier : ℕ → ℤ) (shares : List Share) → IsCaseOver s case
        → All (λ side. side.form < length case.forms) sides → length sides ≤ 2 ^ 32
        → each (share_fold case sides (named_sides s.lts s.class s.problem sides)) (weights_from multiplier 0 (length (node_system (rows_of case) case.forms sides).rows)) (Ok shares)
        → All (λ share. IsRowNameOf s.lts share.name) shares }
    ensures refute { (s : CaseSetting) (case : CaseSystem) (sides : List SplitSide) (multiplier : ℕ → ℤ) (shares : List Share) → IsCaseOver s case
        → All (λ side. side.form < length case.forms) sides → IsLive s.lts s.problem → AreFarkasMultipliers (node_system (rows_of case) case.forms sides) multiplier
        → each (share_fold case sides (named_sides s.lts s.class s.problem sides)) (weights_from multiplier 0 (length (node_system (rows_of case) case.forms sides).rows)) (Ok shares)
        → SharesRefute s.lts (row_expression s.lts s.class s.problem s.number (named_sides s.lts s.class s.problem sides)) shares }
{}

//! What is wrong with a leaf.
ghost use Rattle.std.specs.Prelude.{◌↔◌, IfOk, IsTrue, MatchOption, map, All};
ghost use Rattle.rg_cert_meaning.specs.Refutes.{IsMultiplier, LeafRefutes, IsSeparationProblem};
ghost use Rattle.rg_cert_data.specs.Certificates.{IsRowOf};
ghost use Rattle.rg_cert_data.specs.Trees.{named_row};
ghost use Rattle.rg_verify.specs.Judged.{IsRightRow, IsDefectOf};
ghost use Rattle.rg_verify.specs.Settings.{StandsIn, expression_in};
ghost use Rattle.rg_verify.specs.Sides.{AreSidesOf};
ghost use Rattle.rg_verify.specs.Sums.{IsClear};

use crate::standing::stands;
use crate::sums::{Stop, Sums};
use crate::verdict::Defect;
use rg_cert_data::ProblemCase;
use rg_cert_meaning::{RowName, Side};
use rg_lts::Lts;
use rg_memory::NoMemory;

/// Returns what is wrong with the rows of a leaf; None where they refute. The sums are the table for the leaf, and
/// are 0 before and after.
pub(crate) fn leaf_defect(
    sums: &mut Sums,
    lts: &Lts,
    problem_case: ProblemCase,
    above: &[Side],
    rows: &[(RowName, i128)],
) -> Result<Option<Defect>, NoMemory>
    requires asked { IsSeparationProblem lts.now problem_case.problem }
    requires sides { AreSidesOf lts.now above.now }
    requires rows { All (IsRowOf lts.now) (map named_row rows.now) }
    requires clear { IsClear lts.now sums.old }
    ensures clear { IfOk result (λ _. IsClear lts.now sums.new) }
    ensures judged { IfOk result (λ o. MatchOption o
        (LeafRefutes (StandsIn lts.now problem_case above.now) (expression_in lts.now problem_case above.now) (map named_row rows.now))
        (IsDefectOf lts.now (StandsIn lts.now problem_case above.now) (expression_in lts.now problem_case above.now) (map named_row rows.now))) }
{
    if let Some(defect) = row_defect(lts, problem_case, above, rows) {
        return Ok(Some(defect));
    }
    let defect = match sums.add_rows(lts, problem_case, above, rows) {
        Ok(()) => sums.defect(),
        Err(Stop::Passes) => Some(Defect::SumPasses),
        Err(Stop::NoMemory) => return Err(NoMemory),
    };
    sums.clear();
    Ok(defect)
}

// What is wrong with the first row that isn't allowed there or needs a positive multiplier.
fn row_defect(
    lts: &Lts,
    problem_case: ProblemCase,
    above: &[Side],
    rows: &[(RowName, i128)],
) -> Option<Defect>
    requires asked { IsSeparationProblem lts.now problem_case.problem }
    requires rows { All (IsRowOf lts.now) (map named_row rows.now) }
    ensures { MatchOption result (All (IsRightRow (StandsIn lts.now problem_case above.now)) (map named_row rows.now)) (IsDefectOf lts.now (StandsIn lts.now problem_case above.now) (expression_in lts.now problem_case above.now) (map named_row rows.now)) }
{
    for (name, multiplier) in rows {
        if !stands(lts, problem_case, above, *name) {
            return Some(Defect::WrongRow);
        }
        if !is_multiplier(*name, *multiplier) {
            return Some(Defect::NotPositive);
        }
    }
    None
}

// Whether the number may be the multiplier of the row: any number of an arc's, and of others one that is at least 1.
fn is_multiplier(name: RowName, multiplier: i128) -> bool
    ensures { IsTrue result ↔ IsMultiplier multiplier name }
{
    match name {
        RowName::Arc(_) => true,
        _ => multiplier >= 1,
    }
}

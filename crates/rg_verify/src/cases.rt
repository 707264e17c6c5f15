//! What is wrong with a case.
ghost use Rattle.std.specs.Prelude.{◌≡◌, [], IfOk, MatchOption};
ghost use Rattle.rg_cert_meaning.specs.Refutes.{TreeRefutes, IsSeparationProblem};
ghost use Rattle.rg_cert_data.specs.Certificates.{case_tree, IsWhole, IsTreeOf};
ghost use Rattle.rg_verify.specs.Judged.{IsDefectIn};
ghost use Rattle.rg_verify.specs.Sides.{AreSidesOf};
ghost use Rattle.rg_verify.specs.Sums.{IsClear};
ghost use Rattle.rg_verify.specs.declared.verdict.Verdict.TheVariants as verdict;

use crate::leaves::leaf_defect;
use crate::sums::Sums;
use crate::verdict::{Defect, Verdict};
use rg_branch_trees::turn;
use rg_cert_data::{Case, Node, ProblemCase};
use rg_cert_meaning::Side;
use rg_lts::Lts;
use rg_memory::NoMemory;
use std::alloc::Global;

/// A defect and the node that has it.
#[derive(Clone, Copy, Debug)]
pub(crate) struct Found {
    pub node: u64,
    pub defect: Defect,
}

impl Found {
    /// Returns the verdict where the case has the number.
    pub(crate) fn refusal_of(self, case: u32) -> Verdict
        ensures { result ≡ verdict.Refused case self.node self.defect }
    {
        Verdict::Refused {
            case,
            node: self.node,
            defect: self.defect,
        }
    }
}

/// Returns the first leaf that doesn't refute, or split that may not be on its form, with its defect; None where all
/// leaves refute and all splits may be on their forms.
pub(crate) fn case_defect(
    alloc: Global,
    sums: &mut Sums,
    lts: &Lts,
    problem_case: ProblemCase,
    case: &Case,
) -> Result<Option<Found>, NoMemory>
    requires asked { IsSeparationProblem lts.now problem_case.problem }
    requires whole { IsWhole case.now }
    requires in_range { IsTreeOf lts.now (case_tree case.now) }
    requires clear { IsClear lts.now sums.old }
    ensures clear { IfOk result (λ _. IsClear lts.now sums.new) }
    ensures judged { IfOk result (λ o. MatchOption o (TreeRefutes lts.now problem_case.class problem_case.problem problem_case.number [] (case_tree case.now)) (λ f. IsDefectIn lts.now problem_case.class problem_case.problem problem_case.number (case_tree case.now) f.node f.defect)) }
{
    let mut above = Vec::new(alloc);
    for (node, content) in case.nodes.iter().enumerate() {
        match content {
            Node::Split(form, at) => {
                if !form.stands(problem_case.class) {
                    return Ok(Some(Found {
                        node: node as u64,
                        defect: Defect::WrongForm,
                    }));
                }
                above.push(Side {
                    form: *form,
                    at: *at,
                    high: false,
                })?
            }
            Node::Leaf(rows) => {
                if let Some(defect) = leaf_defect(sums, lts, problem_case, &above, rows)? {
                    return Ok(Some(Found {
                        node: node as u64,
                        defect,
                    }));
                }
                turn(&mut above);
            }
        }
    }
    Ok(None)
}

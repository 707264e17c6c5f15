//! The search for places that separate all problems.
ghost use Rattle.std.specs.Prelude.{◌≡◌, ◌≤◌, All, IfOk, IfSome};
ghost use Rattle.rg_theory.specs.ClassWords.{HasNumbersInRange};
ghost use Rattle.rg_theory.specs.Problem.{IsProblem};
ghost use Rattle.rg_theory.specs.System.{IsAllReachable};
ghost use Rattle.rg_separate.specs.View.{shown_of};
ghost use Rattle.rg_separate.specs.Passing.{cycle_passed};
ghost use Rattle.rg_separate.specs.Keeping.{IsKept, CanSolve};
ghost use Rattle.rg_separate.specs.Deciding.{ProblemTells, ProblemComesTo, ProvesRefuted};
ghost use Rattle.rg_separate.specs.Answer.{ending_with_firsts, SearchTells, IsSearchedFrom};

use crate::case::bounded_forms;
use crate::kept::Kept;
use crate::problem::{ProblemAnswer, solve_problem};
use crate::separation::SeparationWithFirsts;
use crate::solving::Problems;
use rg_blocks::{Progress, Search, solve_all};
use rg_branch::Solver;
use rg_case_parts::{Setting, TreeChords};
use rg_cert_data::{Certificate, Reason, Stage, WideAt};
use rg_cycles::{CycleWide, Stop, reduce_rows};
use rg_lts::Lts;
use rg_marks::CompactPlace;
use rg_memory::NoMemory;
use rg_ports::Gate;
use rg_rows::Common;
use rg_spanning::{GrowStop, Tree};
use rg_theory::{Class, Problem};
use std::alloc::Global;
use std::thread::Threads;

// Where the memory of a search comes from, how many threads solve its problems at most, and what is called for each.
#[derive(Drop)]
pub(crate) struct Resources<'a, G> {
    pub(crate) alloc: Global,
    pub(crate) jobs: u8,
    pub(crate) gate: &'a G,
}

// What a search for places of the class comes to that begins with these places, which are regions.
pub(crate) fn search_from<R: Threads + Sync, G: Gate + Sync>(
    rt: &R,
    resources: Resources<'_, G>,
    lts: &Lts,
    class: Class,
    known: &[CompactPlace],
) -> Result<SeparationWithFirsts, NoMemory>
    requires reachable { IsAllReachable lts.now }
    requires bound { HasNumbersInRange class }
    requires some { 1 ≤ resources.jobs }
    requires known { All (IsKept lts.now) known.now }
    ensures tells { IfOk result (SearchTells lts.now class) }
    ensures searched { IfOk result (λ s. IsSearchedFrom lts.now class known.now (ending_with_firsts s)) }
{
    let alloc = resources.alloc;
    let tree = match Tree::grow(alloc, lts) {
        Ok(tree) => tree,
        Err(GrowStop::NoMemory) => return Err(NoMemory),
        Err(GrowStop::Unreachable(_)) => unreachable!(),
    };
    let chords = TreeChords::new(lts, &tree);
    match reduce_rows(alloc, lts.labels(), &chords) {
        Ok(basis) => {
            let setting = Setting {
                lts,
                tree: &tree,
                basis: &basis,
                class,
            };
            let common = Common::new(alloc, setting)?;
            let forms = bounded_forms(alloc, common.shared_forms())?;
            let problems = Problems {
                alloc,
                setting,
                columns: common.column_count(&basis),
                common: &common,
                forms: &forms,
            };
            search_problems(rt, resources, problems, known)
        }
        Err(Stop::Wide(wide)) => Ok(SeparationWithFirsts::TooWide(wide_cycle(alloc, wide))),
        Err(Stop::NoMemory) => Err(NoMemory),
    }
}

// The same of the problems in a setting.
fn search_problems<R: Threads + Sync, G: Gate + Sync>(
    rt: &R,
    resources: Resources<'_, G>,
    problems: Problems<'_>,
    known: &[CompactPlace],
) -> Result<SeparationWithFirsts, NoMemory>
    requires can { CanSolve problems }
    requires some { 1 ≤ resources.jobs }
    requires known { All (IsKept problems.setting.lts.now) known.now }
    ensures tells { IfOk result (SearchTells problems.entry.setting.lts.now problems.entry.setting.class) }
    ensures searched { IfOk result (λ s. IsSearchedFrom problems.entry.setting.lts.now problems.entry.setting.class known.now (ending_with_firsts s)) }
{
    let Resources { alloc, jobs, gate } = resources;
    let lts = problems.setting.lts;
    let search = Search {
        alloc,
        lts,
        solving: &problems,
        jobs,
        gate,
    };
    let mut progress = Progress {
        kept: Kept::known(alloc, lts, problems.setting.tree.arcs(), known)?,
        workspace: Solver::new(alloc, problems.columns)?,
        proof: None,
    };
    let end = solve_all(rt, &search, &mut progress)?;
    let Progress {
        kept,
        mut workspace,
        proof,
    } = progress;
    let Some(problem) = end else {
        return Ok(SeparationWithFirsts::Places(kept.places, kept.firsts));
    };
    match last_answer(problems, &mut workspace, problem, proof)? {
        ProblemAnswer::Refuted(reason) => {
            let class = problems.setting.class;
            let certificate = Certificate { class, reason };
            Ok(SeparationWithFirsts::Unsolvable(certificate, kept.places))
        }
        ProblemAnswer::Wide(at) => Ok(SeparationWithFirsts::TooWide(at)),
        ProblemAnswer::Place(_) => unreachable!(),
    }
}

// What the problem comes to that ends a search: the reason that was kept refutes it, where it is that of the problem.
// Else it is solved once more and comes to the same.
fn last_answer(
    problems: Problems<'_>,
    workspace: &mut Solver,
    problem: Problem,
    proof: Option<(Problem, Reason)>,
) -> Result<ProblemAnswer, NoMemory>
    requires can { CanSolve problems }
    requires columns { workspace.old ≡ problems.columns }
    requires has { IsProblem problems.setting.lts.now problem }
    requires proves { IfSome proof (λ p. ProvesRefuted problems.setting p.0 p.1) }
    ensures tells { IfOk result (ProblemTells problems.entry.setting.lts.now problems.entry.setting.class problem) }
    ensures comes { IfOk result (ProblemComesTo problems.entry.setting problem) }
{
    if let Some((proved, reason)) = proof {
        if proved == problem {
            return Ok(ProblemAnswer::Refuted(reason));
        }
    }
    Ok(solve_problem(problems, workspace, problem)?)
}

// The term of the walk over the chords.
fn wide_cycle(alloc: Global, wide: CycleWide) -> WideAt
    ensures { shown_of result ≡ cycle_passed wide }
{
    WideAt {
        stage: Stage::Cycle,
        problem: None,
        case: 0,
        above: Vec::new(alloc),
        members: wide.members,
        pivot: wide.pivot,
        leaves: wide.leaves,
        target: wide.target,
        entry: wide.entry,
        wide: wide.wide,
    }
}

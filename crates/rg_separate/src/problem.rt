//! One problem, by its cases.
ghost use Rattle.std.specs.Prelude.{◌≡◌, ℕ, length, map, Some, unwrap_or, slice_get, IfOk};
ghost use Rattle.rg_cert_meaning.specs.Row.{cases_of};
ghost use Rattle.rg_cert_meaning.specs.Refutes.{Reason.refuted};
ghost use Rattle.rg_cert_data.specs.declared.certificate.Case.{Case};
ghost use Rattle.rg_cert_data.specs.Certificates.{case_tree, reason_of};
ghost use Rattle.rg_theory.specs.ClassWords.{HasNumbersInRange};
ghost use Rattle.rg_theory.specs.System.{IsAllReachable};
ghost use Rattle.rg_theory.specs.Problem.{IsProblem};
ghost use Rattle.rg_case_folds.specs.Shown.{IsLive};
ghost use Rattle.rg_separate.specs.Keeping.{IsSetting, CanSolve};
ghost use Rattle.rg_separate.specs.Deciding.{RefutesCase, AreTried, CasesCameTo, IsGoodReason, ProblemTells, ProblemComesTo};

use crate::case::{CaseAnswer, solve_case};
use crate::dead::{block_label, is_dead};
use crate::solving::Problems;
use rg_branch::Solver;
use rg_case_parts::{CaseSetting, Setting};
use rg_cert_data::{Case, Reason, WideAt};
use rg_lts::Lts;
use rg_marks::RegionPlace;
use rg_rows::cases;
use rg_theory::{Class, Problem};
use std::alloc::AllocError;

// What a problem comes to.
#[derive(Drop)]
pub(crate) enum ProblemAnswer {
    Place(RegionPlace),
    Refuted(Reason),
    Wide(WideAt),
}

// What the cases come to that were tried and gave no place.
#[derive(Drop)]
struct Tried {
    refuted: Vec<Case>,
    passed: Option<WideAt>,
}

// What a problem comes to: that of a label without an arc to the place that alone stops it, and each other one to
// what its cases do.
pub(crate) fn solve_problem(
    problems: Problems<'_>,
    solver: &mut Solver,
    problem: Problem,
) -> Result<ProblemAnswer, AllocError>
    requires can { CanSolve problems }
    requires columns { solver.old ≡ problems.columns }
    requires has { IsProblem problems.setting.lts.now problem }
    ensures tells { IfOk result (ProblemTells problems.entry.setting.lts.now problems.entry.setting.class problem) }
    ensures comes { IfOk result (ProblemComesTo problems.entry.setting problem) }
    ensures same { solver.new ≡ solver.old }
{
    let lts = problems.setting.lts;
    match problem {
        Problem::Event(_, t) if is_dead(lts, t) => {
            Ok(ProblemAnswer::Place(block_label(problems.alloc, lts, t)?))
        }
        _ => solve_live(problems, solver, problem),
    }
}

// The place of the first case that gives one; else, where no number passes, what refutes all cases; else the first
// term that passes.
fn solve_live(
    problems: Problems<'_>,
    solver: &mut Solver,
    problem: Problem,
) -> Result<ProblemAnswer, AllocError>
    requires can { CanSolve problems }
    requires columns { solver.old ≡ problems.columns }
    requires has { IsProblem problems.setting.lts.now problem }
    requires live { IsLive problems.setting.lts.now problem }
    ensures tells { IfOk result (ProblemTells problems.entry.setting.lts.now problems.entry.setting.class problem) }
    ensures comes { IfOk result (ProblemComesTo problems.entry.setting problem) }
    ensures same { solver.new ≡ solver.old }
{
    let setting = problems.setting;
    let mut tried = Tried {
        refuted: Vec::new(problems.alloc),
        passed: None,
    };
    for case in 0..cases(setting.lts, setting.class, problem) {
        let c = CaseSetting {
            setting,
            problem,
            number: case,
        };
        match solve_case(problems, solver, c)? {
            CaseAnswer::Place(region) => return Ok(ProblemAnswer::Place(region)),
            CaseAnswer::Refuted(case) => tried.refuted.push(case)?,
            CaseAnswer::Wide(at) => tried.note(at),
        }
    }
    Ok(without_place(setting, problem, tried))
}

impl Tried {
    // Keeps the first term that passes.
    fn note(&mut self, at: WideAt)
        ensures passed { self.new.passed ≡ Some (unwrap_or self.old.passed at) }
    {
        if self.passed.is_none() {
            self.passed = Some(at);
        }
    }
}

// What the problem comes to where no case gives a place.
fn without_place(setting: Setting<'_>, problem: Problem, tried: Tried) -> ProblemAnswer
    requires setting { IsSetting setting }
    requires has { IsProblem setting.lts.now problem }
    requires live { IsLive setting.lts.now problem }
    requires tried { AreTried setting.lts.now setting.class problem (cases_of setting.lts.now setting.class problem) tried }
    requires come { CasesCameTo setting problem (cases_of setting.lts.now setting.class problem) tried }
    ensures tells { ProblemTells setting.entry.lts.now setting.entry.class problem result }
    ensures comes { ProblemComesTo setting.entry problem result }
{
    let Tried { refuted, passed } = tried;
    match passed {
        Some(at) => ProblemAnswer::Wide(at),
        None => ProblemAnswer::Refuted(reason(setting.lts, setting.class, problem, refuted)),
    }
}

// The reason that these trees give.
fn reason(lts: &Lts, class: Class, problem: Problem, cases: Vec<Case>) -> Reason
    requires bound { HasNumbersInRange class }
    requires reachable { IsAllReachable lts.now }
    requires has { IsProblem lts.now problem }
    requires all { length cases.items ≡ cases_of lts.now class problem }
    requires refuted { (i : ℕ) (case : Case) → slice_get cases.items i ≡ Some case → RefutesCase lts.now class problem i case }
    ensures good { IsGoodReason lts.now class result }
    ensures trees { reason_of result ≡ refuted problem (map case_tree cases.items) }
{
    lts.is_well_formed();
    match problem {
        Problem::States(s, other) => Reason::States(s, other, cases),
        Problem::Event(s, t) => match cases.into_iter().next() {
            Some(case) => Reason::Event(s, t, case),
            None => unreachable!(),
        },
    }
}

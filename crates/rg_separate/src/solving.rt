//! The problems of a system, as a block of them is solved.
ghost use Rattle.std.specs.Prelude.{◌≡◌};
ghost use Rattle.rg_theory.specs.Problem.{IsProblem};
ghost use Rattle.rg_places.specs.RegionPlaces.{IsRegionPlace};
ghost use Rattle.rg_outcome.specs.Solving.{ProblemComes};
ghost use Rattle.rg_separate.specs.Keeping.{CanSolve};
ghost use Rattle.rg_case_parts.specs.SettingViews.{shown_setting};
ghost use Rattle.rg_separate.specs.Deciding.{ProvesRefuted};

use crate::problem::{ProblemAnswer, solve_problem};
use rg_blocks::{ProblemOutcome, Solving};
use rg_branch::{Bounded, Solver};
use rg_case_parts::Setting;
use rg_cert_data::Reason;
use rg_memory::NoMemory;
use rg_rows::Common;
use rg_theory::Problem;
use std::alloc::Global;

// The problems of a system and a class, how many columns their systems have, and what all of them share: rows and
// forms, and the forms of the shared rows as a branching takes them.
#[derive(Clone, Copy)]
pub(crate) struct Problems<'a> {
    pub(crate) alloc: Global,
    pub(crate) setting: Setting<'a>,
    pub(crate) columns: u32,
    pub(crate) common: &'a Common,
    pub(crate) forms: &'a [Bounded],
}

impl Solving for Problems<'_> {
    type Proof = Reason;

    type Workspace = Solver;

    ghost asks = { λ s problem. CanSolve s × IsProblem s.setting.lts.now problem };

    ghost comes = { λ s. ProblemComes (shown_setting s.setting) };

    ghost makes = { λ s. IsRegionPlace s.setting.lts.now s.setting.class };

    ghost serves = { λ s solver. solver ≡ s.columns };

    ghost proves = { λ s. ProvesRefuted s.setting };

    fn new_workspace(&self) -> Result<Solver, NoMemory> {
        Solver::new(self.alloc, self.columns)
    }

    fn solve(
        &self,
        workspace: &mut Solver,
        problem: Problem,
        proof: &mut Option<(Problem, Reason)>,
    ) -> Result<ProblemOutcome, NoMemory> {
        match solve_problem(*self, workspace, problem)? {
            ProblemAnswer::Place(region) => Ok(ProblemOutcome::Place(region)),
            ProblemAnswer::Refuted(reason) => {
                *proof = Some((problem, reason));
                Ok(ProblemOutcome::Refuted)
            }
            ProblemAnswer::Wide(_) => Ok(ProblemOutcome::TooWide),
        }
    }
}

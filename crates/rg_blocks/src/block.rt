//! A block of problems: how it is formed and solved.
ghost use Rattle.std.specs.Prelude.{◌≡◌, ◌<◌, ◌≤◌, All, IfSome, IfOk, OnOk, Some, length, slice_get};
ghost use Rattle.rg_theory.specs.Problem.{IsProblem};
ghost use Rattle.rg_outcome.specs.Blocks.{IsBlock, last_of};
ghost use Rattle.rg_outcome.specs.Coming.{IsDone};
ghost use Rattle.rg_marks.specs.Separated.{AreSome};
ghost use Rattle.rg_blocks.specs.Blocks.{most_in_block};
ghost use Rattle.rg_blocks.specs.Taking.{IsOutcome, IsWaiting, IsSolvedBy, AreNotable, MayBeSolved, problems_of};

use crate::keeping::Keeping;
use crate::left::next_problem;
use crate::search::Search;
use crate::solving::{ProblemOutcome, SolvedProblem, Solving, WaitingOutcome};
use rg_lts::Lts;
use rg_marks::{CompactPlace, Separated};
use rg_memory::NoMemory;
use rg_phase::{PartTask, block_of_parts};
use rg_ports::Gate;
use rg_theory::Problem;
use std::alloc::Global;
use std::thread::Threads;

// How many problems a block has at most.
const LARGEST_BLOCK: u32 = 128;

/// Returns the first 128 problems that no kept place separates, in order: of those after the problem `last`, or of
/// all if it is None. Returns fewer if no more are left, and `NoMemory` if memory runs out.
pub fn next_block<K: Keeping>(
    alloc: Global,
    lts: &Lts,
    kept: &K,
    last: Option<Problem>,
) -> Result<Vec<Problem>, NoMemory>
    requires kept { K.keeps_for kept.now lts.now }
    requires last { IfSome last (IsProblem lts.now) }
    ensures block { IfOk result (λ v. IsBlock lts.now (K.places kept.now) last v.items) }
    ensures few { IfOk result (λ v. length v.items ≤ most_in_block) }
    ensures end { IfOk result (λ v. length v.items < most_in_block → IsDone lts.now (K.places kept.now) (last_of last v.items)) }
{
    let mut block = Vec::new(alloc);
    let mut at = last;
    for _i in 0..LARGEST_BLOCK {
        match next_problem(lts, kept, at) {
            Some(problem) => {
                block.push(problem)?;
                at = Some(problem);
            }
            None => return Ok(block),
        }
    }
    Ok(block)
}

// The solving of the problems of a block. Each part has a workspace of its own.
#[derive(Drop)]
struct Problems<'a, K, S, G> {
    search: &'a Search<'a, S, G>,
    kept: &'a K,
    problems: &'a [Problem],
}

// What a part keeps from one problem to the next: what the places separate that it made, and what it solves with.
#[derive(Drop)]
struct Part<W> {
    separated: Separated,
    workspace: W,
}

impl<K: Keeping, S: Solving, G> PartTask for Problems<'_, K, S, G>
where
    S::Workspace: Drop,
    S::Proof: Drop,
{
    type Part = Part<S::Workspace>;

    type Out = SolvedProblem;

    ghost holds = { λ s part. AreSome s.search.now.lts.now part.separated × S.serves s.search.now.solving.now part.workspace };

    ghost asks = { λ s i. (i < length s.problems.now) × K.keeps_for s.kept.now s.search.now.lts.now
        × MayBeSolved s.search.now.lts.now (S.asks s.search.now.solving.now) (S.makes s.search.now.solving.now) s.problems.now };

    ghost answers = { λ s i v. (slice_get s.problems.now i ≡ Some v.problem) × IsSolvedBy (S.comes s.search.now.solving.now) (S.makes s.search.now.solving.now) v };

    fn begin(&self) -> Result<Part<S::Workspace>, NoMemory> {
        let separated = Separated::nothing(self.search.alloc, self.search.lts)?;
        let workspace = self.search.solving.new_workspace()?;
        Ok(Part {
            separated,
            workspace,
        })
    }

    fn run(&self, part: &mut Part<S::Workspace>, i: u32) -> Result<SolvedProblem, NoMemory> {
        let problem = self.problems[i as usize];
        let lts = self.search.lts;
        if self.kept.separates(lts, problem) || part.separated.separates(lts, problem) {
            return Ok(SolvedProblem {
                problem,
                outcome: None,
            });
        }
        let mut proof = None;
        let outcome = self
            .search
            .solving
            .solve(&mut part.workspace, problem, &mut proof)?;
        let waiting = note(self.search, &mut part.separated, problem, outcome)?;
        Ok(SolvedProblem {
            problem,
            outcome: Some(waiting),
        })
    }
}

// Returns the outcome of a problem as it waits until it is taken over. Notes what its place separates, and lets the
// tokens go.
fn note<S: Solving, G>(
    search: &Search<'_, S, G>,
    separated: &mut Separated,
    problem: Problem,
    outcome: ProblemOutcome,
) -> Result<WaitingOutcome, NoMemory>
    requires notable { AreNotable search.now.lts.now (S.makes search.now.solving.now) }
    requires some { AreSome search.now.lts.now separated.old }
    requires outcome { IsOutcome (S.comes search.now.solving.now) (S.makes search.now.solving.now) problem outcome }
    ensures some { OnOk result (AreSome search.now.lts.now separated.new) }
    ensures waiting { IfOk result (IsWaiting (S.comes search.now.solving.now) (S.makes search.now.solving.now) problem) }
{
    match outcome {
        ProblemOutcome::Place(region) => {
            let place = &region.place;
            separated.add(search.alloc, search.lts, place, &region.tokens)?;
            search.lts.is_well_formed();
            let compact = CompactPlace::new(search.alloc, place)?;
            Ok(WaitingOutcome::Place(compact))
        }
        ProblemOutcome::Refuted => Ok(WaitingOutcome::Refuted),
        ProblemOutcome::TooWide => Ok(WaitingOutcome::TooWide),
    }
}

/// Returns the outcomes of the problems of a block, in their order, computed by parts that run in parallel: number
/// `i` is the problem at place `i` of the block. A problem is left unsolved, with the outcome None, if a kept place
/// separates it or one that its part made before. Each part solves with a workspace of its own, and keeps no proof.
/// The gate is entered before the work for each number and left after it. Returns `NoMemory` if memory runs out.
pub fn solve_block<R: Threads + Sync, K: Keeping + Sync, S: Solving + Sync, G: Gate + Sync>(
    rt: &R,
    search: &Search<'_, S, G>,
    kept: &K,
    problems: &[Problem],
) -> Result<Vec<SolvedProblem>, NoMemory>
where
    S::Workspace: Send + Sync + Drop,
    S::Proof: Send + Sync + Drop,
    requires few { length problems.now ≤ most_in_block }
    requires some { 1 ≤ search.now.jobs }
    requires kept { K.keeps_for kept.now search.now.lts.now }
    requires problems { All (IsProblem search.now.lts.now) problems.now }
    requires asked { All (S.asks search.now.solving.now) problems.now }
    requires notable { AreNotable search.now.lts.now (S.makes search.now.solving.now) }
    ensures solved { IfOk result (λ v. All (IsSolvedBy (S.comes search.now.solving.now) (S.makes search.now.solving.now)) v.items) }
    ensures same { IfOk result (λ v. problems_of v.items ≡ problems.now) }
{
    let task = Problems {
        search,
        kept,
        problems,
    };
    let many = problems.len() as u32;
    block_of_parts(rt, search.alloc, &task, 0, many, search.jobs, search.gate)
}

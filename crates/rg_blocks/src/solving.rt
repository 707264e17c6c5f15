//! How a problem is solved.
ghost use Rattle.std.specs.Prelude.{IfOk, IfSome, OnOk};
ghost use Rattle.rg_theory.specs.declared.Problem.{Problem};
ghost use Rattle.rg_marks.specs.declared.region_place.RegionPlace.{RegionPlace};
ghost use Rattle.rg_outcome.specs.Solving.{Solved};
ghost use Rattle.rg_blocks.specs.Taking.{IsOutcome};

use rg_marks::{CompactPlace, RegionPlace};
use rg_memory::NoMemory;
use rg_theory::Problem;

/// The outcome of a problem. That of a refuted problem has no trees, and that of a problem with a number out of range
/// has no term.
#[derive(Drop)]
pub enum ProblemOutcome {
    /// A place that separates it, with its tokens at the states.
    Place(RegionPlace),
    /// Trees refute all its cases.
    Refuted,
    /// A number passes in one of its cases, and none makes a place.
    TooWide,
}

/// The outcome of a problem that waits until it is taken over. It is small, because many may wait: a place has
/// neither its tokens nor weights of 0.
#[derive(Drop)]
pub enum WaitingOutcome {
    /// A place that separates it.
    Place(CompactPlace),
    /// Trees refute all its cases.
    Refuted,
    /// A number passes in one of its cases, and none makes a place.
    TooWide,
}

/// A problem of a block, and its outcome.
#[derive(Drop)]
pub struct SolvedProblem {
    /// The problem.
    pub problem: Problem,
    /// The outcome, or None if the problem isn't solved yet because a place separates it that is kept or that its
    /// part made.
    pub outcome: Option<WaitingOutcome>,
}

/// How the problems of a system are solved, each by itself: the outcome of a problem depends neither on the places
/// that are kept nor on what was solved before in the same workspace.
pub trait Solving {
    /// What shows that a problem is refuted.
    type Proof;

    /// What a thread solves with, one problem after the other, and no other one meanwhile.
    type Workspace;

    /// What the solving of a problem asks for.
    ghost asks: { Self → Problem → Type 0 };

    /// The outcome of a problem.
    ghost comes: { Self → Problem → Solved → Type 0 };

    /// What is said of each place that is made.
    ghost makes: { Self → RegionPlace → Type 0 };

    /// What holds of what a thread solves with.
    ghost serves: { Self → Self.Workspace → Type 0 };

    /// What is said of what shows that a problem is refuted.
    ghost proves: { Self → Problem → Self.Proof → Type 0 };

    /// Returns a new workspace for a thread. Returns `NoMemory` if memory runs out.
    fn new_workspace(&self) -> Result<Self::Workspace, NoMemory>
        ensures { IfOk result (serves self.now) };

    /// Solves a problem with the workspace of a thread, and keeps the proof that it is refuted, if it is. Returns
    /// `NoMemory` if memory runs out; nothing is known of the workspace then.
    fn solve(
        &self,
        workspace: &mut Self::Workspace,
        problem: Problem,
        proof: &mut Option<(Problem, Self::Proof)>,
    ) -> Result<ProblemOutcome, NoMemory>
        requires asked { asks self.now problem }
        requires serves { serves self.now workspace.old }
        requires proves { IfSome proof.old (λ p. proves self.now p.0 p.1) }
        ensures outcome { IfOk result (IsOutcome (comes self.now) (makes self.now) problem) }
        ensures serves { OnOk result (serves self.now workspace.new) }
        ensures proves { IfSome proof.new (λ p. proves self.now p.0 p.1) };
}

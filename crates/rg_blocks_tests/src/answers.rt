//! A solving that answers from a list.
ghost use Rattle.std.specs.Prelude.{length, ⊤};
ghost use Rattle.rg_blocks_tests.specs.Constant.{MayCome, HasDead, HasNoToken};

use crate::places::stopping;
use rg_blocks::{NoMemory, ProblemOutcome, Solving};
use rg_lts::Lts;
use rg_ports::Gate;
use rg_theory::Problem;
use std::alloc::Global;
use std::sync::atomic::{AtomicU64, Ordering};

// What is answered to a label's problem.
#[derive(Clone, Copy)]
pub(crate) enum Given {
    // a place that stops this label too
    Stops(u32),
    Refuted,
    TooWide,
    NoMemory,
}

// Counts how often it is entered and left, and keeps which of the first 64 numbers are inside.
#[derive(Drop)]
pub(crate) struct Counts {
    pub(crate) entered: AtomicU64,
    pub(crate) left: AtomicU64,
    inside: AtomicU64,
}

impl Counts {
    pub(crate) fn new() -> Counts {
        Counts {
            entered: AtomicU64::new(0),
            left: AtomicU64::new(0),
            inside: AtomicU64::new(0),
        }
    }

    fn has_inside(&self, i: u32) -> bool {
        self.inside.load(Ordering::SeqCst) & bit(i) != 0
    }
}

fn bit(i: u32) -> u64 {
    1u64.checked_shl(i).unwrap_or(0)
}

impl Gate for Counts {
    fn enter(&self, i: u32) {
        self.entered.fetch_add(1, Ordering::SeqCst);
        self.inside.fetch_or(bit(i), Ordering::SeqCst);
    }

    fn leave(&self, i: u32) {
        self.left.fetch_add(1, Ordering::SeqCst);
        self.inside.fetch_and(!bit(i), Ordering::SeqCst);
    }
}

// One answer for each of the first labels, which have no arc; in any other problem a number passes. Kept are how many
// problems were solved, how many of them while their number was inside the gate, and how many in turn; how many
// workspaces were made for parts, and in how many workspaces a problem was solved.
#[derive(Drop)]
pub(crate) struct Answers<'a> {
    pub(crate) alloc: Global,
    pub(crate) lts: &'a Lts,
    pub(crate) given: &'a [Given],
    pub(crate) gate: &'a Counts,
    pub(crate) solved: AtomicU64,
    pub(crate) solved_inside: AtomicU64,
    pub(crate) in_turn: AtomicU64,
    pub(crate) made: AtomicU64,
    pub(crate) used: AtomicU64,
}

impl<'a> Answers<'a> {
    pub(crate) fn new(
        alloc: Global,
        lts: &'a Lts,
        given: &'a [Given],
        gate: &'a Counts,
    ) -> Answers<'a> {
        Answers {
            alloc,
            lts,
            given,
            gate,
            solved: AtomicU64::new(0),
            solved_inside: AtomicU64::new(0),
            in_turn: AtomicU64::new(0),
            made: AtomicU64::new(0),
            used: AtomicU64::new(0),
        }
    }

    // Counts a problem that is solved with the workspace. The calling thread has the one that is no part's.
    fn count(&self, workspace: &mut Work) {
        self.solved.fetch_add(1, Ordering::SeqCst);
        if !workspace.is_of_part {
            self.in_turn.fetch_add(1, Ordering::SeqCst);
        }
        if !workspace.used {
            self.used.fetch_add(1, Ordering::SeqCst);
            workspace.used = true;
        }
    }
}

// What a thread solves with: whether it is a part's, and whether a problem was solved in it.
#[derive(Drop)]
pub(crate) struct Work {
    is_of_part: bool,
    used: bool,
}

impl Work {
    pub(crate) fn new() -> Work {
        Work {
            is_of_part: false,
            used: false,
        }
    }
}

impl Solving for Answers<'_> {
    type Proof = ();

    type Workspace = Work;

    ghost asks = { λ s _. HasDead (length s.given.now) s.lts.now };

    ghost comes = { λ s. MayCome s.lts.now };

    ghost makes = { λ s. HasNoToken s.lts.now };

    ghost serves = { λ _ _. ⊤ };

    ghost proves = { λ _ _ _. ⊤ };

    fn new_workspace(&self) -> Result<Work, NoMemory> {
        self.made.fetch_add(1, Ordering::SeqCst);
        Ok(Work {
            is_of_part: true,
            used: false,
        })
    }

    fn solve(
        &self,
        workspace: &mut Work,
        problem: Problem,
        proof: &mut Option<(Problem, ())>,
    ) -> Result<ProblemOutcome, NoMemory> {
        self.count(workspace);
        let Problem::Event(_, t) = problem else {
            return Ok(ProblemOutcome::TooWide);
        };
        if self.gate.has_inside(t) {
            self.solved_inside.fetch_add(1, Ordering::SeqCst);
        }
        match self.given.get(t as usize).copied() {
            Some(Given::Stops(other)) => {
                let place = stopping(self.alloc, self.lts, self.given.len(), t, other)?;
                Ok(ProblemOutcome::Place(place))
            }
            Some(Given::Refuted) => {
                *proof = Some((problem, ()));
                Ok(ProblemOutcome::Refuted)
            }
            Some(Given::NoMemory) => Err(NoMemory),
            Some(Given::TooWide) | None => Ok(ProblemOutcome::TooWide),
        }
    }
}

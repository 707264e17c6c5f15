//! All problems.
ghost use Rattle.std.specs.Prelude.{◌<◌, ◌≤◌, All, IfOk, IfSome, OnOk, length};
ghost use Rattle.rg_theory.specs.Region.{IsRegion};
ghost use Rattle.rg_outcome.specs.Coming.{IsLeft};
ghost use Rattle.rg_blocks.specs.Blocks.{most_in_block};
ghost use Rattle.rg_blocks.specs.Taking.{IsTakenOver};
ghost use Rattle.rg_blocks.specs.Separating.{EndsSearch};
ghost use Rattle.rg_blocks.specs.Searching.{CanSearch, IsSearching};

use crate::block::{next_block, solve_block};
use crate::keeping::Keeping;
use crate::left::next_problem;
use crate::search::{Progress, Search};
use crate::solving::Solving;
use crate::taking::{solve_in_turn, solve_left, take_over};
use rg_memory::NoMemory;
use rg_ports::Gate;
use rg_theory::Problem;
use std::thread::Threads;

// Solves the problems of a block and takes over what they come to: with one job problem by problem. With more, the
// first one is solved in turn, so that the parts know its place, and then all are solved by the parts. Where it is
// refuted, the block is gone through problem by problem, which solves none after it.
fn take_block<R: Threads + Sync, K: Keeping + Sync, S: Solving + Sync, G: Gate + Sync>(
    rt: &R,
    search: &Search<'_, S, G>,
    progress: &mut Progress<K, S::Workspace, S::Proof>,
    problems: &[Problem],
) -> Result<Option<Problem>, NoMemory>
where
    S::Workspace: Send + Sync + Drop,
    S::Proof: Send + Sync + Drop,
    requires few { length problems.now ≤ most_in_block }
    requires can { CanSearch search.now S.asks S.comes S.makes K.may_keep K.may_keep_compact }
    requires searching { IsSearching search.now K.keeps_for S.serves S.proves progress.old }
    requires some { 0 < length problems.now }
    requires left { All (IsLeft search.now.lts.now (K.places progress.old.kept)) problems.now }
    ensures searching { OnOk result (IsSearching search.now K.keeps_for S.serves S.proves progress.new) }
    ensures proves { IfSome progress.new.proof (λ p. S.proves search.now.solving.now p.0 p.1) }
    ensures taken { IfOk result (λ end. IsTakenOver search.now.lts.now (S.comes search.now.solving.now) (K.places progress.old.kept) problems.now (K.places progress.new.kept) end) }
{
    if search.jobs == 1 {
        return solve_in_turn(search, progress, problems);
    }
    if solve_left(search, progress, problems[0])?.is_some() {
        return solve_in_turn(search, progress, problems);
    }
    let solved = solve_block(rt, search, &progress.kept, problems)?;
    take_over(search, progress, solved)
}

/// Solves the problems of the system, all of whose states are reachable, block by block, and keeps the places that
/// they come to. A problem that a kept place separates is passed over, and the search may begin with any regions.
/// Returns the problem that ends it: the first that is refuted, or else the first that no kept place separates, in
/// which a number passes. Returns None if the kept places separate all problems. The outcome and the places that are
/// kept are the same for any number of jobs and any gate. The calling thread solves with its workspace, and each part
/// of a block with one of its own. Returns `NoMemory` if memory runs out; nothing is known of the progress then.
pub fn solve_all<R: Threads + Sync, K: Keeping + Sync, S: Solving + Sync, G: Gate + Sync>(
    rt: &R,
    search: &Search<'_, S, G>,
    progress: &mut Progress<K, S::Workspace, S::Proof>,
) -> Result<Option<Problem>, NoMemory>
where
    S::Workspace: Send + Sync + Drop,
    S::Proof: Send + Sync + Drop,
    requires can { CanSearch search.now S.asks S.comes S.makes K.may_keep K.may_keep_compact }
    requires searching { IsSearching search.now K.keeps_for S.serves S.proves progress.old }
    requires regions { All (IsRegion search.now.lts.now) (K.places progress.old.kept) }
    ensures searching { OnOk result (IsSearching search.now K.keeps_for S.serves S.proves progress.new) }
    ensures proves { IfSome progress.new.proof (λ p. S.proves search.now.solving.now p.0 p.1) }
    ensures comes { IfOk result (EndsSearch search.now.lts.now (S.comes search.now.solving.now) (K.places progress.old.kept) (K.places progress.new.kept)) }
{
    let mut last = None;
    loop {
        let block = next_block(search.alloc, search.lts, &progress.kept, last)?;
        if block.is_empty() {
            return Ok(next_problem(search.lts, &progress.kept, None));
        }
        let end = block[block.len() - 1];
        if let Some(refuted) = take_block(rt, search, progress, &block)? {
            return Ok(Some(refuted));
        }
        last = Some(end);
    }
}

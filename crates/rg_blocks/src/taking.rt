//! How the outcomes of the problems of a block are taken over.
ghost use Rattle.std.specs.Prelude.{◌≡◌, ◌≤◌, [], ◌∷◌, All, IfOk, IfSome, OnOk, length};
ghost use Rattle.rg_theory.specs.Problem.{IsProblem};
ghost use Rattle.rg_outcome.specs.Coming.{IsSeparated};
ghost use Rattle.rg_blocks.specs.Blocks.{most_in_block};
ghost use Rattle.rg_blocks.specs.Taking.{IsWaiting, IsSolvedBy, AreKeepable, KeepsItsPlace, problems_of, IsTakenOver};
ghost use Rattle.rg_blocks.specs.Searching.{IsSearching};

use crate::keeping::Keeping;
use crate::search::{Progress, Search};
use crate::solving::{ProblemOutcome, SolvedProblem, Solving, WaitingOutcome};
use rg_memory::NoMemory;
use rg_ports::Gate;
use rg_theory::Problem;

/// Solves a problem that no kept place separates, and takes over its outcome: its place is kept, if it has one.
/// Returns the problem if it is refuted, and `NoMemory` if memory runs out.
pub(crate) fn solve_left<K: Keeping, S: Solving, G>(
    search: &Search<'_, S, G>,
    progress: &mut Progress<K, S::Workspace, S::Proof>,
    problem: Problem,
) -> Result<Option<Problem>, NoMemory>
    requires keepable { AreKeepable (S.makes search.now.solving.now) (K.may_keep search.now.lts.now) (K.may_keep_compact search.now.lts.now) }
    requires asked { S.asks search.now.solving.now problem }
    requires searching { IsSearching search.now K.keeps_for S.serves S.proves progress.old }
    requires problem { IsProblem search.now.lts.now problem }
    requires left { ¬ IsSeparated search.now.lts.now (K.places progress.old.kept) problem }
    ensures searching { OnOk result (IsSearching search.now K.keeps_for S.serves S.proves progress.new) }
    ensures proves { IfSome progress.new.proof (λ p. S.proves search.now.solving.now p.0 p.1) }
    ensures taken { IfOk result (λ end. IsTakenOver search.now.lts.now (S.comes search.now.solving.now) (K.places progress.old.kept) (problem ∷ []) (K.places progress.new.kept) end) }
    ensures kept { OnOk result (KeepsItsPlace (S.comes search.now.solving.now) (K.places progress.old.kept) problem (K.places progress.new.kept)) }
{
    let solving = search.solving;
    match solving.solve(&mut progress.workspace, problem, &mut progress.proof)? {
        ProblemOutcome::Place(place) => {
            progress.kept.keep(search.lts, place)?;
            Ok(None)
        }
        ProblemOutcome::Refuted => Ok(Some(problem)),
        ProblemOutcome::TooWide => Ok(None),
    }
}

// Takes over the outcome of a problem that no kept place separates, which has waited. Returns the problem if it is
// refuted.
fn take_waiting<K: Keeping, S: Solving, G>(
    search: &Search<'_, S, G>,
    progress: &mut Progress<K, S::Workspace, S::Proof>,
    problem: Problem,
    outcome: WaitingOutcome,
) -> Result<Option<Problem>, NoMemory>
    requires keepable { AreKeepable (S.makes search.now.solving.now) (K.may_keep search.now.lts.now) (K.may_keep_compact search.now.lts.now) }
    requires searching { IsSearching search.now K.keeps_for S.serves S.proves progress.old }
    requires outcome { IsWaiting (S.comes search.now.solving.now) (S.makes search.now.solving.now) problem outcome }
    requires left { ¬ IsSeparated search.now.lts.now (K.places progress.old.kept) problem }
    ensures searching { OnOk result (IsSearching search.now K.keeps_for S.serves S.proves progress.new) }
    ensures proves { IfSome progress.new.proof (λ p. S.proves search.now.solving.now p.0 p.1) }
    ensures taken { IfOk result (λ end. IsTakenOver search.now.lts.now (S.comes search.now.solving.now) (K.places progress.old.kept) (problem ∷ []) (K.places progress.new.kept) end) }
{
    match outcome {
        WaitingOutcome::Place(place) => {
            progress.kept.keep_compact(search.lts, place)?;
            Ok(None)
        }
        WaitingOutcome::Refuted => Ok(Some(problem)),
        WaitingOutcome::TooWide => Ok(None),
    }
}

// Takes over the outcome of a problem, and drops it if a kept place separates the problem. Returns the problem if it
// is refuted.
fn take<K: Keeping, S: Solving, G>(
    search: &Search<'_, S, G>,
    progress: &mut Progress<K, S::Workspace, S::Proof>,
    solved: SolvedProblem,
) -> Result<Option<Problem>, NoMemory>
    requires keepable { AreKeepable (S.makes search.now.solving.now) (K.may_keep search.now.lts.now) (K.may_keep_compact search.now.lts.now) }
    requires asked { S.asks search.now.solving.now solved.problem }
    requires searching { IsSearching search.now K.keeps_for S.serves S.proves progress.old }
    requires problem { IsProblem search.now.lts.now solved.problem }
    requires solved { IsSolvedBy (S.comes search.now.solving.now) (S.makes search.now.solving.now) solved }
    ensures searching { OnOk result (IsSearching search.now K.keeps_for S.serves S.proves progress.new) }
    ensures proves { IfSome progress.new.proof (λ p. S.proves search.now.solving.now p.0 p.1) }
    ensures taken { IfOk result (λ end. IsTakenOver search.now.lts.now (S.comes search.now.solving.now) (K.places progress.old.kept) (solved.problem ∷ []) (K.places progress.new.kept) end) }
{
    if progress.kept.separates(search.lts, solved.problem) {
        return Ok(None);
    }
    let problem = solved.problem;
    match solved.outcome {
        Some(outcome) => take_waiting(search, progress, problem, outcome),
        None => solve_left(search, progress, problem),
    }
}

/// Takes over the outcomes of the problems of a block, in the order of the problems. A place is kept, and a problem
/// with a number out of range is passed over. The outcome of a problem that a place kept meanwhile separates is
/// dropped, whatever it is. Any other problem that isn't solved yet is solved now, on the calling thread and with its
/// workspace. The first other problem that is refuted ends the call and is returned, with its proof kept if it was
/// solved here; None is returned if there is no such problem. Returns `NoMemory` if memory runs out.
pub fn take_over<K: Keeping, S: Solving, G>(
    search: &Search<'_, S, G>,
    progress: &mut Progress<K, S::Workspace, S::Proof>,
    solved: Vec<SolvedProblem>,
) -> Result<Option<Problem>, NoMemory>
    requires keepable { AreKeepable (S.makes search.now.solving.now) (K.may_keep search.now.lts.now) (K.may_keep_compact search.now.lts.now) }
    requires asked { All (λ s. S.asks search.now.solving.now s.problem) solved.items }
    requires searching { IsSearching search.now K.keeps_for S.serves S.proves progress.old }
    requires problems { All (λ s. IsProblem search.now.lts.now s.problem) solved.items }
    requires solved { All (IsSolvedBy (S.comes search.now.solving.now) (S.makes search.now.solving.now)) solved.items }
    ensures searching { OnOk result (IsSearching search.now K.keeps_for S.serves S.proves progress.new) }
    ensures proves { IfSome progress.new.proof (λ p. S.proves search.now.solving.now p.0 p.1) }
    ensures taken { IfOk result (λ end. IsTakenOver search.now.lts.now (S.comes search.now.solving.now) (K.places progress.old.kept) (problems_of solved.items) (K.places progress.new.kept) end) }
{
    for s in solved {
        if let Some(refuted) = take(search, progress, s)? {
            return Ok(Some(refuted));
        }
    }
    Ok(None)
}

/// Solves the problems of a block one after the other, and takes over each outcome at once. A problem that a place
/// kept meanwhile separates isn't solved. The first one that is refuted is returned, and none after it is solved;
/// None is returned if there is no such problem. The gate is entered before the work for each number of the block and
/// left after it, also where nothing is solved. Returns `NoMemory` if memory runs out.
pub fn solve_in_turn<K: Keeping, S: Solving, G: Gate>(
    search: &Search<'_, S, G>,
    progress: &mut Progress<K, S::Workspace, S::Proof>,
    problems: &[Problem],
) -> Result<Option<Problem>, NoMemory>
    requires few { length problems.now ≤ most_in_block }
    requires keepable { AreKeepable (S.makes search.now.solving.now) (K.may_keep search.now.lts.now) (K.may_keep_compact search.now.lts.now) }
    requires asked { All (S.asks search.now.solving.now) problems.now }
    requires searching { IsSearching search.now K.keeps_for S.serves S.proves progress.old }
    requires problems { All (IsProblem search.now.lts.now) problems.now }
    ensures searching { OnOk result (IsSearching search.now K.keeps_for S.serves S.proves progress.new) }
    ensures proves { IfSome progress.new.proof (λ p. S.proves search.now.solving.now p.0 p.1) }
    ensures taken { IfOk result (λ end. IsTakenOver search.now.lts.now (S.comes search.now.solving.now) (K.places progress.old.kept) problems.now (K.places progress.new.kept) end) }
{
    let mut refuted = None;
    for (i, &problem) in problems.iter().enumerate() {
        let unsolved = SolvedProblem {
            problem,
            outcome: None,
        };
        search.gate.enter(i as u32);
        let taken = match refuted {
            Some(_) => Ok(refuted),
            None => take(search, progress, unsolved),
        };
        search.gate.leave(i as u32);
        refuted = taken?;
    }
    Ok(refuted)
}

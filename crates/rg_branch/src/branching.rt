//! The tree of splits.
ghost use Rattle.std.specs.Prelude.{IfOk, IfErr};
ghost use Rattle.rg_branch.specs.View.{forms_of};
ghost use Rattle.rg_branch.specs.Asked.{CanBranch};
ghost use Rattle.rg_branch.specs.Answer.{IsAnswer, IsSound, IsStop};

use crate::bounded::Bounded;
use crate::solver::Solver;
use crate::whole::{BranchStop, Whole};
use rg_linear::{JoinedSystem, System};
use std::alloc::Global;

/// Returns a point of the system at which every form is whole, or a tree that shows that there is none.
///
/// Each node is the system with the rows of the splits above it after all others, outermost first, and its descent is
/// that from the start. The first form without a whole value at its point is split at its floor, and the low side is
/// taken first; a point of the low side is the answer. Returns `BranchStop::Wide` exactly if a node is reached whose
/// descent has a term out of range; the first such node ends the call. Returns `BranchStop::NoMemory` if memory runs
/// out. A system with its forms has one answer. The rows that the forms name are counted from the system's first row.
pub fn solve_whole(alloc: Global, system: &System, forms: &[Bounded]) -> Result<Whole, BranchStop>
    requires { CanBranch system.now 0 forms.now }
    ensures answer { IfOk result (IsAnswer system.now (forms_of forms.now)) }
    ensures sound { IfOk result (IsSound system.now (forms_of forms.now)) }
    ensures stop { IfErr result (IsStop system.now (forms_of forms.now)) }
{
    let joined = JoinedSystem::of(system);
    Solver::new(alloc, system.columns())?.solve_whole(alloc, &joined, forms, 0)
}

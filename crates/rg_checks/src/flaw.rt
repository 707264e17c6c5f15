//! The first flaw.
ghost use Rattle.std.specs.Prelude.{IfOk, IfSome, IfNone};
ghost use Rattle.rg_checks.specs.Flaws.{IsFlawless, IsFirstFlaw, IsShown};

use crate::fork::{Fork, least_fork};
use crate::unreachable::first_unreachable;
use rg_lts::Lts;
use rg_memory::NoMemory;
use std::alloc::Global;

/// What a system has that no reachability graph of a net has.
#[derive(Clone, Copy, Debug, PartialEq, Eq)]
pub enum Flaw {
    /// The state can't be reached.
    Unreachable(u32),
    /// A label leads from a state to two.
    Fork(Fork),
}

/// Returns the first flaw: the least state that can't be reached, or, if all can, the first fork. Returns None
/// exactly if all states can be reached and there is no fork, and `NoMemory` if memory runs out for a walk over the
/// states.
pub fn first_flaw(alloc: Global, lts: &Lts) -> Result<Option<Flaw>, NoMemory>
    ensures first { IfOk result (λ o. IfSome o (IsFirstFlaw lts.now)) }
    ensures shown { IfOk result (λ o. IfSome o (IsShown lts.now)) }
    ensures none { IfOk result (λ o. IfNone o (IsFlawless lts.now)) }
{
    if let Some(s) = first_unreachable(alloc, lts)? {
        return Ok(Some(Flaw::Unreachable(s)));
    }
    match least_fork(lts) {
        Some(fork) => Ok(Some(Flaw::Fork(fork))),
        None => Ok(None),
    }
}

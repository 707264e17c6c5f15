//! The least state that can't be reached.
ghost use Rattle.std.specs.Prelude.{ℕ, Bool, IfOk, IfSome, IfNone};
ghost use Rattle.rg_theory.specs.System.{IsLeastUnreachable, IsAllReachable, IsClosedWithout};
ghost use Rattle.rg_checks.specs.Met.{AreSteps};

use crate::graph::is_met;
use crate::walks::{Step, reach};
use rg_lts::Lts;
use rg_memory::NoMemory;
use std::alloc::Global;

/// Returns the least state that can't be reached, which some set of states without it shows; None exactly where all
/// states can be reached. Returns `NoMemory` if a walk over the states doesn't fit into memory.
pub fn first_unreachable(alloc: Global, lts: &Lts) -> Result<Option<u32>, NoMemory>
    ensures least { IfOk result (λ o. IfSome o (IsLeastUnreachable lts.now)) }
    ensures shut_out { IfOk result (λ o. IfSome o (λ s. (inside : ℕ → Bool) × IsClosedWithout lts.now s inside)) }
    ensures none { IfOk result (λ o. IfNone o (IsAllReachable lts.now)) }
{
    let steps = reach(alloc, lts)?;
    Ok(least_unreachable(lts, &steps))
}

/// Returns the least state that can't be reached, from the entries of `reach`; some set of states without it shows
/// that it can't. Returns None exactly if all states can be reached. It takes no memory.
pub fn least_unreachable(lts: &Lts, steps: &[Option<Step>]) -> Option<u32>
    requires { AreSteps lts.now steps.now }
    ensures least { IfSome result (IsLeastUnreachable lts.now) }
    ensures shut_out { IfSome result (λ s. (inside : ℕ → Bool) × IsClosedWithout lts.now s inside) }
    ensures none { IfNone result (IsAllReachable lts.now) }
{
    for s in 0..lts.states() {
        if !is_met(steps, lts.initial(), s) {
            return Some(s);
        }
    }
    None
}

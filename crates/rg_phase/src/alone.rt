//! The numbers of a range, each by itself.
ghost use Rattle.std.specs.Prelude.{◌≡◌, ◌-◌, ◌≤◌, map, IfOk};
ghost use Rattle.rg_phase.specs.Answers.{HoldsFrom, answers_from};

use crate::parts::block_of_parts;
use crate::work::{PartTask, Task};
use rg_memory::NoMemory;
use rg_ports::Gate;
use std::alloc::Global;
use std::thread::Threads;

// A task whose parts keep nothing.
#[derive(Drop)]
struct Alone<'a, T>(&'a T);

impl<T: Task> PartTask for Alone<'_, T> {
    type Part = ();

    type Out = T::Out;

    ghost holds = { λ _ _. Unit {0} };

    ghost asks = { λ s. T.asks s.0.now };

    ghost answers = { λ s i v. T.show v ≡ T.answer s.0.now i };

    fn begin(&self) -> Result<(), NoMemory> {
        Ok(())
    }

    fn run(&self, _part: &mut (), i: u32) -> Result<T::Out, NoMemory> {
        self.0.run(i)
    }
}

/// Returns the results of the task for the numbers from `from` on below `to`, in order, by at most `jobs` parts that
/// run in parallel: what they show is the list of the answers. The gate is entered before the work for a number and
/// left after it, whatever its result, and can't change a result. Returns `NoMemory` if memory runs out.
pub fn block<T: Task + Sync, G: Gate + Sync, R: Threads + Sync>(
    rt: &R,
    alloc: Global,
    task: &T,
    from: u32,
    to: u32,
    jobs: u8,
    gate: &G,
) -> Result<Vec<T::Out>, NoMemory>
where
    T::Out: Send + Drop,
    requires ordered { from ≤ to }
    requires some { 1 ≤ jobs }
    requires asked { HoldsFrom (T.asks task.now) from (to - from) }
    ensures { IfOk result (λ v. map T.show v.items ≡ answers_from (T.answer task.now) from (to - from)) }
{
    block_of_parts(rt, alloc, &Alone(task), from, to, jobs, gate)
}

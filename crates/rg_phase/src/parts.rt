//! The numbers of a range, by parts.
ghost use Rattle.std.specs.Prelude.{◌≡◌, ◌-◌, ◌≤◌, ◌++◌, IfOk};
ghost use Rattle.std.specs.Thread.{IsSync};
ghost use Rattle.rg_phase.specs.Answers.{HoldsFrom, AreAnswers};

use crate::work::PartTask;
use rg_memory::NoMemory;
use rg_ports::Gate;
use std::alloc::Global;
use std::thread::{Threads, join};

// One part, in order: what it keeps goes from number to number. A part without a number keeps nothing.
fn part<T: PartTask, G: Gate>(
    alloc: Global,
    task: &T,
    from: u32,
    to: u32,
    gate: &G,
) -> Result<Vec<T::Out>, NoMemory>
where
    T::Part: Drop,
    T::Out: Drop,
    requires ordered { from ≤ to }
    requires asked { HoldsFrom (T.asks task.now) from (to - from) }
    ensures { IfOk result (λ v. AreAnswers (T.answers task.now) from (to - from) v.items) }
{
    let mut all = Vec::new(alloc);
    if from == to {
        return Ok(all);
    }
    let mut keeps = task.begin()?;
    for i in from..to {
        gate.enter(i);
        let out = task.run(&mut keeps, i);
        gate.leave(i);
        match out {
            Ok(v) => {
                all.push(v)?;
            }
            Err(e) => return Err(e),
        }
    }
    Ok(all)
}

/// Returns the results of the task for the numbers from `from` on below `to`, in order, by at most `jobs` parts that
/// run in parallel: the range and the jobs are halved until a part has one job. A part with a number begins anew, and
/// keeps what it likes from one of its numbers to the next. The gate is entered before the work for a number and left
/// after it, whatever its result, and can't change a result. Returns `NoMemory` if memory runs out.
pub fn block_of_parts<R: Threads + Sync, T: PartTask + Sync, G: Gate + Sync>(
    rt: &R,
    alloc: Global,
    task: &T,
    from: u32,
    to: u32,
    jobs: u8,
    gate: &G,
) -> Result<Vec<T::Out>, NoMemory>
where
    T::Part: Send + Drop,
    T::Out: Send + Drop,
    requires ordered { from ≤ to }
    requires some { 1 ≤ jobs }
    requires asked { HoldsFrom (T.asks task.now) from (to - from) }
    ensures { IfOk result (λ v. AreAnswers (T.answers task.now) from (to - from) v.items) }
{
    if jobs == 1 {
        return part(alloc, task, from, to, gate);
    }
    let few = jobs / 2;
    let rest = jobs - few;
    let middle = from + (to - from) / 2;
    let (left, right) = join(
        rt,
        move || -> Result<Vec<T::Out>, NoMemory>
            requires { IsSync R.row × IsSync T.row × IsSync G.row × (from ≤ middle) × (1 ≤ few) × HoldsFrom (T.asks task.now) from (middle - from) }
            ensures { IfOk result (λ v. AreAnswers (T.answers task.entry.now) from (middle - from) v.items) }
        { block_of_parts(rt, alloc, task, from, middle, few, gate) },
        move || -> Result<Vec<T::Out>, NoMemory>
            requires { IsSync R.row × IsSync T.row × IsSync G.row × (middle ≤ to) × (1 ≤ rest) × HoldsFrom (T.asks task.now) middle (to - middle) }
            ensures { IfOk result (λ v. AreAnswers (T.answers task.entry.now) middle (to - middle) v.items) }
        { block_of_parts(rt, alloc, task, middle, to, rest, gate) },
    );
    match left {
        Ok(all) => match right {
            Ok(others) => both(all, others),
            Err(e) => Err(e),
        },
        Err(e) => Err(e),
    }
}

// One list after the other.
fn both<X: Drop>(mut all: Vec<X>, mut others: Vec<X>) -> Result<Vec<X>, NoMemory>
    ensures { IfOk result (λ v. v.items ≡ all.items ++ others.items) }
{
    all.append(&mut others)?;
    Ok(all)
}

//! The answer to a request for a system with some labels split.
ghost use Rattle.std.specs.Prelude.{◌≡◌, ◌≤◌, IfOk};
ghost use Rattle.rg_top.specs.Split.{SplitEnds, IsSolvedBy, solved_text};
ghost use Rattle.rg_top.specs.Requests.{end_of};
ghost use Rattle.rg_split.specs.Rounds.{labelling};

use crate::answer::Answer;
use rg_apt::print_lts;
use rg_checks::Flaw;
use rg_commands::SplitOutput;
use rg_lts::Lts;
use rg_memory::NoMemory;
use rg_messages::{WideCause, flaw_text, full_text};
use rg_net::Net;
use rg_netfile::print_labelled;
use rg_ports::Gate;
use rg_split::{Splitting, split};
use std::alloc::Global;
use std::thread::Threads;

// The net of the system with its labels split, or that system.
pub(crate) fn split_answer<R: Threads + Sync, G: Gate + Sync>(
    rt: &R,
    alloc: Global,
    output: SplitOutput,
    lts: &Lts,
    jobs: u8,
    gate: &G,
) -> Result<Answer, NoMemory>
    requires some { 1 ≤ jobs }
    ensures { IfOk result (λ a. SplitEnds lts.now output (end_of a)) }
{
    lts.is_well_formed();
    match split(rt, alloc, lts, jobs, gate)? {
        Splitting::Done { system, old, net } => {
            let text = solved_text(alloc, output, lts, &system, &old, &net)?;
            Ok(Answer::Yes(text))
        }
        Splitting::Unreachable(s) => {
            let text = flaw_text(alloc, lts, Flaw::Unreachable(s))?;
            Ok(Answer::No(text))
        }
        Splitting::Full { .. } => Ok(Answer::No(full_text(alloc)?)),
        Splitting::TooWide { system, old: _, at } => {
            Ok(Answer::TooWide(WideCause::Split(system, at)))
        }
    }
}

// The text of the net whose transitions have the labels of the file's system, or of the system that the net solves.
fn solved_text(
    alloc: Global,
    output: SplitOutput,
    lts: &Lts,
    system: &Lts,
    old: &[u32],
    net: &Net,
) -> Result<Vec<u8>, NoMemory>
    requires { IsSolvedBy lts.now (labelling system.now old.now) net.now }
    ensures { IfOk result (λ text. text.items ≡ solved_text lts.now (labelling system.now old.now) net.now output) }
{
    match output {
        SplitOutput::Net => print_labelled(alloc, net, system, old, lts),
        SplitOutput::System => print_lts(alloc, system),
    }
}

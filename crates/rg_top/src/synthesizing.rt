//! The answer to a request for a net.
ghost use Rattle.std.specs.Prelude.{◌≡◌, ◌≤◌, IfOk};
ghost use Rattle.rg_theory.specs.ClassWords.{HasNumbersInRange};
ghost use Rattle.rg_top.specs.Requests.{end_of};
ghost use Rattle.rg_top.specs.Synthesize.{SynthesizeEnds};

use crate::answer::Answer;
use rg_cert::print;
use rg_lts::Lts;
use rg_memory::NoMemory;
use rg_messages::WideCause;
use rg_netfile::print_net;
use rg_ports::Gate;
use rg_synth::{Answer as Outcome, synthesize};
use rg_theory::Class;
use std::alloc::Global;
use std::thread::Threads;

// A net of the class for the system, or why there is none.
pub(crate) fn net_answer<R: Threads + Sync, G: Gate + Sync>(
    rt: &R,
    alloc: Global,
    class: Class,
    lts: &Lts,
    jobs: u8,
    gate: &G,
) -> Result<Answer, NoMemory>
    requires bound { HasNumbersInRange class }
    requires some { 1 ≤ jobs }
    ensures { IfOk result (λ a. SynthesizeEnds class lts.now (end_of a)) }
{
    lts.is_well_formed();
    match synthesize(rt, alloc, lts, class, jobs, gate)? {
        Outcome::Net(net) => Ok(Answer::Yes(print_net(alloc, &net, lts)?)),
        Outcome::Unsolvable(cert) => Ok(Answer::No(print(alloc, &cert, lts)?)),
        Outcome::TooWide(at) => Ok(Answer::TooWide(WideCause::Synthesis(at))),
    }
}

//! The answer to a request for a verdict on a net.
ghost use Rattle.std.specs.Prelude.{◌≡◌, ℕ, ◌≤◌, Some, length, IfOk, IsErrOf};
ghost use Rattle.rg_ports.specs.Count.{HasRisen};
ghost use Rattle.rg_text.specs.Limits.{most_bytes};
ghost use Rattle.rg_lts.specs.WellFormed.{IsWellFormed};
ghost use Rattle.rg_theory.specs.System.{labels};
ghost use Rattle.rg_top.specs.Check.{CheckEnds};
ghost use Rattle.rg_top.specs.Requests.{end_of, asked_more, ReadsMore, TellsBytes, TellsNet};
ghost use Rattle.rg_top.specs.declared.answer.Stop.TheVariants as stop;

use crate::answer::{Answer, Stop};
use crate::files::{FileStop, read_bytes};
use rg_lts::Lts;
use rg_memory::NoMemory;
use rg_messages::{Fault, FileFault, WideCause, check_text, verdict_has_names, yes_text};
use rg_net::Net;
use rg_net_verdict::{CheckStop, NetVerdict, check_net, verdict_is_sound};
use rg_netfile::{NetFault, read_net};
use rg_ports::Shelf;
use rg_theory::Class;
use std::alloc::Global;

// Whether the net of the file solves the system and is of the class.
pub(crate) fn verdict_answer<H: Shelf>(
    alloc: Global,
    lts: &Lts,
    class: Class,
    name: &str,
    shelf: &mut H,
) -> Result<Answer, Stop>
    ensures files { H.files shelf.new ≡ H.files shelf.old }
    ensures asked { H.asked shelf.new ≡ asked_more (H.asked shelf.old) (Some name.now) }
    ensures reads { ReadsMore H.finds H.hands (Some name.now) shelf.old shelf.new }
    ensures ok { IfOk result (λ a. CheckEnds (H.files shelf.old) class name.now lts.now (end_of a)) }
    ensures never_falls { H.faults shelf.old ≤ H.faults shelf.new }
    ensures fault { IsErrOf result stop.ReadFault → HasRisen (H.faults shelf.old) (H.faults shelf.new) }
{
    match read_bytes(alloc, shelf, name) {
        Ok(bytes) => Ok(text_answer(alloc, lts, class, &bytes)?),
        Err(FileStop::Refused(fault)) => Ok(Answer::File(FileFault { file: 2, fault })),
        Err(FileStop::Failed) => Err(Stop::ReadFault),
        Err(FileStop::NoMemory) => Err(Stop::NoMemory),
    }
}

// The answer to the bytes of a net's file.
fn text_answer(alloc: Global, lts: &Lts, class: Class, bytes: &[u8]) -> Result<Answer, NoMemory>
    requires short { length bytes.now ≤ most_bytes }
    ensures { IfOk result (λ a. TellsBytes bytes.now class lts.now (end_of a)) }
{
    match read_net(alloc, bytes, lts) {
        Ok(net) => read_answer(alloc, lts, class, &net),
        Err(fault) => match fault {
            NetFault::NoMemory => Err(NoMemory),
            _ => Ok(Answer::File(FileFault {
                file: 2,
                fault: Fault::Net(fault),
            })),
        },
    }
}

// The answer to a net that the bytes spell.
fn read_answer(alloc: Global, lts: &Lts, class: Class, net: &Net) -> Result<Answer, NoMemory>
    requires { net.now.labels ≡ labels lts.now }
    ensures { IfOk result (λ a. TellsNet net.now class lts.now (end_of a)) }
{
    lts.is_well_formed();
    verdict_is_sound();
    verdict_has_names();
    match check_net(alloc, lts, net, class) {
        Ok(NetVerdict::Yes) => Ok(Answer::Yes(yes_text(alloc)?)),
        Ok(NetVerdict::No(no)) => Ok(Answer::No(check_text(alloc, lts, no)?)),
        Err(CheckStop::Wide(at)) => Ok(Answer::TooWide(WideCause::Check(at))),
        Err(CheckStop::NoMemory) => Err(NoMemory),
    }
}

//! The answer to the words, whole before anything is written.
ghost use Rattle.std.specs.Prelude.{◌≡◌, ℕ, ◌≤◌, map, string_bytes, IfOk, IsErrOf};
ghost use Rattle.rg_ports.specs.Count.{HasRisen};
ghost use Rattle.rg_lts.specs.WellFormed.{IsWellFormed};
ghost use Rattle.rg_commands.specs.Requests.{named, named_work, second_file, HasBounds, HasWorkBounds};
ghost use Rattle.rg_top.specs.Ends.{EndsOn, FileEnds, EndsOf, Answers};
ghost use Rattle.rg_top.specs.Requests.{end_of, asked_more, ReadsMore, AsksOf, HasCause, ReadsOf, IsOfFile};
ghost use Rattle.rg_top.specs.Run.{AsksAtMost, AsksFiles, ReadsAtMost, ReadsFiles, IsReadFault};
ghost use Rattle.rg_top.specs.declared.answer.Stop.TheVariants as stop;

use crate::checking::verdict_answer;
use crate::comparing::comparison_answer;
use crate::converting::conversion_answer;
use crate::examining::report_answer;
use crate::factoring::factor_answer;
use crate::files::{FileStop, read_system};
use crate::generating::generated_answer;
use crate::splitting::split_answer;
use crate::synthesizing::net_answer;
use crate::testing::self_test_answer;
use crate::verifying::judgement_answer;
use rg_commands::{Form, Request, Usage, WordsStop, Work, read_words};
use rg_lts::Lts;
use rg_memory::NoMemory;
use rg_messages::{FileFault, WideCause};
use rg_ports::{Gate, Shelf};
use std::alloc::Global;
use std::thread::Threads;

// How a command ends: its yes or its no, with the text for out; why the words or a file are refused; or the number
// that is out of range.
#[derive(Drop)]
pub(crate) enum Answer {
    Yes(Vec<u8>),
    No(Vec<u8>),
    Usage(Usage),
    File(FileFault),
    TooWide(WideCause),
}

// Why there is no answer.
pub(crate) enum Stop {
    ReadFault,
    NoMemory,
}

impl From<NoMemory> for Stop {
    ghost from_gives = { λ _ e. e ≡ stop.NoMemory };

    fn from(_: NoMemory) -> Stop {
        Stop::NoMemory
    }
}

// Returns the answer to the words.
pub(crate) fn make_answer<R: Threads + Sync, H: Shelf, G: Gate + Sync>(
    rt: &R,
    alloc: Global,
    words: &[String],
    shelf: &mut H,
    gate: &G,
) -> Result<Answer, Stop>
    ensures files { H.files shelf.new ≡ H.files shelf.old }
    ensures asked { AsksAtMost (map string_bytes words.now) (H.files shelf.old) (H.asked shelf.old) (H.asked shelf.new) }
    ensures reads { ReadsAtMost H.finds H.hands (map string_bytes words.now) (H.files shelf.old) (HasCause result) shelf.old shelf.new }
    ensures says { IfOk result (λ a. Answers (map string_bytes words.now) (H.files shelf.old) (end_of a)) }
    ensures fault { IsErrOf result stop.ReadFault → IsReadFault (map string_bytes words.now) (record { before = H.faults shelf.old; after = H.faults shelf.new }) }
{
    match read_words(alloc, words) {
        Ok(request) => request_answer(rt, alloc, request, shelf, gate),
        Err(WordsStop::Refused(usage)) => Ok(Answer::Usage(usage)),
        Err(WordsStop::NoMemory) => Err(Stop::NoMemory),
    }
}

// The answer to a request.
fn request_answer<R: Threads + Sync, H: Shelf, G: Gate + Sync>(
    rt: &R,
    alloc: Global,
    request: Request<&str>,
    shelf: &mut H,
    gate: &G,
) -> Result<Answer, Stop>
    requires { HasBounds (named request) }
    ensures files { H.files shelf.new ≡ H.files shelf.old }
    ensures asked { AsksOf (H.files shelf.old) (named request.entry) (H.asked shelf.old) (H.asked shelf.new) }
    ensures reads { ReadsOf H.finds H.hands (H.files shelf.old) (named request.entry) (HasCause result) shelf.old shelf.new }
    ensures ok { IfOk result (λ a. EndsOf (H.files shelf.old) (named request.entry) (end_of a)) }
    ensures fault { IsErrOf result stop.ReadFault → IsOfFile (named request.entry) × HasRisen (H.faults shelf.old) (H.faults shelf.new) }
{
    match request {
        Request::OfSystem(work, file, form) => {
            file_answer(rt, alloc, work, file, form, shelf, gate)
        }
        Request::Generate(kind, n) => Ok(generated_answer(alloc, kind, n)?),
        Request::SelfTest(n) => Ok(self_test_answer(rt, alloc, n, gate)?),
    }
}

// The answer to work on the system of a file.
fn file_answer<R: Threads + Sync, H: Shelf, G: Gate + Sync>(
    rt: &R,
    alloc: Global,
    work: Work<&str>,
    file: &str,
    form: Form,
    shelf: &mut H,
    gate: &G,
) -> Result<Answer, Stop>
    requires { HasWorkBounds (named_work work) }
    ensures files { H.files shelf.new ≡ H.files shelf.old }
    ensures asked { AsksFiles (H.files shelf.old) (named_work work.entry) file.now form (H.asked shelf.old) (H.asked shelf.new) }
    ensures reads { ReadsFiles H.finds H.hands (H.files shelf.old) (named_work work.entry) file.now form (HasCause result) shelf.old shelf.new }
    ensures ok { IfOk result (λ a. FileEnds (H.files shelf.old) (named_work work.entry) file.now form (end_of a)) }
    ensures fault { IsErrOf result stop.ReadFault → HasRisen (H.faults shelf.old) (H.faults shelf.new) }
{
    match read_system(alloc, shelf, file, form) {
        Ok(lts) => system_answer(rt, alloc, work, &lts, shelf, gate),
        Err(FileStop::Refused(fault)) => Ok(Answer::File(FileFault { file: 1, fault })),
        Err(FileStop::Failed) => Err(Stop::ReadFault),
        Err(FileStop::NoMemory) => Err(Stop::NoMemory),
    }
}

// The answer to a system of which something is asked.
fn system_answer<R: Threads + Sync, H: Shelf, G: Gate + Sync>(
    rt: &R,
    alloc: Global,
    work: Work<&str>,
    lts: &Lts,
    shelf: &mut H,
    gate: &G,
) -> Result<Answer, Stop>
    requires { HasWorkBounds (named_work work) }
    ensures formed { IsWellFormed lts.now }
    ensures files { H.files shelf.new ≡ H.files shelf.old }
    ensures asked { H.asked shelf.new ≡ asked_more (H.asked shelf.old) (second_file (named_work work.entry)) }
    ensures reads { ReadsMore H.finds H.hands (second_file (named_work work.entry)) shelf.old shelf.new }
    ensures ok { IfOk result (λ a. EndsOn (H.files shelf.old) (named_work work.entry) lts.now (end_of a)) }
    ensures never_falls { H.faults shelf.old ≤ H.faults shelf.new }
    ensures fault { IsErrOf result stop.ReadFault → HasRisen (H.faults shelf.old) (H.faults shelf.new) }
{
    lts.is_well_formed();
    match work {
        Work::Synthesize(class, jobs) => Ok(net_answer(rt, alloc, class, lts, jobs, gate)?),
        Work::Verify(cert) => judgement_answer(alloc, lts, cert, shelf),
        Work::Check(class, net) => verdict_answer(alloc, lts, class, net, shelf),
        Work::Convert(target) => Ok(conversion_answer(alloc, lts, target)?),
        Work::Factor(class, jobs) => Ok(factor_answer(rt, alloc, class, lts, jobs, gate)?),
        Work::Split(output, jobs) => Ok(split_answer(rt, alloc, output, lts, jobs, gate)?),
        Work::Isomorphic(second, form) => comparison_answer(alloc, lts, second, form, shelf),
        Work::Examine(output) => Ok(report_answer(alloc, lts, output)?),
    }
}

//! The files that the words name.
ghost use Rattle.std.specs.Prelude.{◌≡◌, ◌≢◌, ℕ, ◌≤◌, length, IfOk, IfErr, IsErrOf};
ghost use Rattle.rg_ports.specs.Calls.{LastCall, finds_end, fails, ReadsFile};
ghost use Rattle.rg_ports.specs.Count.{HasRisen};
ghost use Rattle.rg_ports.specs.Shelf.{asked_with};
ghost use Rattle.rg_text.specs.Limits.{most_bytes};
ghost use Rattle.rg_messages.specs.declared.fault.Fault.{Fault};
ghost use Rattle.rg_top.specs.declared.files.FileStop.TheVariants as stop;
ghost use Rattle.rg_top.specs.Given.{IsFile, IsUnread, SpellsAs, IsFaultAs, IsNoSystem, IsSystemFile};

use rg_apt::{TextFault, read_lts};
use rg_commands::Form;
use rg_genet::{GraphFault, read_graph};
use rg_lts::Lts;
use rg_messages::Fault;
use rg_ports::{ReadStop, Shelf, read_all};
use rg_text::MOST_BYTES;
use rg_words::{WordFault, read_words};
use std::alloc::Global;

// Why a file gave nothing.
pub(crate) enum FileStop {
    Refused(Fault),
    Failed,
    NoMemory,
}

// The bytes of the file with this name.
pub(crate) fn read_bytes<H: Shelf>(
    alloc: Global,
    shelf: &mut H,
    name: &str,
) -> Result<Vec<u8>, FileStop>
    ensures files { H.files shelf.new ≡ H.files shelf.old }
    ensures asked { H.asked shelf.new ≡ asked_with (H.asked shelf.old) name.now }
    ensures reads { (last : LastCall) × ReadsFile H.finds H.hands most_bytes name.now shelf.old last shelf.new }
    ensures whole { IfOk result (λ _. ReadsFile H.finds H.hands most_bytes name.now shelf.old finds_end shelf.new) }
    ensures failed { IsErrOf result stop.Failed → ReadsFile H.finds H.hands most_bytes name.now shelf.old fails shelf.new }
    ensures ok { IfOk result (λ bytes. IsFile (H.files shelf.old) name.now bytes.items) }
    ensures refused { (fault : Fault) → IsErrOf result (stop.Refused fault) → IsUnread (H.files shelf.old) name.now fault }
    ensures never_falls { H.faults shelf.old ≤ H.faults shelf.new }
    ensures rises { IsErrOf result stop.Failed → HasRisen (H.faults shelf.old) (H.faults shelf.new) }
{
    match read_all(alloc, shelf, name, MOST_BYTES) {
        Ok(bytes) => Ok(bytes),
        Err(ReadStop::Missing) => Err(FileStop::Refused(Fault::Missing)),
        Err(ReadStop::TooLong) => Err(FileStop::Refused(Fault::TooLong)),
        Err(ReadStop::Failed) => Err(FileStop::Failed),
        Err(ReadStop::NoMemory) => Err(FileStop::NoMemory),
    }
}

// The system of the file with this name.
pub(crate) fn read_system<H: Shelf>(
    alloc: Global,
    shelf: &mut H,
    name: &str,
    form: Form,
) -> Result<Lts, FileStop>
    ensures files { H.files shelf.new ≡ H.files shelf.old }
    ensures asked { H.asked shelf.new ≡ asked_with (H.asked shelf.old) name.now }
    ensures reads { (last : LastCall) × ReadsFile H.finds H.hands most_bytes name.now shelf.old last shelf.new }
    ensures whole { IfOk result (λ _. ReadsFile H.finds H.hands most_bytes name.now shelf.old finds_end shelf.new) }
    ensures failed { IsErrOf result stop.Failed → ReadsFile H.finds H.hands most_bytes name.now shelf.old fails shelf.new }
    ensures ok { IfOk result (λ lts. IsSystemFile (H.files shelf.old) form name.now lts) }
    ensures refused { (fault : Fault) → IsErrOf result (stop.Refused fault) → IsNoSystem (H.files shelf.old) form name.now fault }
    ensures never_falls { H.faults shelf.old ≤ H.faults shelf.new }
    ensures rises { IsErrOf result stop.Failed → HasRisen (H.faults shelf.old) (H.faults shelf.new) }
{
    match read_bytes(alloc, shelf, name) {
        Ok(bytes) => system_of(alloc, &bytes, form),
        Err(stop) => Err(stop),
    }
}

// The system that the bytes spell in the form.
fn system_of(alloc: Global, bytes: &[u8], form: Form) -> Result<Lts, FileStop>
    requires { length bytes.now ≤ most_bytes }
    ensures ok { IfOk result (λ lts. SpellsAs form bytes.now lts) }
    ensures refused { (fault : Fault) → IsErrOf result (stop.Refused fault) → IsFaultAs form bytes.now fault }
    ensures cause { IfErr result (λ e. e ≢ stop.Failed) }
{
    match form {
        Form::Apt => match read_lts(alloc, bytes) {
            Ok(lts) => Ok(lts),
            Err(TextFault::NoMemory) => Err(FileStop::NoMemory),
            Err(fault) => Err(FileStop::Refused(Fault::Apt(fault))),
        },
        Form::Graph => match read_graph(alloc, bytes) {
            Ok(lts) => Ok(lts),
            Err(GraphFault::NoMemory) => Err(FileStop::NoMemory),
            Err(fault) => Err(FileStop::Refused(Fault::Graph(fault))),
        },
        Form::Words => match read_words(alloc, bytes) {
            Ok(lts) => Ok(lts),
            Err(WordFault::NoMemory) => Err(FileStop::NoMemory),
            Err(fault) => Err(FileStop::Refused(Fault::Words(fault))),
        },
    }
}

//! The top call.
ghost use Rattle.std.specs.Prelude.{◌≡◌, map, string_bytes};
ghost use Rattle.rg_top.specs.Requests.{IsWritten};
ghost use Rattle.rg_top.specs.Terms.{Term};
ghost use Rattle.rg_top.specs.Run.{Ends, seen, change, writes, AsksAtMost, MayHaveCause, ReadsAtMost, ComesIfDue, ComesIfPassed};
ghost use Rattle.rg_top.specs.declared.status.Status.{Status};

use crate::answer::{Stop, make_answer};
use crate::laws::answers_are_one;
use crate::output::{Output, output_of};
use crate::status::Status;
use rg_ports::{Gate, Shelf, Sink, write_all};
use std::alloc::Global;
use std::thread::Threads;

/// Runs the command that the words name. `synthesize CLASS FILE` writes to `out` the text of a net of the class that
/// solves the system of the file, or of a certificate that there is none; `verify FILE CERT` whether the certificate
/// is accepted for the system; `check CLASS FILE NET` whether the net solves the system and is of the class; `factor
/// FILE` the factors of which the system is the product, or with a class the net of them all side by side; `split
/// FILE` a net for the system with some labels split, or that system; `isomorphic FILE FILE2` whether two systems are
/// isomorphic, with the map or the first difference; `examine FILE` what the system is like; `convert FORM FILE` the
/// system in another form; `generate KIND N` the system of a family for a number; `selftest N` the results for three
/// such systems: a net with the verdict of `check`, or a certificate with the verdict of `verify`.
///
/// A refusal of words or files, and a number out of range, is a line on `err`. The whole output is computed before
/// the first write, and each write offers all that isn't taken yet. A file isn't read on once its end was found. A
/// second one that is named is asked for only if the first spells a system, and then always unless memory runs out.
/// The problems of a system are solved by as many jobs as the words say, those of a self test by one, and the gate is
/// entered and left for each number of a block of them.
///
/// The status says how the run ended. `Ends` has the cause of each status, and `ComesIfDue` says that an expected
/// status is returned. `synthesize` has one answer for the system and the class (`Out`, in `rg_outcome`): a net, a
/// reason, or by `ComesIfPassed` a number out of range. Neither the jobs nor the gate can change it
/// (`answers_are_one`).
pub fn run<R: Threads + Sync, H: Shelf, O: Sink, E: Sink, G: Gate + Sync>(
    rt: &R,
    alloc: Global,
    words: &[String],
    shelf: &mut H,
    out: &mut O,
    err: &mut E,
    gate: &G,
) -> Status
    ensures ends { Ends (seen (map string_bytes words.now) (H.files shelf.old) (change (H.faults shelf.old) (H.faults shelf.new))
        (writes O.taken O.faults O.gives out.old out.new) (writes E.taken E.faults E.gives err.old err.new)) result }
    ensures exactly { (due : Status) → ComesIfDue (map string_bytes words.now) (H.files shelf.old) due result }
    ensures passed { (w : Term) → ComesIfPassed (map string_bytes words.now) (H.files shelf.old) w result }
    ensures files { H.files shelf.new ≡ H.files shelf.old }
    ensures asked { AsksAtMost (map string_bytes words.now) (H.files shelf.old) (H.asked shelf.old) (H.asked shelf.new) }
    ensures reads { ReadsAtMost H.finds H.hands (map string_bytes words.now) (H.files shelf.old) (MayHaveCause result) shelf.old shelf.new }
{
    answers_are_one();
    let made = match make_answer(rt, alloc, words, shelf, gate) {
        Ok(made) => made,
        Err(Stop::ReadFault) => return Status::ReadFault,
        Err(Stop::NoMemory) => return Status::NoMemory,
    };
    match output_of(alloc, made) {
        Ok(Output::Out(status, text)) => write_output(out, status, &text),
        Ok(Output::Err(status, line)) => write_output(err, status, &line),
        Err(_) => Status::NoMemory,
    }
}

// Writes the bytes, and returns the status, or that a write failed.
fn write_output<S: Sink>(sink: &mut S, status: Status, bytes: &[u8]) -> Status
    ensures { IsWritten (writes S.taken S.faults S.gives sink.old sink.new) bytes.now status result }
{
    match write_all(sink, bytes) {
        Ok(()) => status,
        Err(_) => Status::WriteFault,
    }
}

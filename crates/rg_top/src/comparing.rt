//! The answer to a request for a comparison.
ghost use Rattle.std.specs.Prelude.{◌≡◌, ℕ, ◌≤◌, Some, IfOk, IsErrOf};
ghost use Rattle.rg_ports.specs.Count.{HasRisen};
ghost use Rattle.rg_lts.specs.WellFormed.{IsWellFormed};
ghost use Rattle.rg_checks.specs.Flaws.{IsFlawless};
ghost use Rattle.rg_iso.specs.Compared.{told_of};
ghost use Rattle.rg_top.specs.Isomorphic.{IsomorphicEnds, PairEnds, told_end};
ghost use Rattle.rg_top.specs.Requests.{end_of, asked_more, ReadsMore};
ghost use Rattle.rg_top.specs.declared.answer.Stop.TheVariants as stop;

use crate::answer::{Answer, Stop};
use crate::files::{FileStop, read_system};
use rg_checks::first_flaw;
use rg_commands::Form;
use rg_iso::{Same, compare};
use rg_lts::Lts;
use rg_memory::NoMemory;
use rg_messages::{FileFault, comparison_has_names, file_flaw_text, same_text};
use rg_ports::Shelf;
use std::alloc::Global;

// Whether the system of the file is isomorphic to this one.
pub(crate) fn comparison_answer<H: Shelf>(
    alloc: Global,
    lts: &Lts,
    name: &str,
    form: Form,
    shelf: &mut H,
) -> Result<Answer, Stop>
    ensures files { H.files shelf.new ≡ H.files shelf.old }
    ensures asked { H.asked shelf.new ≡ asked_more (H.asked shelf.old) (Some name.now) }
    ensures reads { ReadsMore H.finds H.hands (Some name.now) shelf.old shelf.new }
    ensures ok { IfOk result (λ a. IsomorphicEnds (H.files shelf.old) name.now form lts.now (end_of a)) }
    ensures never_falls { H.faults shelf.old ≤ H.faults shelf.new }
    ensures fault { IsErrOf result stop.ReadFault → HasRisen (H.faults shelf.old) (H.faults shelf.new) }
{
    match read_system(alloc, shelf, name, form) {
        Ok(other) => Ok(pair_answer(alloc, lts, &other)?),
        Err(FileStop::Refused(fault)) => Ok(Answer::File(FileFault { file: 2, fault })),
        Err(FileStop::Failed) => Err(Stop::ReadFault),
        Err(FileStop::NoMemory) => Err(Stop::NoMemory),
    }
}

// What is said of two systems.
fn pair_answer(alloc: Global, a: &Lts, b: &Lts) -> Result<Answer, NoMemory>
    ensures formed { IsWellFormed b.now }
    ensures ends { IfOk result (λ made. PairEnds a.now b.now (end_of made)) }
{
    b.is_well_formed();
    if let Some(flaw) = first_flaw(alloc, a)? {
        let text = file_flaw_text(alloc, 1, a, flaw)?;
        return Ok(Answer::No(text));
    }
    if let Some(flaw) = first_flaw(alloc, b)? {
        let text = file_flaw_text(alloc, 2, b, flaw)?;
        return Ok(Answer::No(text));
    }
    flawless_answer(alloc, a, b)
}

// The answer on two flawless systems.
fn flawless_answer(alloc: Global, a: &Lts, b: &Lts) -> Result<Answer, NoMemory>
    requires first { IsFlawless a.now }
    requires second { IsFlawless b.now }
    ensures { IfOk result (λ made. PairEnds a.now b.now (end_of made)) }
{
    a.is_well_formed();
    b.is_well_formed();
    comparison_has_names();
    let same = compare(alloc, a, b)?;
    let text = same_text(alloc, a, b, &same)?;
    Ok(told_answer(&same, text))
}

// The answer with the text of a comparison: a map is the yes.
fn told_answer(same: &Same, text: Vec<u8>) -> Answer
    ensures { end_of result ≡ told_end (told_of same.now) text.items }
{
    match same {
        Same::Map(_) => Answer::Yes(text),
        _ => Answer::No(text),
    }
}

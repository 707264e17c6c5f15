//! The lines for the first flaw of a system.
ghost use Rattle.std.specs.Prelude.{◌≡◌, ◌++◌, IfOk, OnOk};
ghost use Rattle.rg_checks.specs.Flaws.{IsFirstFlaw, IsFlawInRange};
ghost use Rattle.rg_messages.specs.FlawTexts.{flaw_words, flaw_line, file_flaw_line};

use crate::pieces::{push_number, push_state, push_states, push_step};
use rg_checks::Flaw;
use rg_lts::Lts;
use std::alloc::{AllocError, Global};

/// Returns the line for the first flaw of the system.
pub fn flaw_text(alloc: Global, lts: &Lts, flaw: Flaw) -> Result<Vec<u8>, AllocError>
    requires { IsFirstFlaw lts.now flaw }
    ensures { IfOk result (λ text. text.items ≡ flaw_line lts.now flaw) }
{
    lts.is_well_formed();
    let mut text = Vec::from_slice(alloc, b"no: ")?;
    push_flaw(&mut text, lts, flaw)?;
    text.push(b'\n')?;
    Ok(text)
}

/// Returns the line for the first flaw of the system of the file with this number.
pub fn file_flaw_text(alloc: Global, file: u8, lts: &Lts, flaw: Flaw) -> Result<Vec<u8>, AllocError>
    requires { IsFirstFlaw lts.now flaw }
    ensures { IfOk result (λ text. text.items ≡ file_flaw_line file lts.now flaw) }
{
    lts.is_well_formed();
    let mut text = Vec::new(alloc);
    push_number(&mut text, b"no: file ", u64::from(file))?;
    text.extend_from_slice(b": ")?;
    push_flaw(&mut text, lts, flaw)?;
    text.push(b'\n')?;
    Ok(text)
}

// Adds a flaw.
pub(crate) fn push_flaw(text: &mut Vec<u8>, lts: &Lts, flaw: Flaw) -> Result<(), AllocError>
    requires { IsFlawInRange lts.now flaw }
    ensures { OnOk result (text.new.items ≡ text.old.items ++ flaw_words lts.now flaw) }
{
    match flaw {
        Flaw::Unreachable(s) => push_state(text, b"unreachable ", lts, s),
        Flaw::Fork(fork) => {
            push_step(text, b"fork ", lts, fork.from, fork.label)?;
            push_states(text, b" ", lts, fork.to, fork.other)
        }
    }
}

//! The lines of `selftest`.
ghost use Rattle.std.specs.Prelude.{◌≡◌, ◌++◌, IfOk, OnOk};
ghost use Rattle.rg_cert_data.specs.Certificates.{reason_of, IsReasonOf};
ghost use Rattle.rg_messages.specs.TrialTexts.{kind_word, trial_text, solved_line, reason_line, unsolvable_line};

use crate::pieces::{push_label, push_number, push_state};
use rg_cert_data::Reason;
use rg_families::Kind;
use rg_lts::Lts;
use std::alloc::{AllocError, Global};

/// Returns the line that says of the system of a family that a net of so many places solves it, with the line of the
/// verdict on that net.
pub fn solved_text(
    alloc: Global,
    kind: Kind,
    n: u32,
    lts: &Lts,
    places: usize,
    verdict: &[u8],
) -> Result<Vec<u8>, AllocError>
    ensures { IfOk result (λ text. text.items ≡ solved_line kind n lts.now places verdict.now) }
{
    let mut text = trial_text(alloc, kind, n, lts)?;
    push_number(&mut text, b" places ", places as u64)?;
    text.extend_from_slice(b" check ")?;
    text.extend_from_slice(verdict)?;
    Ok(text)
}

/// Returns the line that says of the system of a family why no net solves it, where the certificate with that reason
/// is accepted.
pub fn unsolvable_text(
    alloc: Global,
    kind: Kind,
    n: u32,
    lts: &Lts,
    reason: &Reason,
) -> Result<Vec<u8>, AllocError>
    requires { IsReasonOf lts.now (reason_of reason.now) }
    ensures { IfOk result (λ text. text.items ≡ unsolvable_line kind n lts.now (reason_of reason.now)) }
{
    let mut text = trial_text(alloc, kind, n, lts)?;
    text.extend_from_slice(b" unsolvable ")?;
    push_reason(&mut text, lts, reason)?;
    text.extend_from_slice(b" verify yes\n")?;
    Ok(text)
}

// What the system is.
fn trial_text(alloc: Global, kind: Kind, n: u32, lts: &Lts) -> Result<Vec<u8>, AllocError>
    ensures { IfOk result (λ text. text.items ≡ trial_text kind n lts.now) }
{
    let mut text = Vec::from_slice(alloc, kind_word(kind))?;
    push_number(&mut text, b" ", u64::from(n))?;
    push_number(&mut text, b": states ", u64::from(lts.states()))?;
    push_number(&mut text, b" arcs ", lts.arcs().len() as u64)?;
    Ok(text)
}

// The word of a family.
fn kind_word(kind: Kind) -> &'static [u8]
    ensures { result.now ≡ kind_word kind }
{
    match kind {
        Kind::Grid => b"grid",
        Kind::Doubling => b"doubling",
        Kind::Lock => b"lock",
    }
}

// Adds the line of a reason, without its end.
fn push_reason(text: &mut Vec<u8>, lts: &Lts, reason: &Reason) -> Result<(), AllocError>
    requires { IsReasonOf lts.now (reason_of reason.now) }
    ensures { OnOk result (text.new.items ≡ text.old.items ++ reason_line lts.now (reason_of reason.now)) }
{
    match reason {
        Reason::Unreachable(s) => push_state(text, b"unreachable ", lts, *s),
        Reason::Fork(s, t, first, second) => {
            push_state(text, b"fork ", lts, *s)?;
            push_label(text, b" ", lts, *t)?;
            push_state(text, b" ", lts, *first)?;
            push_state(text, b" ", lts, *second)
        }
        Reason::Event(s, t, _) => {
            push_state(text, b"event ", lts, *s)?;
            push_label(text, b" ", lts, *t)
        }
        Reason::States(s, other, _) => {
            push_state(text, b"states ", lts, *s)?;
            push_state(text, b" ", lts, *other)
        }
    }
}

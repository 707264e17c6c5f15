//! The lines of `check`.
ghost use Rattle.std.specs.Prelude.{◌≡◌, ◌<◌, ◌++◌, IfOk, OnOk, codes, decimal};
ghost use Rattle.rg_theory.specs.System.{labels};
ghost use Rattle.rg_cert.specs.Text.{label_name};
ghost use Rattle.rg_messages.specs.CheckedTexts.{yes_line, no_text, no_line, weight_text, break_text, HasNames, HasBreakNames};

use crate::flaw::push_flaw;
use crate::pieces::{push_label, push_number, push_state, push_states, push_step};
use rg_checks::{Flaw, Fork};
use rg_lts::Lts;
use rg_net::ClassBreak;
use rg_net_verdict::NetNo;
use std::alloc::{AllocError, Global};

/// Returns the line that says that the net solves the system and is of the class.
pub fn yes_text(alloc: Global) -> Result<Vec<u8>, AllocError>
    ensures { IfOk result (λ text. text.items ≡ yes_line) }
{
    Vec::from_slice(alloc, b"yes\n")
}

/// Returns the line for the first difference of a net from the system or the class. States and labels have their
/// names in it, and places their numbers.
pub fn check_text(alloc: Global, lts: &Lts, found: NetNo) -> Result<Vec<u8>, AllocError>
    requires { HasNames lts.now found }
    ensures { IfOk result (λ text. text.items ≡ no_line lts.now found) }
{
    let mut text = Vec::from_slice(alloc, b"no: ")?;
    push_no(&mut text, lts, found)?;
    text.push(b'\n')?;
    Ok(text)
}

// Adds the first difference.
fn push_no(text: &mut Vec<u8>, lts: &Lts, found: NetNo) -> Result<(), AllocError>
    requires { HasNames lts.now found }
    ensures { OnOk result (text.new.items ≡ text.old.items ++ no_text lts.now found) }
{
    match found {
        NetNo::Unreachable(s) => push_flaw(text, lts, Flaw::Unreachable(s)),
        NetNo::Fork(from, label, to, other) => {
            let fork = Fork {
                from,
                label,
                to,
                other,
            };
            push_flaw(text, lts, Flaw::Fork(fork))
        }
        NetNo::NotEnabled(s, t) => push_step(text, b"not enabled ", lts, s, t),
        NetNo::SameMarking(s, r) => push_states(text, b"same marking ", lts, s, r),
        NetNo::Enabled(s, t) => push_step(text, b"enabled ", lts, s, t),
        NetNo::WrongStep(s, t) => push_step(text, b"wrong step ", lts, s, t),
        NetNo::Class(broken) => push_break(text, lts, broken),
    }
}

// Adds a break of the class.
fn push_break(text: &mut Vec<u8>, lts: &Lts, broken: ClassBreak) -> Result<(), AllocError>
    requires { HasBreakNames lts.now broken }
    ensures { OnOk result (text.new.items ≡ text.old.items ++ break_text lts.now broken) }
{
    match broken {
        ClassBreak::NotPure(p, t) => push_weight(text, b"not pure place ", lts, p, t),
        ClassBreak::NotPlain(p, t) => push_weight(text, b"not plain place ", lts, p, t),
        ClassBreak::Over(p, s) => {
            push_number(text, b"over place ", u64::from(p))?;
            push_state(text, b" ", lts, s)
        }
        ClassBreak::Branching(p, t, u) => push_branching(text, b"branching place ", lts, p, t, u),
        ClassBreak::NotMultiple(p) => push_number(text, b"not multiple place ", u64::from(p)),
    }
}

// Adds words, the number of a place and a label.
fn push_weight(
    text: &mut Vec<u8>,
    words: &[u8],
    lts: &Lts,
    p: u32,
    t: u32,
) -> Result<(), AllocError>
    requires { t < labels lts.now }
    ensures { OnOk result (text.new.items ≡ text.old.items ++ (words.now ++ weight_text lts.now p t)) }
{
    push_number(text, words, u64::from(p))?;
    push_label(text, b" ", lts, t)
}

// Adds words, the number of a place and two labels.
fn push_branching(
    text: &mut Vec<u8>,
    words: &[u8],
    lts: &Lts,
    p: u32,
    t: u32,
    u: u32,
) -> Result<(), AllocError>
    requires first { t < labels lts.now }
    requires second { u < labels lts.now }
    ensures { OnOk result (text.new.items ≡ text.old.items ++ (words.now ++ weight_text lts.now p t ++ codes " " ++ label_name lts.now u)) }
{
    push_weight(text, words, lts, p, t)?;
    push_label(text, b" ", lts, u)
}

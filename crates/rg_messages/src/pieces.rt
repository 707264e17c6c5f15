//! What lines are made of.
ghost use Rattle.std.specs.Prelude.{◌≡◌, ◌<◌, ◌++◌, OnOk, codes, decimal};
ghost use Rattle.rg_theory.specs.System.{states, labels};
ghost use Rattle.rg_cert.specs.Text.{state_name, label_name};
ghost use Rattle.rg_messages.specs.FlawTexts.{step_text};

use itoa::Buffer;
use rg_lts::Lts;
use std::alloc::AllocError;

// Adds words and a number.
pub(crate) fn push_number(text: &mut Vec<u8>, words: &[u8], n: u64) -> Result<(), AllocError>
    ensures { OnOk result (text.new.items ≡ text.old.items ++ (words.now ++ decimal n)) }
{
    let mut buffer = Buffer::new();
    text.extend_from_slice(words)?;
    text.extend_from_slice(buffer.format(n).as_bytes())?;
    Ok(())
}

// Adds words and the name of a state.
pub(crate) fn push_state(
    text: &mut Vec<u8>,
    words: &[u8],
    lts: &Lts,
    s: u32,
) -> Result<(), AllocError>
    requires { s < states lts.now }
    ensures { OnOk result (text.new.items ≡ text.old.items ++ (words.now ++ state_name lts.now s)) }
{
    text.extend_from_slice(words)?;
    text.extend_from_slice(lts.state_name(s).as_bytes())?;
    Ok(())
}

// Adds words and the name of a label.
pub(crate) fn push_label(
    text: &mut Vec<u8>,
    words: &[u8],
    lts: &Lts,
    t: u32,
) -> Result<(), AllocError>
    requires { t < labels lts.now }
    ensures { OnOk result (text.new.items ≡ text.old.items ++ (words.now ++ label_name lts.now t)) }
{
    text.extend_from_slice(words)?;
    text.extend_from_slice(lts.label_name(t).as_bytes())?;
    Ok(())
}

// Adds words, a state and a label.
pub(crate) fn push_step(
    text: &mut Vec<u8>,
    words: &[u8],
    lts: &Lts,
    s: u32,
    t: u32,
) -> Result<(), AllocError>
    requires state { s < states lts.now }
    requires label { t < labels lts.now }
    ensures { OnOk result (text.new.items ≡ text.old.items ++ (words.now ++ step_text lts.now s t)) }
{
    push_state(text, words, lts, s)?;
    push_label(text, b" ", lts, t)
}

// Adds words and two states.
pub(crate) fn push_states(
    text: &mut Vec<u8>,
    words: &[u8],
    lts: &Lts,
    s: u32,
    r: u32,
) -> Result<(), AllocError>
    requires first { s < states lts.now }
    requires second { r < states lts.now }
    ensures { OnOk result (text.new.items ≡ text.old.items ++ (words.now ++ state_name lts.now s ++ codes " " ++ state_name lts.now r)) }
{
    push_state(text, words, lts, s)?;
    push_state(text, b" ", lts, r)
}

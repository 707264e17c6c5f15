//! The lines of `convert`.
ghost use Rattle.std.specs.Prelude.{◌≡◌, ◌<◌, IfOk};
ghost use Rattle.rg_theory.specs.System.{states, labels};
ghost use Rattle.rg_messages.specs.LostTexts.{lost_label_line, lost_state_line};

use crate::pieces::{push_label, push_state};
use rg_lts::Lts;
use std::alloc::{AllocError, Global};

/// Returns the line that says that a state graph can't hold label `t`.
pub fn label_loss_text(alloc: Global, lts: &Lts, t: u32) -> Result<Vec<u8>, AllocError>
    requires { t < labels lts.now }
    ensures { IfOk result (λ text. text.items ≡ lost_label_line lts.now t) }
{
    let mut text = Vec::new(alloc);
    push_label(&mut text, b"no: label ", lts, t)?;
    text.extend_from_slice(b" has no arc\n")?;
    Ok(text)
}

/// Returns the line that says that a state graph can't hold state `s`.
pub fn state_loss_text(alloc: Global, lts: &Lts, s: u32) -> Result<Vec<u8>, AllocError>
    requires { s < states lts.now }
    ensures { IfOk result (λ text. text.items ≡ lost_state_line lts.now s) }
{
    let mut text = Vec::new(alloc);
    push_state(&mut text, b"no: state ", lts, s)?;
    text.extend_from_slice(b" has no arc\n")?;
    Ok(text)
}

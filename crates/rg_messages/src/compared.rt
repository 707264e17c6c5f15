//! The lines of `isomorphic`.
ghost use Rattle.std.specs.Prelude.{◌≡◌, ◌<◌, ◌++◌, ◌∷◌, [], IfOk, OnOk, codes, decimal};
ghost use Rattle.rg_theory.specs.System.{System, states, labels, IsInRange};
ghost use Rattle.rg_cert.specs.Text.{label_name};
ghost use Rattle.rg_iso.specs.Compared.{Told, Compares, told_of};
ghost use Rattle.rg_messages.specs.FlawTexts.{step_text};
ghost use Rattle.rg_messages.specs.ComparedTexts.{numbered as numbered_of, pair_line, map_text as text_of_map, told_text, HasPairNames, HasToldNames};

use crate::pieces::{push_label, push_number, push_state, push_step};
use rg_iso::Same;
use rg_lts::Lts;
use std::alloc::{AllocError, Global};

/// Returns the text of a comparison of two systems: `yes` and a line for each state of the first with its state of
/// the second, or the first difference.
pub fn same_text(alloc: Global, a: &Lts, b: &Lts, same: &Same) -> Result<Vec<u8>, AllocError>
    requires { HasToldNames a.now b.now (told_of same.now) }
    ensures { IfOk result (λ text. text.items ≡ told_text a.now b.now (told_of same.now)) }
{
    match same {
        Same::Map(states) => map_text(alloc, a, b, states),
        Same::Label(file, t) => label_text(alloc, *file, system_of(a, b, *file), *t),
        Same::Step(file, s, t) => single_step_text(alloc, *file, system_of(a, b, *file), *s, *t),
        Same::Target(s, t) => target_text(alloc, a, *s, *t),
    }
}

/// Law: the states and labels of a comparison of two systems are those of the systems, so `same_text` may be called.
pub fn comparison_has_names()
    ensures { (a b : System) (told : Told) → IsInRange a → IsInRange b → Compares a b told → HasToldNames a b told }
{}

// Of two systems the one of the file with this number.
fn system_of<'l>(a: &'l Lts, b: &'l Lts, file: u8) -> &'l Lts
    ensures { result.now ≡ numbered_of a.now b.now file }
{
    if file == 1 { a } else { b }
}

// The systems are isomorphic, by this map.
fn map_text(alloc: Global, a: &Lts, b: &Lts, states: &[u32]) -> Result<Vec<u8>, AllocError>
    requires { HasPairNames a.now b.now states.now }
    ensures { IfOk result (λ text. text.items ≡ text_of_map a.now b.now states.now) }
{
    let mut text = Vec::from_slice(alloc, b"yes\n")?;
    for s in 0..a.states() {
        push_pair(&mut text, a, b, s, states[s as usize])?;
    }
    Ok(text)
}

// Adds the line of a state and its state of the second system.
fn push_pair(text: &mut Vec<u8>, a: &Lts, b: &Lts, s: u32, q: u32) -> Result<(), AllocError>
    requires first { s < states a.now }
    requires second { q < states b.now }
    ensures { OnOk result (text.new.items ≡ text.old.items ++ (pair_line a.now b.now s q ++ 10 ∷ [])) }
{
    push_state(text, b"", a, s)?;
    push_state(text, b" ", b, q)?;
    text.push(b'\n')?;
    Ok(())
}

// A label that one file alone has.
fn label_text(alloc: Global, file: u8, lts: &Lts, t: u32) -> Result<Vec<u8>, AllocError>
    requires { t < labels lts.now }
    ensures { IfOk result (λ text. text.items ≡ codes "no: label file " ++ decimal file ++ codes " " ++ label_name lts.now t ++ codes "\n") }
{
    let mut text = Vec::new(alloc);
    push_number(&mut text, b"no: label file ", u64::from(file))?;
    push_label(&mut text, b" ", lts, t)?;
    text.push(b'\n')?;
    Ok(text)
}

// A step that one file alone has.
fn single_step_text(
    alloc: Global,
    file: u8,
    lts: &Lts,
    s: u32,
    t: u32,
) -> Result<Vec<u8>, AllocError>
    requires state { s < states lts.now }
    requires label { t < labels lts.now }
    ensures { IfOk result (λ text. text.items ≡ codes "no: step file " ++ decimal file ++ codes " " ++ step_text lts.now s t ++ codes "\n") }
{
    let mut text = Vec::new(alloc);
    push_number(&mut text, b"no: step file ", u64::from(file))?;
    push_step(&mut text, b" ", lts, s, t)?;
    text.push(b'\n')?;
    Ok(text)
}

// A step of which a target is in another pair.
fn target_text(alloc: Global, lts: &Lts, s: u32, t: u32) -> Result<Vec<u8>, AllocError>
    requires state { s < states lts.now }
    requires label { t < labels lts.now }
    ensures { IfOk result (λ text. text.items ≡ codes "no: target " ++ step_text lts.now s t ++ codes "\n") }
{
    let mut text = Vec::new(alloc);
    push_step(&mut text, b"no: target ", lts, s, t)?;
    text.push(b'\n')?;
    Ok(text)
}

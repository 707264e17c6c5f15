//! Numbers that are out of range, and their lines.
ghost use Rattle.std.specs.Prelude.{◌≡◌, ◌++◌, IfOk, OnOk};
ghost use Rattle.rg_messages.specs.Wides.{stage_words, product_text, term_text, passed_line, wide_line};

use itoa::Buffer;
use rg_cert_data::{Stage, WideAt};
use rg_integers::Wide;
use rg_lts::Lts;
use rg_net_verdict::CheckWide;
use std::alloc::{AllocError, Global};

/// The work in which a number is out of range.
#[derive(Drop)]
pub enum WideCause {
    /// That of `synthesize`.
    Synthesis(WideAt),
    /// That of `factor` on the factor of this number.
    Factor(u32, WideAt),
    /// That of `split` on this system, which has the file's states and arcs, with the labels that were split so far.
    Split(Lts, WideAt),
    /// That of `check`.
    Check(CheckWide),
}

/// Returns the line that says where a number is out of range, with the term that gives it.
pub fn wide_text(alloc: Global, cause: &WideCause) -> Result<Vec<u8>, AllocError>
    ensures { IfOk result (λ text. text.items ≡ wide_line cause.now) }
{
    match cause {
        WideCause::Synthesis(at) => passed_text(alloc, stage_words(at.stage), at.wide),
        WideCause::Factor(_, at) => passed_text(alloc, stage_words(at.stage), at.wide),
        WideCause::Split(_, at) => passed_text(alloc, stage_words(at.stage), at.wide),
        WideCause::Check(at) => passed_text(alloc, b"check", at.wide),
    }
}

// The part of the work.
fn stage_words(stage: Stage) -> &'static [u8]
    ensures { result.now ≡ stage_words stage }
{
    match stage {
        Stage::Cycle => b"cycle",
        Stage::Row => b"row",
        Stage::Pivot => b"pivot",
        Stage::Place => b"place",
        Stage::Spread => b"spread",
    }
}

// The line of a term, with where it is formed.
fn passed_text(alloc: Global, words: &[u8], wide: Wide) -> Result<Vec<u8>, AllocError>
    ensures { IfOk result (λ text. text.items ≡ passed_line words.now wide) }
{
    let mut text = Vec::from_slice(alloc, b"too wide: ")?;
    text.extend_from_slice(words)?;
    text.extend_from_slice(b": ")?;
    push_term(&mut text, wide)?;
    text.push(b'\n')?;
    Ok(text)
}

// Adds two factors.
fn push_product(text: &mut Vec<u8>, a: i128, b: i128) -> Result<(), AllocError>
    ensures { OnOk result (text.new.items ≡ text.old.items ++ product_text a b) }
{
    let mut buffer = Buffer::new();
    text.extend_from_slice(buffer.format(a).as_bytes())?;
    text.extend_from_slice(b" * ")?;
    text.extend_from_slice(buffer.format(b).as_bytes())?;
    Ok(())
}

// Adds the four numbers of a term.
fn push_term(text: &mut Vec<u8>, wide: Wide) -> Result<(), AllocError>
    ensures { OnOk result (text.new.items ≡ text.old.items ++ term_text wide) }
{
    push_product(text, wide.a, wide.b)?;
    text.extend_from_slice(b" - ")?;
    push_product(text, wide.c, wide.d)?;
    Ok(())
}

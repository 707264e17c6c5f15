//! The lines of `factor`.
ghost use Rattle.std.specs.Prelude.{◌≡◌, ◌++◌, ◌<◌, ℕ, List, length, map, All, IfOk, OnOk};
ghost use Rattle.std.specs.List.{AllZip};
ghost use Rattle.rg_theory.specs.System.{states};
ghost use Rattle.rg_product.specs.Squares.{IsBroken};
ghost use Rattle.rg_product.specs.Product.{IsTuple, tuple_of};
ghost use Rattle.rg_factor.specs.View.{shown_factor};
ghost use Rattle.rg_messages.specs.FactorTexts.{broken_line, one_block_text, sizes_line, names_text, numbers_text, factor_line, factors_text, entries_text, tuple_line, unsolvable_factor_line};

use crate::pieces::{push_label, push_number, push_state};
use rg_factor::{Broken, Factor};
use rg_lts::Lts;
use std::alloc::{AllocError, Global};

/// Returns the lines for a system with fewer than two blocks of labels, with the broken squares that join all labels.
pub fn one_block_text(alloc: Global, lts: &Lts, squares: &[Broken]) -> Result<Vec<u8>, AllocError>
    requires { All (IsBroken lts.now) squares.now }
    ensures { IfOk result (λ text. text.items ≡ one_block_text lts.now squares.now) }
{
    let mut text = Vec::from_slice(alloc, b"no: one block\n")?;
    for b in squares {
        push_broken(&mut text, lts, *b)?;
    }
    Ok(text)
}

// Adds the line of a broken square.
fn push_broken(text: &mut Vec<u8>, lts: &Lts, b: Broken) -> Result<(), AllocError>
    requires { IsBroken lts.now b }
    ensures { OnOk result (text.new.items ≡ text.old.items ++ broken_line lts.now b) }
{
    push_state(text, b"broken ", lts, b.s)?;
    push_label(text, b" ", lts, b.t)?;
    push_label(text, b" ", lts, b.u)?;
    text.push(b'\n')?;
    Ok(())
}

/// Returns the line with the number of states that each factor would have.
pub fn sizes_text(alloc: Global, lts: &Lts, sizes: &[u32]) -> Result<Vec<u8>, AllocError>
    ensures { IfOk result (λ text. text.items ≡ sizes_line lts.now sizes.now) }
{
    let mut text = Vec::from_slice(alloc, b"no: sizes")?;
    for size in sizes {
        push_number(&mut text, b" ", u64::from(*size))?;
    }
    push_number(&mut text, b" for ", u64::from(lts.states()))?;
    text.extend_from_slice(b" states\n")?;
    Ok(text)
}

/// Returns the lines for the factors, and for each state its entries.
pub fn factors_text(
    alloc: Global,
    lts: &Lts,
    factors: &[Factor],
    tuples: &[Vec<u32>],
) -> Result<Vec<u8>, AllocError>
    requires long { length tuples.now ≡ states lts.now }
    requires tuples { All (IsTuple (map shown_factor factors.now)) (map (λ t. t.items) tuples.now) }
    ensures { IfOk result (λ text. text.items ≡ factors_text lts.now (map shown_factor factors.now) (map (λ t. t.items) tuples.now)) }
{
    let mut text = Vec::new(alloc);
    push_number(&mut text, b"factors ", factors.len() as u64)?;
    text.push(b'\n')?;
    for i in 0..factors.len() {
        push_factor(&mut text, i, &factors[i].lts)?;
    }
    for s in 0..lts.states() {
        push_tuple(&mut text, lts, factors, s, &tuples[s as usize])?;
    }
    Ok(text)
}

// Adds the line of a factor.
fn push_factor(text: &mut Vec<u8>, i: usize, factor: &Lts) -> Result<(), AllocError>
    ensures { (block : List ℕ) → OnOk result (text.new.items ≡ text.old.items ++ factor_line i (record { lts = factor.now; labels = block })) }
{
    push_number(text, b"factor ", i as u64)?;
    text.extend_from_slice(b": labels")?;
    for t in 0..factor.labels() {
        push_label(text, b" ", factor, t)?;
    }
    text.extend_from_slice(b" states")?;
    for s in 0..factor.states() {
        push_state(text, b" ", factor, s)?;
    }
    text.push(b'\n')?;
    Ok(())
}

// Adds the line of a state, with its entries.
fn push_tuple(
    text: &mut Vec<u8>,
    lts: &Lts,
    factors: &[Factor],
    s: u32,
    tuple: &[u32],
) -> Result<(), AllocError>
    requires state { s < states lts.now }
    requires tuple { IsTuple (map shown_factor factors.now) tuple.now }
    ensures { (tuples : List (List ℕ)) → tuple_of tuples s ≡ tuple.now → OnOk result (text.new.items ≡ text.old.items ++ tuple_line lts.now (map shown_factor factors.now) tuples s) }
{
    push_state(text, b"", lts, s)?;
    text.push(b':')?;
    for i in 0..factors.len() {
        push_state(text, b" ", &factors[i].lts, tuple[i])?;
    }
    text.push(b'\n')?;
    Ok(())
}

/// Returns the line before the certificate of a factor that no net of the class solves.
pub fn unsolvable_factor_text(alloc: Global, i: u32) -> Result<Vec<u8>, AllocError>
    ensures { IfOk result (λ text. text.items ≡ unsolvable_factor_line i) }
{
    let mut text = Vec::new(alloc);
    push_number(&mut text, b"no: factor ", u64::from(i))?;
    text.extend_from_slice(b" unsolvable\n")?;
    Ok(text)
}

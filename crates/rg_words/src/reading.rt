//! The tree of the words of a list.
ghost use Rattle.std.specs.Prelude.{◌≡◌, ◌≢◌, ◌+◌, ◌<◌, ◌≤◌, ◌++◌, ◌∷◌, [], ℕ, List, All, length, map, slice_get, None, Some, false, true, IfOk, IfErr, OnOk};
ghost use Rattle.rg_text.specs.Byte.{IsName};
ghost use Rattle.rg_text.specs.Limits.{most_bytes};
ghost use Rattle.rg_text.specs.Faults.{IsFirst, faults_after};
ghost use Rattle.rg_text.specs.Line.{lines};
ghost use Rattle.rg_theory.specs.Limits.{most_states};
ghost use Rattle.rg_theory.specs.System.{arc};
ghost use Rattle.rg_lts.specs.WellFormed.{IsWellFormed};
ghost use Rattle.rg_lts.specs.Draft.{finished};
ghost use Rattle.rg_line_formats.specs.Words.{words};
ghost use Rattle.rg_words.specs.Contents.{Word, Use, uses, uses_from, word_of, begins_with_hash, state_names, use_fault};
ghost use Rattle.rg_words.specs.Reading.{IsDraftOf, IsAt, IsGrown, Stands, Leads, Refuses, TakesUses, HasFirstFault, uses_of};
ghost use Rattle.rg_words.specs.Spells.{IsTreeOf, Spells, FirstFault};
ghost use Rattle.rg_words.specs.declared.fault.WordFault.TheVariants as fault;
ghost use Rattle.rg_words.specs.declared.fault.WordFault.TheVariants.{NoMemory};

use crate::fault::WordFault;
use crate::label::{check, index_of, label_at, state_name};
use indexmap::IndexSet;
use rg_line_formats::{as_name, cut_line, cut_word};
use rg_lts::{Arc, BuildFault, Lts, LtsBuilder, MOST_STATES};
use std::alloc::Global;

// The tree so far. Step number i leads to state i + 1: from a state, by a label.
#[derive(Drop)]
struct Tree {
    builder: LtsBuilder,
    steps: IndexSet<(u32, u32)>,
}

// Adds a state, and an arc that leads to it.
fn grow(
    alloc: Global,
    builder: &mut LtsBuilder,
    state: u32,
    label: u32,
    to: u32,
) -> Result<(), WordFault>
    requires label { label < length builder.old.label_names }
    requires draft { (steps : List (ℕ × ℕ)) × IsDraftOf builder.old steps × (length steps + 1 ≡ to) }
    requires from { state < to }
    requires room { length builder.old.state_names < most_states }
    ensures ok { OnOk result (IsGrown builder.old builder.new (arc state label to)) }
    ensures cause { IfErr result (λ f. f ≡ fault.NoMemory) }
{
    let name = state_name(alloc, to)?;
    match builder.state(name.as_str()) {
        Ok(_) => {}
        Err(BuildFault::NoMemory) => return Err(WordFault::NoMemory),
        Err(_) => unreachable!(),
    }
    match builder.arc_between(Arc {
        from: state,
        label,
        to,
    }) {
        Ok(()) => Ok(()),
        Err(BuildFault::NoMemory) => Err(WordFault::NoMemory),
        Err(_) => unreachable!(),
    }
}

// Goes on from a state by a label, and answers where that leads.
fn take_label(
    alloc: Global,
    tree: &mut Tree,
    state: u32,
    label: &[u8],
    number: u32,
) -> Result<u32, WordFault>
    requires some { 0 < length label.now }
    requires draft { IsDraftOf tree.old.builder tree.old.steps.keys }
    requires state { state ≤ length tree.old.steps.keys }
    ensures draft { OnOk result (IsDraftOf tree.new.builder tree.new.steps.keys) }
    ensures state { IfOk result (λ to. to ≤ length tree.new.steps.keys) }
    ensures ok { IfOk result (Leads tree.old state label.now number tree.new) }
    ensures fault { IfErr result (λ f. f ≢ NoMemory → Refuses tree.old state label.now number f) }
{
    check(label, number)?;
    let name = as_name(label);
    let t = label_at(&mut tree.builder, name, number)?;
    let (index, new) = index_of(&mut tree.steps, state, t)?;
    let to = index as u32 + 1;
    if new {
        if index + 1 >= MOST_STATES {
            return Err(WordFault::TooManyStates(number));
        }
        grow(alloc, &mut tree.builder, state, t, to)?;
    }
    Ok(to)
}

// Takes the labels of a word.
fn take_word(alloc: Global, tree: &mut Tree, word: &[u8], number: u32) -> Result<(), WordFault>
    requires { IsDraftOf tree.old.builder tree.old.steps.keys }
    ensures draft { OnOk result (IsDraftOf tree.new.builder tree.new.steps.keys) }
    ensures ok { OnOk result (TakesUses tree.old (uses_from number [] (words word.now)) tree.new) }
    ensures fault { IfErr result (λ f. f ≢ NoMemory → HasFirstFault tree.old (uses_from number [] (words word.now)) f) }
{
    let mut state = 0;
    let mut rest = word;
    while let Some((label, left)) = cut_word(rest) {
        state = take_label(alloc, tree, state, label, number)?;
        rest = left;
    }
    Ok(())
}

// Whether a line is a remark.
fn is_remark(line: &[u8]) -> bool
    ensures remark { result ≡ true → word_of (words line.now) ≡ [] }
    ensures word { result ≡ false → word_of (words line.now) ≡ words line.now }
{
    match cut_word(line) {
        Some((first, _)) => begins_with_hash(first),
        None => false,
    }
}

// Whether the word begins with `#`.
fn begins_with_hash(word: &[u8]) -> bool
    ensures { result ≡ begins_with_hash word.now }
{
    !word.is_empty() && word[0] == b'#'
}

// Takes the word of a line, if it has one.
fn take_line(alloc: Global, tree: &mut Tree, line: &[u8], number: u32) -> Result<(), WordFault>
    requires { IsDraftOf tree.old.builder tree.old.steps.keys }
    ensures draft { OnOk result (IsDraftOf tree.new.builder tree.new.steps.keys) }
    ensures ok { OnOk result (TakesUses tree.old (uses_of (number, line.now)) tree.new) }
    ensures fault { IfErr result (λ f. f ≢ NoMemory → HasFirstFault tree.old (uses_of (number, line.now)) f) }
{
    if is_remark(line) {
        return Ok(());
    }
    take_word(alloc, tree, line, number)
}

// Takes the words of all lines.
fn read_lines(alloc: Global, tree: &mut Tree, bytes: &[u8]) -> Result<(), WordFault>
    requires short { length bytes.now ≤ most_bytes }
    requires draft { IsDraftOf tree.old.builder tree.old.steps.keys }
    requires root { IsAt [] [] tree.old.builder.label_names tree.old.steps.keys 0 }
    ensures draft { OnOk result (IsDraftOf tree.new.builder tree.new.steps.keys) }
    ensures ok { OnOk result (Stands (uses bytes.now) [] [] tree.new.builder.label_names tree.new.steps.keys 0) }
    ensures fault { IfErr result (λ f. f ≢ NoMemory → FirstFault bytes.now f) }
{
    let mut text = bytes;
    let mut number = 1;
    loop {
        let (line, rest) = cut_line(text);
        take_line(alloc, tree, line, number)?;
        let Some(left) = rest else {
            return Ok(());
        };
        text = left;
        number += 1;
    }
}

// The tree of the empty word alone.
fn root(alloc: Global) -> Result<Tree, WordFault>
    ensures draft { IfOk result (λ tree. IsDraftOf tree.builder tree.steps.keys) }
    ensures at { IfOk result (λ tree. IsAt [] [] tree.builder.label_names tree.steps.keys 0) }
    ensures cause { IfErr result (λ f. f ≡ fault.NoMemory) }
{
    let mut builder = LtsBuilder::new(alloc);
    let name = state_name(alloc, 0)?;
    match builder.state(name.as_str()) {
        Ok(_) => {}
        Err(BuildFault::NoMemory) => return Err(WordFault::NoMemory),
        Err(_) => unreachable!(),
    }
    match builder.initial(name.as_str()) {
        Ok(()) => Ok(Tree {
            builder,
            steps: IndexSet::new(alloc),
        }),
        Err(_) => unreachable!(),
    }
}

// The system of a draft.
fn finish(builder: LtsBuilder) -> Result<Lts, WordFault>
    requires { builder.initial ≡ Some 0 }
    ensures ok { IfOk result (λ lts. (lts ≡ finished builder 0) × IsWellFormed lts) }
    ensures cause { IfErr result (λ f. f ≡ fault.NoMemory) }
{
    match builder.finish() {
        Ok(lts) => Ok(lts),
        Err(BuildFault::NoMemory) => Err(WordFault::NoMemory),
        Err(_) => unreachable!(),
    }
}

/// Returns the tree of the prefixes of the words of a list of at most 16,777,216 bytes, or the text's first fault. By
/// `one_answer` no other answer meets these clauses.
pub fn read_words(alloc: Global, bytes: &[u8]) -> Result<Lts, WordFault>
    requires { length bytes.now ≤ most_bytes }
    ensures ok { IfOk result (λ lts. Spells bytes.now lts) }
    ensures fault { IfErr result (λ e. e ≢ NoMemory → FirstFault bytes.now e) }
{
    let mut tree = root(alloc)?;
    read_lines(alloc, &mut tree, bytes)?;
    finish(tree.builder)
}

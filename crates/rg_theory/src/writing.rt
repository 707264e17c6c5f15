//! The text of a class.
ghost use Rattle.std.specs.Prelude.{◌≡◌, ◌++◌, decimal, IfOk, OnOk};
ghost use Rattle.rg_theory.specs.ClassWords.{asked, word_of, class_text};
ghost use Rattle.rg_theory.specs.ClassParts.{with_word};

use crate::{Class, Condition};
use itoa::Buffer;
use rg_memory::NoMemory;
use std::alloc::Global;

/// Returns the one text with which a class is written: `none`, or the words of its conditions with commas between, in
/// the order `pure`, `plain`, `safe` or `N-bounded`, `N-marking`, `output-nonbranching`. Returns `NoMemory` if it
/// doesn't fit into memory.
pub fn class_text(alloc: Global, class: Class) -> Result<Vec<u8>, NoMemory>
    ensures { IfOk result (λ text. text.items ≡ class_text class) }
{
    let mut text = Vec::new(alloc);
    let conditions = condition_list(class);
    for condition in &conditions {
        if let Some(condition) = condition {
            push_condition(&mut text, *condition)?;
        }
    }
    if text.is_empty() {
        text.extend_from_slice(b"none")?;
        return Ok(text);
    }
    Ok(text)
}

// What the class asks, in the order of its text.
fn condition_list(class: Class) -> [Option<Condition>; 5]
    ensures { result ≡ asked class }
{
    [
        class.pure.then_some(Condition::Pure),
        class.plain.then_some(Condition::Plain),
        class.bound.map(Condition::Bounded),
        class.marking.map(Condition::Multiple),
        class.nonbranching.then_some(Condition::Nonbranching),
    ]
}

// The word of a condition more.
fn push_condition(text: &mut Vec<u8>, condition: Condition) -> Result<(), NoMemory>
    ensures { OnOk result (text.new.items ≡ with_word text.old.items (word_of condition)) }
{
    match condition {
        Condition::Pure => push_word(text, b"pure"),
        Condition::Plain => push_word(text, b"plain"),
        Condition::Bounded(1) => push_word(text, b"safe"),
        Condition::Bounded(k) => push_number(text, k, b"-bounded"),
        Condition::Multiple(n) => push_number(text, n, b"-marking"),
        Condition::Nonbranching => push_word(text, b"output-nonbranching"),
    }
}

// A number and its tail.
fn push_number(text: &mut Vec<u8>, number: u8, tail: &[u8]) -> Result<(), NoMemory>
    ensures { OnOk result (text.new.items ≡ with_word text.old.items (decimal number ++ tail.now)) }
{
    let mut buffer = Buffer::new();
    push_word(text, buffer.format(number).as_bytes())?;
    text.extend_from_slice(tail)?;
    Ok(())
}

// A word more.
fn push_word(text: &mut Vec<u8>, word: &[u8]) -> Result<(), NoMemory>
    ensures { OnOk result (text.new.items ≡ with_word text.old.items word.now) }
{
    if !text.is_empty() {
        text.push(b',')?;
    }
    text.extend_from_slice(word)?;
    Ok(())
}

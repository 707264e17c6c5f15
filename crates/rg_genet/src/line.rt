//! One line of a state graph.
ghost use Rattle.std.specs.Prelude.{◌≡◌, ◌++◌, ◌∷◌, [], map, IfOk, OnOk};
ghost use Rattle.std.specs.List.{flat_map, list_all};
ghost use Rattle.rg_text.specs.Byte.{is_name_byte};
ghost use Rattle.rg_genet.specs.Form.{uncommented, apart, begins_with_dot, is_named, opens_by, passes_by};
ghost use Rattle.rg_genet.specs.Form as form;
ghost use Rattle.rg_genet.specs.View.{form_in, HoldsNames};

use rg_text::{is_name_byte, len_before};
use std::alloc::{AllocError, Global};

// What a line after `.state graph` says.
#[derive(Clone, Copy)]
pub(crate) enum Form<'a> {
    Blank,
    ArcLine(&'a [u8], &'a [u8], &'a [u8]),
    MarkingLine(&'a [u8]),
    Closing,
    Other,
}

// The line up to its comment.
fn without_comment(line: &[u8]) -> &[u8]
    ensures { result.now ≡ uncommented line.entry.now }
{
    &line[..len_before(line, b'#')]
}

// The line up to its comment, with blanks round each brace.
pub(crate) fn space_braces(alloc: Global, line: &[u8]) -> Result<Vec<u8>, AllocError>
    ensures { IfOk result (λ text. text.items ≡ flat_map apart (uncommented line.now)) }
{
    let mut text = Vec::new(alloc);
    for b in without_comment(line) {
        push_apart(&mut text, *b)?;
    }
    Ok(text)
}

// Adds a byte, with blanks round it if it is a brace.
fn push_apart(text: &mut Vec<u8>, b: u8) -> Result<(), AllocError>
    ensures { OnOk result (text.new.items ≡ text.old.items ++ apart b) }
{
    if b == b'{' || b == b'}' {
        text.extend_from_slice(&[b' ', b, b' '])?;
    } else {
        text.extend_from_slice(&[b])?;
    }
    Ok(())
}

// Whether the word is some name bytes and no others.
fn is_named(word: &[u8]) -> bool
    ensures { result ≡ is_named word.now }
{
    !word.is_empty() && are_name_bytes(word)
}

// Whether all bytes of the word are name bytes.
fn are_name_bytes(word: &[u8]) -> bool
    ensures { result ≡ list_all is_name_byte word.now }
{
    word.iter().all(|b| is_name_byte(*b))
}

// Whether the words are those of `.state graph`.
pub(crate) fn opens(words: &[&[u8]]) -> bool
    ensures { result ≡ opens_by (map (λ w. w.now) words.now) }
{
    words.len() == 2 && words[0] == b".state".as_slice() && words[1] == b"graph".as_slice()
}

// Whether a line of the heading with these words is passed over.
pub(crate) fn passes(words: &[&[u8]]) -> bool
    ensures { result ≡ passes_by (map (λ w. w.now) words.now) }
{
    words.is_empty() || begins_with_dot(words[0])
}

// Whether the word begins with a `.`.
fn begins_with_dot(word: &[u8]) -> bool
    ensures { result ≡ begins_with_dot word.now }
{
    !word.is_empty() && word[0] == b'.'
}

// What a line with these words says.
pub(crate) fn form_of<'a>(words: &[&'a [u8]]) -> Form<'a>
    ensures form { form_in result ≡ form.form_of (map (λ w. w.now) words.now) }
    ensures names { HoldsNames result }
{
    match words.len() {
        0 => Form::Blank,
        1 => end_of(words[0]),
        3 => arc_of(words[0], words[1], words[2]),
        4 => marking_of(words[0], words[1], words[2], words[3]),
        _ => Form::Other,
    }
}

// A line of one word.
fn end_of<'a>(word: &'a [u8]) -> Form<'a>
    ensures form { form_in result ≡ form.form_of (word.entry.now ∷ []) }
    ensures names { HoldsNames result }
{
    if word == b".end".as_slice() {
        Form::Closing
    } else {
        Form::Other
    }
}

// A line of three words.
fn arc_of<'a>(from: &'a [u8], label: &'a [u8], to: &'a [u8]) -> Form<'a>
    ensures form { form_in result ≡ form.form_of (from.entry.now ∷ label.entry.now ∷ to.entry.now ∷ []) }
    ensures names { HoldsNames result }
{
    if is_named(from) && is_named(label) && is_named(to) {
        Form::ArcLine(from, label, to)
    } else {
        Form::Other
    }
}

// A line of four words.
fn marking_of<'a>(word: &'a [u8], left: &'a [u8], name: &'a [u8], right: &'a [u8]) -> Form<'a>
    ensures form { form_in result ≡ form.form_of (word.entry.now ∷ left.entry.now ∷ name.entry.now ∷ right.entry.now ∷ []) }
    ensures names { HoldsNames result }
{
    if word == b".marking".as_slice()
        && left == b"{".as_slice()
        && is_named(name)
        && right == b"}".as_slice()
    {
        Form::MarkingLine(name)
    } else {
        Form::Other
    }
}

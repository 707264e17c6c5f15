//! Lines, one after the other, and the words of a line.
ghost use Rattle.std.specs.Prelude.{◌≡◌, ◌<◌, ◌≤◌, ◌∷◌, [], length, map, option_map, IfOk, IfNone, IfSome};
ghost use Rattle.std.specs.List.{prefix_len, position_or_len};
ghost use Rattle.rg_text.specs.Byte.{is_blank_byte};
ghost use Rattle.rg_text.specs.Line.{lines};
ghost use Rattle.rg_line_formats.specs.Numbered.{lines_left};
ghost use Rattle.rg_line_formats.specs.Words.{words};

use rg_text::{is_blank_byte, len_before};
use std::alloc::{AllocError, Global};

/// Returns the first line of a text, and what follows its line feed; None where the text ends without one.
pub fn cut_line(text: &[u8]) -> (&[u8], Option<&[u8]>)
    ensures lines { lines text.entry.now ≡ result.0.now ∷ lines_left (option_map (λ s. s.now) result.1) }
    ensures shorter { IfSome result.1 (λ rest. length rest.now < length text.entry.now) }
{
    let at = len_before(text, b'\n');
    if at == text.len() {
        (text, None)
    } else {
        (&text[..at], Some(&text[at + 1..]))
    }
}

/// Returns the words of a line, in order: what is between its blank bytes, but for empty parts. Returns `AllocError`
/// if memory runs out.
pub fn words<'a>(alloc: Global, line: &'a [u8]) -> Result<Vec<&'a [u8]>, AllocError>
    ensures { IfOk result (λ v. map (λ w. w.now) v.items ≡ words line.entry.now) }
{
    line.split(|b| is_blank_byte(*b))
        .filter(|word| !word.is_empty())
        .collect(alloc)
}

/// Returns the first word of a line, and what follows it; None where the line has no word.
pub fn cut_word(line: &[u8]) -> Option<(&[u8], &[u8])>
    ensures none { IfNone result (words line.entry.now ≡ []) }
    ensures words { IfSome result (λ cut. words line.entry.now ≡ cut.0.now ∷ words cut.1.now) }
    ensures some { IfSome result (λ cut. 0 < length cut.0.now) }
    ensures shorter { IfSome result (λ cut. length cut.1.now < length line.entry.now) }
{
    let text = &line[blanks_before(line)..];
    if text.is_empty() {
        return None;
    }
    let at = word_len(text);
    Some((&text[..at], &text[at..]))
}

// How many blank bytes a line begins with.
fn blanks_before(line: &[u8]) -> usize
    ensures value { result ≡ prefix_len is_blank_byte line.now }
    ensures within { result ≤ length line.now }
{
    line.iter().take_while(|b| is_blank_byte(**b)).count()
}

// How many bytes come before the first blank one.
fn word_len(line: &[u8]) -> usize
    ensures value { result ≡ position_or_len is_blank_byte line.now }
    ensures within { result ≤ length line.now }
{
    line.iter().take_while(|b| !is_blank_byte(**b)).count()
}

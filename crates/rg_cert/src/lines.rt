//! Lines and their fields.
ghost use Rattle.std.specs.Prelude.{◌≡◌, ◌≢◌, ◌++◌, ◌∷◌, map, take, All, IfOk, IfSome, IfNone};
ghost use Rattle.rg_text.specs.Line.{fields};

use rg_text::len_before;
use std::alloc::{AllocError, Global};

// The first line of a text, and what follows its line feed.
pub(crate) fn first_line(text: &[u8]) -> Option<(&[u8], &[u8])>
    ensures some { IfSome result (λ r. (text.entry.now ≡ r.0.now ++ 10 ∷ r.1.now) × All (λ b. b ≢ 10) r.0.now) }
    ensures none { IfNone result (All (λ b. b ≢ 10) text.entry.now) }
{
    let at = len_before(text, b'\n');
    if at == text.len() {
        return None;
    }
    Some((&text[..at], &text[at + 1..]))
}

// The first parts of a line that is cut at its spaces: six, one more than any line may have.
pub(crate) fn first_fields<'a>(alloc: Global, line: &'a [u8]) -> Result<Vec<&'a [u8]>, AllocError>
    ensures { IfOk result (λ v. map (λ w. w.now) v.items ≡ take 6 (fields line.entry.now)) }
{
    line.split(|b| *b == b' ').take(6).collect(alloc)
}

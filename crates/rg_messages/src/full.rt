//! The line of `split` alone.
ghost use Rattle.std.specs.Prelude.{◌≡◌, IfOk};
ghost use Rattle.rg_messages.specs.SplitTexts.{full_line};

use std::alloc::{AllocError, Global};

/// Returns the line that says that there is no room for a label more.
pub fn full_text(alloc: Global) -> Result<Vec<u8>, AllocError>
    ensures { IfOk result (λ text. text.items ≡ full_line) }
{
    Vec::from_slice(alloc, b"no: more than 256 labels\n")
}

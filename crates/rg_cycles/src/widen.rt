//! Vectors as rows, whose numbers have 128 bits.
ghost use Rattle.std.specs.Prelude.{◌≡◌, IfOk};

use crate::chord_entry::ChordEntry;
use std::alloc::{AllocError, Global};

// The numbers of a vector, as those of a row.
pub(crate) fn widen<N: ChordEntry>(alloc: Global, vector: &[N]) -> Result<Vec<i128>, AllocError>
    ensures { IfOk result (λ v. v.items ≡ N.numbers vector.now) }
{
    let mut numbers = Vec::new(alloc);
    for &number in vector {
        numbers.push(number.number())?;
    }
    Ok(numbers)
}

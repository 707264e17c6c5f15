//! Numbers without common divisor.
ghost use Rattle.std.specs.Prelude.{◌≡◌, ◌++◌, All, IfOk};
ghost use Rattle.rg_integers.specs.Range.{InRange};
ghost use Rattle.rg_case_folds.specs.Spreading.{IsParts};

use rg_fraction::reduce;
use std::alloc::{AllocError, Global};

// The numbers of both lists, divided by their greatest common divisor.
pub(crate) fn divide_numbers(
    alloc: Global,
    numbers: &[i128],
    more: &[i128],
) -> Result<Vec<i128>, AllocError>
    requires numbers { All InRange numbers.now }
    requires more { All InRange more.now }
    ensures parts { IfOk result (λ v. IsParts (numbers.now ++ more.now) v.items) }
    ensures in_range { IfOk result (λ v. All InRange v.items) }
{
    let mut parts = chain_numbers(alloc, numbers, more)?;
    reduce(&mut parts);
    Ok(parts)
}

// The numbers of both lists.
fn chain_numbers(alloc: Global, numbers: &[i128], more: &[i128]) -> Result<Vec<i128>, AllocError>
    ensures { IfOk result (λ v. v.items ≡ numbers.now ++ more.now) }
{
    numbers.iter().chain(more).copied().collect(alloc)
}

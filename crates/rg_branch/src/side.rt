//! Splits as rows.
ghost use Rattle.std.specs.Prelude.{◌≡◌, ◌∷◌, [], map, ℤ, pos, neg_ℤ, ◌+ℤ◌, ◌-ℤ◌, ◌*ℤ◌, All, if◌then◌else◌, IfOk};
ghost use Rattle.rg_integers.specs.Range.{InRange};
ghost use Rattle.rg_linear.specs.Branching.{side_row};
ghost use Rattle.rg_linear.specs.View.{linear_row};
ghost use Rattle.rg_branch.specs.View.{form_of};

use crate::bounded::Bounded;
use rg_linear::Row;
use std::alloc::{AllocError, Global};

// The row of one side of a split.
pub(crate) fn side_row(
    alloc: Global,
    form: &Bounded,
    at: i64,
    high: bool,
) -> Result<Row, AllocError>
    requires scale { InRange form.now.scale }
    requires coeffs { All InRange form.now.coeffs.items }
    requires low { InRange (form.now.scale *ℤ at) }
    requires high { InRange (form.now.scale *ℤ (at +ℤ pos 1)) }
    ensures { IfOk result (λ r. linear_row r ≡ side_row (form_of form.now ∷ []) (record { form = 0; at = at; high = high })) }
{
    let coeffs = side_coeffs(alloc, &form.coeffs, high)?;
    let constant = side_constant(form.scale, at, high);
    Ok(Row::new(coeffs, constant))
}

// The coefficients on the high side, and their negatives on the low side.
fn side_coeffs(alloc: Global, coeffs: &[i128], high: bool) -> Result<Vec<i128>, AllocError>
    requires { All InRange coeffs.now }
    ensures { IfOk result (λ v. v.items ≡ (if high then coeffs.now else map neg_ℤ coeffs.now)) }
{
    if high {
        return coeffs.to_vec(alloc);
    }
    let mut negated = Vec::new(alloc);
    for &coefficient in coeffs {
        negated.push(negative(coefficient))?;
    }
    Ok(negated)
}

fn side_constant(scale: i128, at: i64, high: bool) -> i128
    requires scale { InRange scale }
    requires low { InRange (scale *ℤ at) }
    requires high { InRange (scale *ℤ (at +ℤ pos 1)) }
    ensures { result ≡ (if high then (neg_ℤ (scale *ℤ at) -ℤ scale) else (scale *ℤ at)) }
{
    if high {
        negative(scale * (i128::from(at) + 1))
    } else {
        scale * i128::from(at)
    }
}

// The negative, which is in range too.
fn negative(z: i128) -> i128
    requires { InRange z }
    ensures value { result ≡ neg_ℤ z }
    ensures in_range { InRange result }
{
    -z
}

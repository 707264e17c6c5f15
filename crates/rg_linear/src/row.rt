//! Rows, with their norms.

ghost use Rattle.std.specs.Prelude.{◌≡◌, ◌+◌, unsigned_abs};
ghost use Rattle.rg_linear.specs.Norm.{row_norm, kept_norm};

/// A row: the sum of the columns, each times its coefficient, and the constant is at least 0. There is one
/// coefficient for each column. The norm is the sum of the sizes of all numbers, `u64::MAX` where that passes.
#[derive(PartialEq, Eq, Debug, Drop)]
pub struct Row {
    pub coeffs: Vec<i128>,
    pub constant: i128,
    pub norm: u64,
    pub ghost norm_is: { norm ≡ kept_norm (row_norm coeffs.items constant) },
}

/// Returns the norm of a row with these coefficients and this constant: the sum of the sizes of all numbers,
/// `u64::MAX` where that passes.
pub fn norm(coeffs: &[i128], constant: i128) -> u64
    ensures { result ≡ kept_norm (row_norm coeffs.now constant) }
{
    let mut norm = 0;
    for &coefficient in coeffs {
        norm = sum_kept(norm, size_kept(coefficient));
    }
    sum_kept(norm, size_kept(constant))
}

// The size of a number, `u64::MAX` where it passes.
fn size_kept(z: i128) -> u64
    ensures { result ≡ kept_norm (unsigned_abs z) }
{
    u64::try_from(z.unsigned_abs()).unwrap_or(u64::MAX)
}

// The sum, `u64::MAX` where it passes.
fn sum_kept(a: u64, b: u64) -> u64
    ensures { result ≡ kept_norm (a + b) }
{
    a.saturating_add(b)
}

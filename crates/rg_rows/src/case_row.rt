//! A row with its name and its factor.
ghost use Rattle.std.specs.Prelude.{◌≡◌, ◌↔◌, ◌++◌, ◌∷◌, [], All, IsTrue, pos, ◌≤ℤ◌};
ghost use Rattle.rg_integers.specs.Range.{InRange};
ghost use Rattle.rg_linear.specs.Cycle.{IsZeroVector};
ghost use Rattle.rg_linear.specs.Norm.{row_norm, kept_norm};
ghost use Rattle.rg_rows.specs.Hashing.{numbers_hash};

use crate::row_numbers::RowNumbers;
use rg_cert_meaning::RowName;
use rg_fraction::Fraction;

/// A row over the columns: it is the named row times the factor, which is positive. Its numbers are its coefficients,
/// then its constant: they distinguish rows. It is idle if it has no coefficients and always
/// holds.
#[derive(Drop)]
pub(crate) struct CaseRow {
    pub(crate) name: RowName,
    pub(crate) coeffs: Vec<i128>,
    pub(crate) constant: i128,
    pub(crate) norm: u64,
    pub(crate) idle: bool,
    pub(crate) factor: Fraction,
    pub(crate) numbers: RowNumbers,
    pub ghost coeffs_in_range: { All InRange coeffs.items },
    pub ghost constant_in_range: { InRange constant },
    pub ghost norm_is: { norm ≡ kept_norm (row_norm coeffs.items constant) },
    pub ghost idle_is: { IsTrue idle ↔ (IsZeroVector coeffs.items × (pos 0 ≤ℤ constant)) },
    pub ghost numbers_are: { numbers ≡ coeffs.items ++ constant ∷ [] },
}

impl CaseRow {
    // The numbers, by which rows are compared.
    pub(crate) fn key(&self) -> &RowNumbers
        ensures { result.now ≡ self.now.numbers }
    {
        &self.numbers
    }

    // The hash of the numbers.
    pub(crate) fn hash(&self) -> u64
        ensures { result ≡ numbers_hash self.now.numbers }
    {
        self.numbers.hash()
    }
}

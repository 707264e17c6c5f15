//! The terms of a form.
ghost use Rattle.std.specs.Prelude.{◌<ℤ◌, pos, All};
ghost use Rattle.rg_integers.specs.Range.{InRange};

/// The terms of a form over the columns, without denominators.
#[derive(Drop)]
pub(crate) struct FormTerms {
    pub(crate) multiple: i128,
    pub(crate) coeffs: Vec<i128>,
    pub ghost multiple_in_range: { InRange multiple },
    pub ghost positive: { pos 0 <ℤ multiple },
    pub ghost coeffs_in_range: { All InRange coeffs.items },
}

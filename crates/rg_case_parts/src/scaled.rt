//! Numbers without denominators.
ghost use Rattle.std.specs.Prelude.{◌<ℤ◌, pos, All};
ghost use Rattle.rg_integers.specs.Range.{InRange};

/// Whole numbers, and what fractions were multiplied by to get them. The multiple is positive.
#[derive(Drop)]
pub struct Scaled {
    pub multiple: i128,
    pub numbers: Vec<i128>,
    pub ghost multiple_in_range: { InRange multiple },
    pub ghost positive: { pos 0 <ℤ multiple },
    pub ghost numbers_in_range: { All InRange numbers.items },
}

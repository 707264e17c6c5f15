//! Sums of tokens and effects.
ghost use Rattle.std.specs.Prelude.{◌≡◌, length};
ghost use Rattle.rg_integers.specs.Range.{InRange};

use crate::term::Term;

/// A sum of at most three terms and a constant. A named row says that it isn't negative, or that of an arc that it
/// is 0.
#[derive(Clone, Copy, Debug, PartialEq, Eq)]
pub struct Expression {
    pub terms: [Option<Term>; 3],
    pub constant: i128,
    pub ghost places: { length terms ≡ 3 },
    pub ghost in_range: { InRange constant },
}

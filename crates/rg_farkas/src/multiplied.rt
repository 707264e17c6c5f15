//! What has a multiplier: named rows, and counts in them.
ghost use Rattle.rg_integers.specs.Range.{InRange};

use rg_cert_data::Expression;
use rg_cert_meaning::RowName;
use rg_fraction::Fraction;

/// A named row times a number, with what the row says.
#[derive(Drop)]
pub(crate) struct Row {
    pub(crate) name: RowName,
    pub(crate) multiplier: i128,
    pub(crate) expression: Expression,
    pub ghost multiplier_in_range: { InRange multiplier },
}

/// The multiplier of a named row, and how often a label that isn't free counts in the row.
#[derive(Clone, Copy)]
pub(crate) struct Counted {
    pub(crate) multiplier: Fraction,
    pub(crate) label: u32,
    pub(crate) count: i128,
    pub ghost in_range: { InRange count },
}

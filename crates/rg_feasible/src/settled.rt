//! How a descent ends.

use rg_integers::Wide;

/// The first term out of range. It occurs in the exchange of the row variable `pivot` with the member `leaves`, in
/// the new relation of the variable `target`, as term number `entry`, counted from 0. Variables are columns and rows,
/// numbered columns first.
#[derive(Clone, Copy, PartialEq, Eq, Debug)]
pub struct PivotWide {
    pub pivot: u32,
    pub leaves: u32,
    pub target: u32,
    pub entry: u32,
    pub wide: Wide,
}

/// How a descent ends.
#[derive(Clone, Copy, PartialEq, Eq, Debug)]
pub enum Settled {
    /// The point at which every member is 0 meets every row.
    Point,
    /// No point meets every row: this row, counted among the rows from 0, fails, and the multipliers show it.
    Refuted(u32),
    /// A term of an exchange is out of range.
    Wide(PivotWide),
}

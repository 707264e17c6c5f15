//! Where a number is out of range.

use rg_cert_meaning::Form;
use rg_integers::Wide;
use rg_theory::Problem;

/// The part of the work in which a term is out of range.
#[derive(Clone, Copy, Debug, PartialEq, Eq)]
pub enum Stage {
    /// The walk over the chords.
    Cycle,
    /// The rows of a case.
    Row,
    /// The descent on a case's system.
    Pivot,
    /// The place of a point.
    Place,
    /// The leaf of multipliers.
    Spread,
}

/// A term out of range, and where it occurs. What a stage doesn't use is 0, an empty list or None.
///
/// `case` is the number of a case of the problem. In the stage `Cycle` the term occurs at the set `members`, in the
/// exchange of `pivot` with `leaves`, in the new relation of `target`, as term number `entry`, and so it does in the
/// stage `Pivot`. In the other stages it is the first step out of range. `above` has the side of each split above the
/// node, outermost first: the form, the number, and true in the high side.
#[derive(Debug, PartialEq, Eq, Drop)]
pub struct WideAt {
    pub stage: Stage,
    pub problem: Option<Problem>,
    pub case: u32,
    pub above: Vec<(Form, i64, bool)>,
    pub members: Vec<u32>,
    pub pivot: u32,
    pub leaves: u32,
    pub target: u32,
    pub entry: u32,
    pub wide: Wide,
}

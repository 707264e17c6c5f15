//! The relation of a label that isn't free.

/// Says of the effect `E` of a label: `d` times it is the sum of the effects of the free labels, each
/// times its number in `free`, and of the values of chords, each times its number in `chords`.
///
/// `free` has one number for each free label, in order; `chords` has the chords whose number isn't 0, in
/// order, each named by its index in the list that `reduce` was given. Of equal chords only the first is
/// named. The value of a chord is the sum of its entries, each times the effect of its label; it is 0
/// for the effects of a region.
#[derive(PartialEq, Debug, Drop)]
pub struct Relation {
    pub d: i128,
    pub free: Vec<i128>,
    pub chords: Vec<(u32, i128)>,
}

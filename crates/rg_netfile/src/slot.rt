//! The numbers of a place.

/// Which number of a place: its start, or what the label with this number takes from it or puts on it.
#[derive(Clone, Copy, Debug, PartialEq, Eq)]
pub(crate) enum Slot {
    Start,
    Taken(u32),
    Put(u32),
}

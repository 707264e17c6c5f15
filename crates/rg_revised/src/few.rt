//! The indices of the numbers that aren't 0, where they are few.

ghost use Rattle.std.specs.Prelude.{◌≡◌};

// How many indices are listed at most.
pub(crate) const MOST: usize = 64;

/// The first `count` indices of the list, in order, are those of a row's numbers that aren't 0.
#[derive(Clone, Copy)]
pub(crate) struct Few {
    pub(crate) indices: [usize; MOST],
    pub(crate) count: usize,
}

impl Few {
    /// Returns a list of none.
    pub(crate) fn none() -> Few
        ensures { result.count ≡ 0 }
    {
        Few {
            indices: [0; MOST],
            count: 0,
        }
    }
}

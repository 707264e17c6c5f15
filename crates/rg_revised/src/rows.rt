//! The rows of a descent, in three lists.

ghost use Rattle.std.specs.Prelude.{◌≡◌, ◌<◌, ◌^◌, length, map, slice_index_or};
ghost use Rattle.rg_linear.specs.System.{with_rows};
ghost use Rattle.rg_linear.specs.View.{linear_row, linear_system};
ghost use Rattle.rg_revised.specs.Lists.{rows_of};

use rg_linear::{JoinedSystem, Row};

/// The rows of a system, which are in two lists, and after them further ones.
#[derive(Clone, Copy)]
pub(crate) struct Rows<'a> {
    pub(crate) own: &'a [Row],
    pub(crate) shared: &'a [Row],
    pub(crate) further: &'a [Row],
}

impl<'a> Rows<'a> {
    /// Returns the rows of the system, and after them these.
    pub(crate) fn of(system: &JoinedSystem<'a>, further: &'a [Row]) -> Rows<'a>
        ensures { linear_system system.now.columns (rows_of result) ≡ with_rows system.now (map linear_row further.now) }
    {
        let (own, shared) = system.lists();
        Rows {
            own,
            shared,
            further,
        }
    }

    /// Returns row number `i`, counted from 0.
    #[inline(always)]
    pub(crate) fn row(self, i: usize) -> &'a Row
        requires { i < length (rows_of self) }
        ensures { result.now ≡ slice_index_or (rows_of self.entry) i result.now }
    {
        if i < self.own.len() {
            return &self.own[i];
        }
        let i = i - self.own.len();
        if i < self.shared.len() {
            return &self.shared[i];
        }
        &self.further[i - self.shared.len()]
    }

    /// Returns how many rows there are.
    pub(crate) fn count(self) -> u32
        requires { length (rows_of self) < 2 ^ 32 }
        ensures { result ≡ length (rows_of self.entry) }
    {
        (self.own.len() + self.shared.len() + self.further.len()) as u32
    }
}

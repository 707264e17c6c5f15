//! The rows that all cases share, as a case has them.
ghost use Rattle.std.specs.Prelude.{◌≤◌, length};

use crate::shared_rows::SharedRows;

/// The rows that all cases share, and how many of their forms a case has, from the first one on.
#[derive(Clone, Copy)]
pub(crate) struct SharedPart<'a> {
    pub(crate) all: &'a SharedRows,
    pub(crate) form_count: usize,
    pub ghost within: { form_count ≤ length all.now.forms.items },
}

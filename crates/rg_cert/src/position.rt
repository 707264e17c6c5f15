//! Positions of lines, and which lines may follow.
ghost use Rattle.std.specs.Prelude.{◌≡◌, ◌<◌};
ghost use Rattle.rg_cert.specs.Lines.{if_two, follows, in_tree, after_tree};
ghost use Rattle.rg_cert.specs.View.{HasFewDue, line_form_in, version_in, count_in, position_in, next_in};

use crate::table::LineForm;
use crate::version::Version;

/// How many cases a certificate has: one, or any number.
#[derive(Clone, Copy, Debug, PartialEq, Eq)]
pub(crate) enum Count {
    One,
    Several,
}

/// The position of a line, in a text of a version.
#[derive(Clone, Copy, Debug, PartialEq, Eq)]
pub(crate) enum Position {
    /// The third line.
    Reason(Version),
    /// After `unreachable` or `fork`.
    Last,
    /// After `event`.
    OneCase(Version),
    /// After `states`.
    Cases(Version),
    /// In a tree; a node is expected, and this many nodes after it.
    Node(Version, Count, u32),
    /// In a leaf; this many nodes are expected after it.
    Row(Version, Count, u32),
    /// After `end`.
    End,
}

/// The result of a line of some form.
#[derive(Clone, Copy, Debug, PartialEq, Eq)]
pub(crate) enum Next {
    To(Position),
    /// A node is expected.
    Short,
    /// The tree is whole.
    Long,
    Refused,
}

impl Position {
    // What comes of a line of this form here.
    pub(crate) fn next(self, form: LineForm) -> Next
        requires { HasFewDue self 4294967294 }
        ensures { next_in result ≡ follows (position_in self) (line_form_in form) }
    {
        match (self, form) {
            (Position::Reason(_), LineForm::Unreachable | LineForm::Fork) => {
                Next::To(Position::Last)
            }
            (Position::Reason(version), LineForm::Event) => Next::To(Position::OneCase(version)),
            (Position::Reason(version), LineForm::States) => Next::To(Position::Cases(version)),
            (Position::Last | Position::Cases(_), LineForm::End) => Next::To(Position::End),
            (Position::OneCase(version), LineForm::Case) => {
                Next::To(Position::Node(version, Count::One, 0))
            }
            (Position::Cases(version), LineForm::Case) => {
                Next::To(Position::Node(version, Count::Several, 0))
            }
            (Position::Node(version, count, due), form) => in_tree(version, count, due, form),
            (Position::Row(version, count, due), LineForm::Row(_)) => {
                Next::To(Position::Row(version, count, due))
            }
            (Position::Row(version, count, 0), form) => after_tree(version, count, form),
            (Position::Row(version, count, due), form) => in_tree(version, count, due - 1, form),
            _ => Next::Refused,
        }
    }
}

// What comes of a line that texts of the second version alone have.
fn if_two(version: Version, next: Next) -> Next
    ensures { next_in result ≡ if_two (version_in version) (next_in next) }
{
    match version {
        Version::One => Next::Refused,
        Version::Two => next,
    }
}

// What a line leads to in a tree that needs a node here, and so many after it.
fn in_tree(version: Version, count: Count, due: u32, form: LineForm) -> Next
    requires { due < 4294967295 }
    ensures { next_in result ≡ in_tree (version_in version) (count_in count) due (line_form_in form) }
{
    match form {
        LineForm::SplitTokens | LineForm::SplitEffect => {
            Next::To(Position::Node(version, count, due + 1))
        }
        LineForm::SplitStart => if_two(version, Next::To(Position::Node(version, count, due + 1))),
        LineForm::Leaf => Next::To(Position::Row(version, count, due)),
        LineForm::Case | LineForm::End => Next::Short,
        _ => Next::Refused,
    }
}

// What comes of a line after a whole tree.
fn after_tree(version: Version, count: Count, form: LineForm) -> Next
    ensures { next_in result ≡ after_tree (version_in version) (count_in count) (line_form_in form) }
{
    match (count, form) {
        (_, LineForm::SplitTokens | LineForm::SplitEffect | LineForm::Leaf) => Next::Long,
        (_, LineForm::SplitStart) => if_two(version, Next::Long),
        (Count::Several, LineForm::Case) => Next::To(Position::Node(version, Count::Several, 0)),
        (_, LineForm::End) => Next::To(Position::End),
        _ => Next::Refused,
    }
}

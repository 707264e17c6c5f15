//! The versions of texts.
ghost use Rattle.std.specs.Prelude.{IsTrue, ◌↔◌};
ghost use Rattle.rg_cert.specs.Drafts.{IsClassIn};
ghost use Rattle.rg_cert.specs.View.{version_in};

use rg_theory::Class;

/// The versions of texts: the second one has classes with a marking, and splits on the start.
#[derive(Clone, Copy, Debug, PartialEq, Eq)]
pub(crate) enum Version {
    One,
    Two,
}

impl Version {
    // Whether a text of the version may have the class.
    pub(crate) fn has(self, class: Class) -> bool
        ensures { IsTrue result ↔ IsClassIn (version_in self) class }
    {
        match self {
            Version::One => class.marking.is_none(),
            Version::Two => true,
        }
    }
}

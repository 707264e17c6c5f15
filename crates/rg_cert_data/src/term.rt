//! The terms of the rows.
ghost use Rattle.std.specs.Prelude.{◌≡◌, ◌*ℤ◌};
ghost use Rattle.rg_integers.specs.Range.{InRange};
ghost use Rattle.rg_cert_data.specs.Sums.{term_of};

use rg_cert_meaning::Variable;

/// A variable, added or taken away.
#[derive(Clone, Copy, Debug, PartialEq, Eq)]
pub enum Term {
    Plus(Variable),
    Minus(Variable),
}

impl Term {
    /// Returns the variable.
    pub fn variable(self) -> Variable
        ensures { result ≡ (term_of self).variable }
    {
        match self {
            Term::Plus(variable) | Term::Minus(variable) => variable,
        }
    }

    /// Returns the number times the term's coefficient.
    pub fn times(self, number: i128) -> i128
        requires { InRange number }
        ensures value { result ≡ number *ℤ (term_of self).coefficient }
        ensures in_range { InRange result }
    {
        match self {
            Term::Plus(_) => number,
            Term::Minus(_) => -number,
        }
    }
}

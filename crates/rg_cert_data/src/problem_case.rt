//! One case of a separation problem.
ghost use Rattle.std.specs.Prelude.{◌≡◌};
ghost use Rattle.rg_cert_meaning.specs.Row.{order_of, case_consumer};

use rg_lts::Lts;
use rg_theory::{Class, Problem};

/// A problem in a class, and the number of one of its cases. An event problem has one case. A problem of two
/// states has one for each order of their tokens, and in an output-nonbranching class, where each place has one
/// label that may take tokens from it, one for each order and each such label: the number is the order times the
/// labels, plus the label (Badouel, Bernardinello and Darondeau, *Petri Net Synthesis*).
#[derive(Clone, Copy, Debug, PartialEq, Eq)]
pub struct ProblemCase {
    pub class: Class,
    pub problem: Problem,
    pub number: u32,
}

impl ProblemCase {
    /// Returns the order of the case: 0 where the first of two states has fewer tokens.
    pub fn order(self, lts: &Lts) -> u32
        ensures { result ≡ order_of lts.now self.class self.number }
    {
        if self.class.nonbranching {
            self.number.checked_div(lts.labels()).unwrap_or(0)
        } else {
            self.number
        }
    }

    /// Returns the label that alone may take tokens, in an output-nonbranching class: the event's, or the one of the
    /// number.
    pub fn consumer(self, lts: &Lts) -> u32
        ensures { result ≡ case_consumer lts.now self.problem self.number }
    {
        match self.problem {
            Problem::Event(_, t) => t,
            Problem::States(..) => self.number.checked_rem(lts.labels()).unwrap_or(self.number),
        }
    }
}

//! How many cases a separation problem has.
ghost use Rattle.std.specs.Prelude.{◌≡◌, ◌≤◌};
ghost use Rattle.rg_cert_meaning.specs.Row.{cases_of};

use rg_lts::Lts;
use rg_theory::{Class, Problem};

/// Returns how many cases a problem has: one for an event problem, and for a state problem one for each of the two
/// orders of the states, in an output-nonbranching class for each label that alone may take tokens. At most 512.
pub fn cases(lts: &Lts, class: Class, problem: Problem) -> u32
    ensures value { result ≡ cases_of lts.now class problem }
    ensures few { result ≤ 512 }
{
    match problem {
        Problem::Event(..) => 1,
        Problem::States(..) if class.nonbranching => 2 * lts.labels(),
        Problem::States(..) => 2,
    }
}

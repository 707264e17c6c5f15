//! Classes of several conditions, and problems that may be asked.
ghost use Rattle.std.specs.Prelude.{IsTrue};
ghost use Rattle.rg_cert_meaning.specs.Refutes.{IsSeparationProblem};

use rg_lts::Lts;
use rg_samples::{NONBRANCHING, PLAIN, TWO_MARKING};
use rg_theory::{Class, Problem};

pub(crate) const PURE_NONBRANCHING: Class = Class {
    pure: true,
    ..NONBRANCHING
};

pub(crate) const PURE_PLAIN: Class = Class {
    pure: true,
    ..PLAIN
};

pub(crate) const PLAIN_ONE_MARKING: Class = Class {
    marking: Some(1),
    ..PLAIN
};

pub(crate) const PLAIN_TWO_MARKING: Class = Class {
    plain: true,
    ..TWO_MARKING
};

pub(crate) const PLAIN_NONBRANCHING: Class = Class {
    plain: true,
    ..NONBRANCHING
};

pub(crate) const PURE_PLAIN_TWO_MARKING: Class = Class {
    pure: true,
    ..PLAIN_TWO_MARKING
};

pub(crate) const SAFE_NONBRANCHING: Class = Class {
    bound: Some(1),
    ..NONBRANCHING
};

pub(crate) const PURE_PLAIN_SAFE: Class = Class {
    bound: Some(1),
    ..PURE_PLAIN
};

pub(crate) const TWO_BOUNDED_TWO_MARKING: Class = Class {
    bound: Some(2),
    ..TWO_MARKING
};

/// Returns whether the problem is one of the system.
pub(crate) fn is_asked(lts: &Lts, problem: Problem) -> bool
    ensures { IsTrue result → IsSeparationProblem lts.now problem }
{
    match problem {
        Problem::Event(s, t) => {
            s < lts.states() && t < lts.labels() && lts.arc_at(s, t).is_none()
        }
        Problem::States(s, other) => s < lts.states() && other < lts.states() && s != other,
    }
}

//! What all problems of a system share, and one case of a problem.
ghost use Rattle.std.specs.Prelude.{◌≡◌};

use rg_cert_data::ProblemCase;
use rg_cycles::Basis;
use rg_lts::Lts;
use rg_spanning::Tree;
use rg_theory::{Class, Problem};

/// A system with its tree, the basis of its chords, and the class of places that are asked for.
#[derive(Clone, Copy)]
pub struct Setting<'a> {
    pub lts: &'a Lts,
    pub tree: &'a Tree,
    pub basis: &'a Basis,
    pub class: Class,
}

/// A problem of the system, and the number of one of its cases.
#[derive(Clone, Copy)]
pub struct CaseSetting<'a> {
    pub setting: Setting<'a>,
    pub problem: Problem,
    pub number: u32,
}

impl CaseSetting<'_> {
    /// Returns the case without system, tree and basis, as the rows of certificates need it.
    pub fn problem_case(self) -> ProblemCase
        ensures class { result.class ≡ self.entry.setting.class }
        ensures problem { result.problem ≡ self.entry.problem }
        ensures number { result.number ≡ self.entry.number }
    {
        ProblemCase {
            class: self.setting.class,
            problem: self.problem,
            number: self.number,
        }
    }
}

//! What the words of the program ask for.

use crate::examining::ExamineOutput;
use crate::forms::{Form, Target};
use crate::splitting::SplitOutput;
use rg_families::Kind;
use rg_theory::Class;

/// What is asked of the system of a file, by the command. A second file has a name of type `N`.
#[derive(Clone, Copy, Debug, PartialEq, Eq)]
pub enum Work<N> {
    /// A net of the class for the system, by so many jobs.
    Synthesize(Class, u8),
    /// Whether the certificate of the file holds for the system.
    Verify(N),
    /// Whether the net of the file solves the system and is of the class.
    Check(Class, N),
    /// The system in the form.
    Convert(Target),
    /// The factors of the system, or nets of the class for them side by side, by so many jobs.
    Factor(Option<Class>, u8),
    /// The net of the system with its labels split, or that system, by so many jobs.
    Split(SplitOutput, u8),
    /// Whether the system of the file, in its form, is isomorphic to the system.
    Isomorphic(N, Form),
    /// The report on the system.
    Examine(ExamineOutput),
}

/// What words ask for. A file has a name of type `N`: code borrows it from the words, definitions have it as a text.
#[derive(Clone, Copy, Debug, PartialEq, Eq)]
pub enum Request<N> {
    /// The work on the system that the file of this name spells in the form.
    OfSystem(Work<N>, N, Form),
    /// The system of the family for the number.
    Generate(Kind, u32),
    /// A test of the tool itself, on the systems of the number.
    SelfTest(u32),
}

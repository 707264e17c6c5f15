//! What a certificate says, and that it shows that there is no net.
//!
//! A separation problem is a system of linear inequalities over the tokens of states and the effects of labels
//! (Badouel, Bernardinello and Darondeau, *Petri Net Synthesis*). A certificate names them. States and labels are the
//! system's numbers.
#![tactic(auto)]

ghost use Rattle.std.specs.Prelude.{◌≡◌, ℕ, ◌<◌, ◌↔◌, IsTrue};
ghost use Rattle.rg_theory.specs.System.{System, IsInRange};
ghost use Rattle.rg_theory.specs.Class.{NoNet};
ghost use Rattle.rg_cert_meaning.specs.Row.{cases_of, form_variable, step_of, FormStands};
ghost use Rattle.rg_cert_meaning.specs.Refutes.{Reason, Accepts, IsSeparationProblem, IsSeparable, HasWholeSolution};

use rg_theory::{Arc, Class, Problem};

/// An unknown of the rows: the tokens at a state, or the effect of a label.
#[derive(Clone, Copy, Debug, PartialEq, Eq)]
pub enum Variable {
    Tokens(u32),
    Effect(u32),
}

/// A linear equation or inequality over the tokens `M(q)` at each state and the effect `E(t)` of each label. It holds
/// of every region of the class that separates the problem; `Apart` and `Makes` hold in their case, and `Above` on
/// its side of a split. `Arc` says that its expression is 0, each other row that it is at least 0.
///
/// Where the rows come from: the systems of regions in Badouel, Bernardinello and Darondeau, Petri Net Synthesis.
#[derive(Clone, Copy, Debug, PartialEq, Eq)]
pub enum RowName {
    /// `M(q) + E(t) - M(q')`, for an arc `(q, t, q')`.
    Arc(Arc),
    /// `M(q)`.
    Tokens(u32),
    /// `k - M(q)`, in a class bounded by k.
    Cap(u32),
    /// `1 - E(t)`, in a plain class.
    Up(u32),
    /// `E(t) + 1`, in a plain class.
    Down(u32),
    /// `E(t)`, in an output-nonbranching class, for a label other than the consumer.
    Makes(u32),
    /// `M(q) - M(s) - 1`, for the problem of label t at state s and an arc of t at q, in a class neither pure nor
    /// plain.
    Stop(u32),
    /// `-M(s) - E(t) - 1`, for the problem of label t at state s, in a pure class.
    Block,
    /// `-M(s)`, for the problem of label t at state s, in a class that is plain and not pure.
    Empty,
    /// `M(q) - 1`, for the problem of label t at state s and an arc of t at q, in a class that is plain and not pure.
    Full(u32),
    /// `-E(t)`, for the problem of label t at state s, in a class that is plain and not pure.
    Keep,
    /// For the problem of two states: the one has fewer tokens than the other, in the order of the case.
    Apart,
    /// What the split at this depth above the leaf says on its side; depth 0 is outermost.
    Above(u32),
}

/// What a split speaks of: the tokens at a state, the effect of a label, or the tokens at the initial state.
#[derive(Clone, Copy, Debug, PartialEq, Eq)]
pub enum Form {
    Tokens(u32),
    Effect(u32),
    /// The tokens at the initial state by steps of N, in a class `N-marking`.
    Start,
}

/// One side of a split on a form.
pub type Side = rg_branch_trees::Side<Form>;

impl Form {
    /// Returns the variable that the form counts, where this is the initial state.
    pub fn variable(self, initial: u32) -> Variable
        ensures { result ≡ form_variable initial self }
    {
        match self {
            Form::Tokens(q) => Variable::Tokens(q),
            Form::Effect(t) => Variable::Effect(t),
            Form::Start => Variable::Tokens(initial),
        }
    }

    /// Returns by steps of how many the form counts its variable in the class: the start by those of the marking.
    pub fn step(self, class: Class) -> u8
        ensures { result ≡ step_of class self }
    {
        match self {
            Form::Tokens(_) | Form::Effect(_) => 1,
            Form::Start => class.marking.unwrap_or(1),
        }
    }

    /// Returns whether a split may be on the form in the class: on the start where the class asks that it be a
    /// multiple.
    pub fn stands(self, class: Class) -> bool
        ensures { IsTrue result ↔ FormStands class self }
    {
        match self {
            Form::Tokens(_) | Form::Effect(_) => true,
            Form::Start => class.marking.is_some(),
        }
    }
}

/// Law: an accepted certificate shows that no net of its class solves the system, whatever the size of the net.
pub fn accepted_is_no_net()
    ensures { (lts : System) (class : Class) (reason : Reason) → IsInRange lts → Accepts lts class reason → NoNet lts class }
{}

/// Law: some region of the class separates a problem exactly where whole numbers keep all the rows of one of its
/// cases.
pub fn rows_are_exact()
    ensures { (lts : System) (class : Class) (problem : Problem) → IsInRange lts → IsSeparationProblem lts problem → 0 < cases_of lts class problem → IsSeparable lts class problem ↔ HasWholeSolution lts class problem }
{}

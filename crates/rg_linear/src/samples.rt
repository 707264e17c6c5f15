//! Small systems whose outcomes are known.

ghost use Rattle.std.specs.Prelude.{[], ◌∷◌};
ghost use Rattle.rg_linear.specs.Descent.{Outcome, DescentFromStart};
ghost use Rattle.rg_linear.specs.Samples.{passing, passing_term, empty};

/// Law: the first term out of range occurs at the set of variable 1, in the exchange of variable 2 with 1.
pub fn passing_is_wide()
    ensures { DescentFromStart passing (Outcome.wide (record { members = 1 ∷ []; pivot = 2; leaves = 1; target = 0; entry = 0; term = passing_term })) }
{}

/// Law: with no column the row -1 refutes alone.
pub fn empty_is_refuted()
    ensures { DescentFromStart empty (Outcome.refuted [] 0 []) }
{}

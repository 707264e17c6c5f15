//! What holds of the answer. The function here does nothing: its contract is a law.
ghost use Rattle.std.specs.Prelude.{◌≤◌, List, length};
ghost use Rattle.rg_theory.specs.System.{System};
ghost use Rattle.rg_theory.specs.Net.{Place};
ghost use Rattle.rg_theory.specs.declared.Class.{Class};
ghost use Rattle.rg_lts.specs.WellFormed.{IsWellFormed};
ghost use Rattle.rg_outcome.specs.Outcome.{Out, Answer.net as of_net};
ghost use Rattle.rg_blocks.specs.Problems.{most_problems};

/// Law: the net of an answer has at most one place for each separation problem that a system of so many states and
/// labels may have. At the limits of a system, 4,096 states and 256 labels, that is 9,435,136 places.
pub fn net_is_small()
    ensures few { (lts : System) (class : Class) (places : List Place) → Out lts class (of_net places) → length places ≤ most_problems lts }
    ensures at_limits { (lts : System) (class : Class) (places : List Place) → IsWellFormed lts → Out lts class (of_net places) → length places ≤ 9435136 }
{}

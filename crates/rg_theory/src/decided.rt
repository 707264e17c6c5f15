//! What is decided of each system in range: its breadth first tree, whether all states can be reached, and whether a
//! label leads from a state to two. The functions here do nothing: each contract is a law.
ghost use Rattle.std.specs.Prelude.{ℕ, ◌⊎◌, List};
ghost use Rattle.rg_theory.specs.declared.Arc.{Arc};
ghost use Rattle.rg_theory.specs.System.{System, IsInRange, IsAllReachable, IsLeastUnreachable, IsForkFree, IsLeastFork};
ghost use Rattle.rg_theory.specs.Tree.{IsTree};

/// Law: each system in range has a breadth first tree.
pub fn systems_have_a_tree()
    ensures { (lts : System) → IsInRange lts → (tree : List Arc) × IsTree lts tree }
{}

/// Law: all states of a system in range can be reached, or one is the least that can't; and it has no fork, or a
/// least one.
pub fn systems_are_decided()
    ensures reachable { (lts : System) → IsInRange lts → IsAllReachable lts ⊎ ((s : ℕ) × IsLeastUnreachable lts s) }
    ensures fork_free { (lts : System) → IsInRange lts → IsForkFree lts ⊎ ((s t s₁ s₂ : ℕ) × IsLeastFork lts s t s₁ s₂) }
{}

//! What the families' systems are like.
ghost use Rattle.std.specs.Prelude.{◌≡◌, ℕ, ◌+◌, ◌-◌, ◌*◌, ◌^◌, length};
ghost use Rattle.rg_theory.specs.System.{System, states, labels, IsAllReachable, IsForkFree};
ghost use Rattle.rg_families.specs.declared.Kind.{Kind};
ghost use Rattle.rg_families.specs.declared.Kind.TheVariants.{Grid, Doubling, Lock};
ghost use Rattle.rg_families.specs.Named.{IsSound};
ghost use Rattle.rg_families.specs.Families.{IsFamilyNumber, IsOfFamily, drawn};

/// Law: a family has one system of each of its numbers: names differ, arcs join states that are there, no limit is
/// passed, and no other system meets the clause of `generate`.
pub fn one_of_each()
    ensures sound { (kind : Kind) (n : ℕ) → IsFamilyNumber kind n → IsSound (drawn kind n) }
    ensures one { (kind : Kind) (n : ℕ) (a b : System) → IsOfFamily kind n a → IsOfFamily kind n b → a ≡ b }
{}

/// Law: the systems are open: every state can be reached, and a label leads from a state to one state at most.
pub fn systems_are_open()
    ensures reachable { (kind : Kind) (n : ℕ) (lts : System) → IsFamilyNumber kind n → IsOfFamily kind n lts → IsAllReachable lts }
    ensures fork_free { (kind : Kind) (n : ℕ) (lts : System) → IsFamilyNumber kind n → IsOfFamily kind n lts → IsForkFree lts }
{}

/// Law: how many states there are.
pub fn states_are_counted()
    ensures grid { (n : ℕ) (lts : System) → IsOfFamily Grid n lts → states lts ≡ (n + 1) * (n + 1) }
    ensures doubling { (n : ℕ) (lts : System) → IsOfFamily Doubling n lts → states lts ≡ 2 * n + 1 }
    ensures lock { (n : ℕ) (lts : System) → IsFamilyNumber Lock n → IsOfFamily Lock n lts → states lts ≡ (n + 2) * 2 ^ (n - 1) }
{}

/// Law: how many arcs there are in grids and doublings.
pub fn arcs_are_counted()
    ensures grid { (n : ℕ) (lts : System) → IsFamilyNumber Grid n → IsOfFamily Grid n lts → length lts.arcs ≡ 2 * (n * (n + 1)) }
    ensures doubling { (n : ℕ) (lts : System) → IsFamilyNumber Doubling n → IsOfFamily Doubling n lts → length lts.arcs ≡ 3 * n }
{}

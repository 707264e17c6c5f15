//! The tree meets each state once.
ghost use Rattle.std.specs.Prelude.{◌≢◌, ℕ, ◌<◌, AllPairs, Contains};
ghost use Rattle.rg_theory.specs.System.{System, states, IsInRange, IsAllReachable};
ghost use Rattle.rg_spanning.specs.Spanning.{Spanning, IsTreeOf, order_of};

/// Law: the order in which the tree meets the states has no state twice, has states alone, and has every state where
/// all can be reached.
pub fn each_state_once()
    ensures once { (lts : System) (grown : Spanning) → IsTreeOf lts grown → AllPairs (λ a b. a ≢ b) (order_of grown) }
    ensures states { (lts : System) (grown : Spanning) (s : ℕ) → IsInRange lts → IsTreeOf lts grown → Contains (order_of grown) s → s < states lts }
    ensures every { (lts : System) (grown : Spanning) (s : ℕ) → IsAllReachable lts → IsTreeOf lts grown → s < states lts → Contains (order_of grown) s }
{}

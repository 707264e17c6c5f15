//! What pruning leaves: one list, which separates all problems and lacks none of its places.
ghost use Rattle.std.specs.Prelude.{◌≡◌, ℕ, ◌<◌, ◌≤◌, List, length, Contains, All};
ghost use Rattle.rg_theory.specs.System.{System, labels, IsInRange, IsAllReachable};
ghost use Rattle.rg_theory.specs.Net.{Place, Net};
ghost use Rattle.rg_theory.specs.Solves.{Solves};
ghost use Rattle.rg_theory.specs.declared.Class.{Class};
ghost use Rattle.rg_theory.specs.Class.{InClass};
ghost use Rattle.rg_theory.specs.Region.{IsRegionIn};
ghost use Rattle.rg_theory.specs.Problem.{SeparateAll};
ghost use Rattle.rg_theory.specs.Pruned.{IsPruned, others, net_without};

/// Law: places leave one list.
pub fn pruned_is_one()
    ensures { (lts : System) (places a b : List Place) → IsPruned lts places a → IsPruned lts places b → a ≡ b }
{}

/// Law: what is left of places that separate all problems separates them too, and without any one of its places it
/// doesn't. Each place that is left is one of those given, and no more are left.
pub fn pruned_separates()
    ensures separates { (lts : System) (places left : List Place) → IsPruned lts places left → SeparateAll places lts → SeparateAll left lts }
    ensures needed { (lts : System) (places left : List Place) → IsPruned lts places left → (i : ℕ) → i < length left → ¬ SeparateAll (others left i) lts }
    ensures among { (lts : System) (places left : List Place) → IsPruned lts places left → (p : Place) → Contains left p → Contains places p }
    ensures no_more { (lts : System) (places left : List Place) → IsPruned lts places left → length left ≤ length places }
{}

/// Law: regions of a class that separate all problems leave a net of the class that solves the system, and without
/// any one of its places it doesn't solve it.
pub fn net_is_irredundant()
    ensures solves { (lts : System) (class : Class) (places left : List Place) → IsInRange lts → IsAllReachable lts → All (IsRegionIn lts class) places → SeparateAll places lts
        → IsPruned lts places left → Solves (record { labels = labels lts; places = left }) lts × InClass (record { labels = labels lts; places = left }) class }
    ensures needed { (lts : System) (places left : List Place) → IsInRange lts → IsPruned lts places left → (i : ℕ) → i < length left → ¬ Solves (net_without (record { labels = labels lts; places = left }) i) lts }
{}

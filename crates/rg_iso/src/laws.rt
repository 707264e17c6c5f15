//! Laws: two systems have one comparison, and a difference refutes every map.
ghost use Rattle.std.specs.Prelude.{◌≡◌};
ghost use Rattle.rg_theory.specs.System.{System};
ghost use Rattle.rg_lts.specs.WellFormed.{IsWellFormed};
ghost use Rattle.rg_checks.specs.Flaws.{IsFlawless};
ghost use Rattle.rg_iso.specs.Isomorphic.{AreIsomorphic};
ghost use Rattle.rg_iso.specs.Compared.{Told, Compares, IsMap};

/// Law: a difference shows that there is no map. It is a label that one system alone has, a step that one system
/// alone has after a word, or two words that lead to one state in one system and to two in the other.
pub fn difference_refutes()
    ensures { (a b : System) (told : Told) → IsWellFormed a → IsWellFormed b → IsFlawless a → IsFlawless b → Compares a b told → ¬ IsMap told → ¬ AreIsomorphic a b }
{}

/// Law: two systems have exactly one comparison: one map, one label or one difference.
pub fn one_comparison()
    ensures once { (a b : System) (x y : Told) → IsWellFormed a → IsWellFormed b → IsFlawless a → IsFlawless b → Compares a b x → Compares a b y → x ≡ y }
    ensures some { (a b : System) → IsWellFormed a → IsWellFormed b → IsFlawless a → IsFlawless b → (told : Told) × Compares a b told }
{}

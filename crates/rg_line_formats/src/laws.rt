//! The system with given parts.
ghost use Rattle.std.specs.Prelude.{◌≡◌, ℕ, List};
ghost use Rattle.rg_theory.specs.declared.Arc.{Arc};
ghost use Rattle.rg_theory.specs.System.{System};
ghost use Rattle.rg_line_formats.specs.Parts.{IsSystemWith};

/// Law: there is one system with these names, arcs and initial state.
pub fn one_system()
    ensures some { (states labels : List (List ℕ)) (arcs : List Arc) (initial : ℕ) → (lts : System) × IsSystemWith states labels arcs initial lts }
    ensures one { (states labels : List (List ℕ)) (arcs : List Arc) (initial : ℕ) (a b : System)
        → IsSystemWith states labels arcs initial a → IsSystemWith states labels arcs initial b → a ≡ b }
{}

//! The arcs that leave a state.
ghost use Rattle.std.specs.Prelude.{◌≡◌, ◌↔◌, ◌<◌, AllPairs, Contains};
ghost use Rattle.rg_theory.specs.declared.Arc.{Arc};
ghost use Rattle.rg_theory.specs.System.{states, IsArcBefore};

use crate::lts::{Lts, first_index};
use rg_theory::Arc;

impl Lts {
    /// Returns the arcs that leave state `s`, each once, ordered by label and the state that they enter.
    pub fn arcs_from(&self, s: u32) -> &[Arc]
        requires { s < states self.now }
        ensures members { (a : Arc) → Contains result.now a ↔ (Contains self.now.arcs a × (a.from ≡ s)) }
        ensures order { AllPairs IsArcBefore result.now }
    {
        let arcs = self.arcs();
        let start = first_index(arcs, s, 0);
        let end = first_index(arcs, s + 1, 0);
        &arcs[start..end]
    }
}

//! Laws on flaws.
ghost use Rattle.std.specs.Prelude.{◌≡◌, ◌⊎◌};
ghost use Rattle.rg_theory.specs.System.{System, IsInRange};
ghost use Rattle.rg_checks.specs.declared.flaw.Flaw.{Flaw};
ghost use Rattle.rg_checks.specs.Flaws.{IsFlawless, IsFirstFlaw};

use rg_theory::one_least_fork;

/// Law: a system has one first flaw, or is flawless.
pub fn one_first_flaw()
    ensures once { (lts : System) (f g : Flaw) → IsFirstFlaw lts f → IsFirstFlaw lts g → f ≡ g }
    ensures apart { (lts : System) (f : Flaw) → IsFirstFlaw lts f → ¬ IsFlawless lts }
    ensures some { (lts : System) → IsInRange lts → ((f : Flaw) × IsFirstFlaw lts f) ⊎ IsFlawless lts }
{
    one_least_fork();
}

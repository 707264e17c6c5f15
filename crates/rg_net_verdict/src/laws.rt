//! What a verdict says.
ghost use Rattle.std.specs.Prelude.{◌≡◌, Ok};
ghost use Rattle.rg_integers.specs.Range.{greatest};
ghost use Rattle.rg_theory.specs.System.{System, labels, IsInRange};
ghost use Rattle.rg_theory.specs.Net.{Net};
ghost use Rattle.rg_theory.specs.Solves.{Solves};
ghost use Rattle.rg_theory.specs.declared.Class.{Class};
ghost use Rattle.rg_theory.specs.Class.{InClass, IsBounded};
ghost use Rattle.rg_net_verdict.specs.declared.verdict.NetNo.{NetNo};
ghost use Rattle.rg_net_verdict.specs.declared.verdict.NetVerdict.TheVariants as verdict;
ghost use Rattle.rg_net_verdict.specs.Verdict.{Told, IsVerdict};

use rg_checks::one_first_flaw;

/// Law: yes says that the net solves the system and is of the class, and each no that one of the two is false.
pub fn verdict_is_sound()
    ensures yes { (lts : System) (net : Net) (class : Class) → IsInRange lts → net.labels ≡ labels lts → IsVerdict lts net class (Ok verdict.Yes) → Solves net lts × InClass net class }
    ensures no { (lts : System) (net : Net) (class : Class) (n : NetNo) → IsInRange lts → net.labels ≡ labels lts → IsVerdict lts net class (Ok (verdict.No n)) → Solves net lts → ¬ InClass net class }
{}

/// Law: a net has one verdict, or the judge stops at one place. Each net with one transition for each label of a
/// system in range has a verdict, or the judge stops at some place.
pub fn verdict_is_one()
    ensures once { (lts : System) (net : Net) (class : Class) (v w : Told) → IsInRange lts → IsVerdict lts net class v → IsVerdict lts net class w → v ≡ w }
    ensures some { (lts : System) (net : Net) (class : Class) → IsInRange lts → net.labels ≡ labels lts → (v : Told) × IsVerdict lts net class v }
{
    one_first_flaw();
}

/// Law: a net that solves the system, is of the class and has no reachable marking out of range gets yes, and no
/// other answer but for want of memory.
pub fn solving_net_gets_yes()
    ensures { (lts : System) (net : Net) (class : Class) (v : Told) → IsInRange lts → net.labels ≡ labels lts → Solves net lts → InClass net class → IsBounded net greatest → IsVerdict lts net class v → v ≡ Ok verdict.Yes }
{}

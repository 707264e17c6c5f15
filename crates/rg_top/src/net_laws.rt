//! What the judge of nets says of a net that is written.
ghost use Rattle.std.specs.Prelude.{◌≡◌, ◌≤◌, ℕ, List, length, Ok};
ghost use Rattle.rg_theory.specs.System.{System, IsInRange};
ghost use Rattle.rg_theory.specs.Net.{Net};
ghost use Rattle.rg_theory.specs.declared.Class.{Class};
ghost use Rattle.rg_netfile.specs.Contents.{most_places};
ghost use Rattle.rg_netfile.specs.Spells.{Spells};
ghost use Rattle.rg_net_verdict.specs.declared.verdict.NetVerdict.TheVariants as verdict;
ghost use Rattle.rg_net_verdict.specs.Verdict.{Told, IsVerdict};
ghost use Rattle.rg_top.specs.Synthesize.{IsNetText};

use rg_net_verdict::solving_net_gets_yes;
use rg_netfile::one_answer;

/// Law: what `synthesize` writes with status 0 gets yes from `check_net` for the same system and class, and no other
/// answer but for want of memory: the net, and what its text is read as where a net file may have so many places.
pub fn written_net_gets_yes()
    ensures net { (class : Class) (lts : System) (out : List ℕ) (v : Told) → IsInRange lts → (written : IsNetText class lts out) → IsVerdict lts written.net class v → v ≡ Ok verdict.Yes }
    ensures read { (class : Class) (lts : System) (out : List ℕ) (net : Net) (v : Told) → IsInRange lts → (written : IsNetText class lts out) → length written.net.places ≤ most_places → Spells out lts net → IsVerdict lts net class v → v ≡ Ok verdict.Yes }
{
    solving_net_gets_yes();
    one_answer();
}

//! Laws: what is printed of nets and losses has names.
ghost use Rattle.std.specs.Prelude.{◌≡◌, ℕ, ◌<◌, Ok};
ghost use Rattle.rg_theory.specs.System.{System, states, labels, IsInRange};
ghost use Rattle.rg_theory.specs.Net.{Net};
ghost use Rattle.rg_theory.specs.declared.Class.{Class};
ghost use Rattle.rg_genet.specs.Loss.{IsFirstDead, IsFirstLost};
ghost use Rattle.rg_net_verdict.specs.declared.verdict.NetNo.{NetNo};
ghost use Rattle.rg_net_verdict.specs.declared.verdict.NetVerdict.TheVariants as verdict;
ghost use Rattle.rg_net_verdict.specs.Verdict.{IsVerdict};
ghost use Rattle.rg_messages.specs.CheckedTexts.{HasNames};

/// Law: the states and labels of a difference between a net and a system are the system's, so `check_text` may be
/// called.
pub fn verdict_has_names()
    ensures { (lts : System) (net : Net) (class : Class) (n : NetNo) → IsInRange lts → net.labels ≡ labels lts → IsVerdict lts net class (Ok (verdict.No n)) → HasNames lts n }
{}

/// Law: what a state graph can't hold of a system is the system's, so `label_loss_text` and `state_loss_text` may be
/// called.
pub fn loss_has_name()
    ensures label { (lts : System) (t : ℕ) → IsFirstDead lts t → t < labels lts }
    ensures state { (lts : System) (s : ℕ) → IsFirstLost lts s → s < states lts }
{}

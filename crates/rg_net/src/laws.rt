//! What the text of a net says.
ghost use Rattle.std.specs.Prelude.{◌≡◌, ℕ, ◌≤◌, false, length, List};
ghost use Rattle.std.specs.List.{list_any};
ghost use Rattle.rg_theory.specs.Limits.{most_labels};
ghost use Rattle.rg_theory.specs.System.{System, labels};
ghost use Rattle.rg_theory.specs.Net.{Net};
ghost use Rattle.rg_net.specs.NetText.{net_text, blocks, place_prefix};
ghost use Rattle.rg_net.specs.Range.{IsNetInRange};

/// Law: two nets for one system with the same text are the same net. Each number is in the range that every `Net`
/// keeps to.
pub fn net_is_told()
    ensures { (lts : System) (a b : Net) → a.labels ≡ labels lts → b.labels ≡ labels lts → IsNetInRange a → IsNetInRange b → net_text a lts ≡ net_text b lts → a ≡ b }
{}

/// Law: where there are at most 256 labels, none is the prefix of the places followed by digits alone, so none is the
/// name of a place.
pub fn prefix_is_free()
    ensures { (names : List (List ℕ)) → length names ≤ most_labels → list_any (blocks (place_prefix names)) names ≡ false }
{}

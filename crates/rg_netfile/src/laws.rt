//! A text spells one net for a system or has one first fault.
ghost use Rattle.std.specs.Prelude.{◌≡◌, ℕ, ◌⊎◌, ◌≤◌, List, length};
ghost use Rattle.rg_theory.specs.System.{System, labels};
ghost use Rattle.rg_theory.specs.Net.{Net};
ghost use Rattle.rg_lts.specs.WellFormed.{IsWellFormed};
ghost use Rattle.rg_net.specs.NetText.{net_text};
ghost use Rattle.rg_net.specs.Range.{IsNetInRange};
ghost use Rattle.rg_netfile.specs.Contents.{most_places};
ghost use Rattle.rg_netfile.specs.LabelledTexts.{IsLabelledNet, labelled_text, without_options};
ghost use Rattle.rg_netfile.specs.declared.fault.NetFault.{NetFault};
ghost use Rattle.rg_netfile.specs.declared.fault.NetFault.TheVariants.{NoMemory};
ghost use Rattle.rg_netfile.specs.Spells.{Spells, FirstFault};

use rg_net::net_is_told;

/// Law: a text spells a net for a system or has a first fault, never both and never two.
pub fn one_answer()
    ensures some { (bytes : List ℕ) (lts : System) → ((net : Net) × Spells bytes lts net) ⊎ ((f : NetFault) × FirstFault bytes lts f) }
    ensures one_net { (bytes : List ℕ) (lts : System) (a b : Net) → Spells bytes lts a → Spells bytes lts b → a ≡ b }
    ensures one_fault { (bytes : List ℕ) (lts : System) (f g : NetFault) → FirstFault bytes lts f → FirstFault bytes lts g → f ≡ g }
    ensures not_both { (bytes : List ℕ) (lts : System) (net : Net) (f : NetFault) → Spells bytes lts net → ¬ FirstFault bytes lts f }
{}

/// Law: the text of a net with at most 16,384 places, as `print_net` writes it, spells that net.
pub fn printed_is_spelled()
    ensures { (net : Net) (lts : System) → IsWellFormed lts → net.labels ≡ labels lts → IsNetInRange net → length net.places ≤ most_places
        → Spells (net_text net lts) lts net }
{}

/// Law: two labelled nets for one system with the same text are the same net with the same labels.
pub fn labelled_net_is_told()
    ensures { (system : System) (a b : Net) (names others : List (List ℕ)) → IsWellFormed system → IsLabelledNet system a names → IsLabelledNet system b others
        → labelled_text a system names ≡ labelled_text b system others → (a ≡ b) × (names ≡ others) }
{
    net_is_told();
}

/// Law: the text of a labelled net with at most 16,384 places, as `print_labelled` writes it, without what is in
/// brackets spells the net for the system whose labels are the transitions.
pub fn labelled_net_is_spelled()
    ensures { (system : System) (net : Net) (names : List (List ℕ)) → IsWellFormed system → IsLabelledNet system net names → length net.places ≤ most_places
        → Spells (without_options (labelled_text net system names)) system net }
{}

/// Law: a net that a text spells for a system has the system's labels, and no text has want of memory as its first
/// fault.
pub fn spelled_is_for_the_system()
    ensures labels { (bytes : List ℕ) (lts : System) (net : Net) → Spells bytes lts net → net.labels ≡ labels lts }
    ensures fault { (bytes : List ℕ) (lts : System) → ¬ FirstFault bytes lts NoMemory }
{}

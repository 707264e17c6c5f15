//! What the text of a certificate says.
ghost use Rattle.std.specs.Prelude.{◌≡◌, ◌⊎◌, ◌++◌, ℕ, List};
ghost use Rattle.rg_text.specs.Line.{fed};
ghost use Rattle.rg_theory.specs.System.{System};
ghost use Rattle.rg_lts.specs.WellFormed.{IsWellFormed};
ghost use Rattle.rg_cert_data.specs.Certificates.{Claim, IsClaimOf};
ghost use Rattle.rg_cert.specs.Text.{cert_text};
ghost use Rattle.rg_cert.specs.Spells.{Spells};
ghost use Rattle.rg_cert.specs.Lines.{Position, Position.at_heading};
ghost use Rattle.rg_cert.specs.Faults.{LinesLead, FirstFault};
ghost use Rattle.rg_cert.specs.declared.fault.CertFault.{CertFault};
ghost use Rattle.rg_cert.specs.declared.fault.CertFault.TheVariants.{NoMemory};

/// Law: for a system a text spells one claim or has one first fault, and never both.
pub fn one_answer()
    ensures some { (bytes : List ℕ) (lts : System) → ((claim : Claim) × Spells bytes lts claim) ⊎ ((fault : CertFault) × FirstFault bytes lts fault) }
    ensures one_claim { (bytes : List ℕ) (lts : System) (a b : Claim) → IsWellFormed lts → Spells bytes lts a → Spells bytes lts b → a ≡ b }
    ensures one_fault { (bytes : List ℕ) (lts : System) (d e : CertFault) → FirstFault bytes lts d → FirstFault bytes lts e → d ≡ e }
    ensures not_both { (bytes : List ℕ) (lts : System) (claim : Claim) (fault : CertFault) → IsWellFormed lts → Spells bytes lts claim → ¬ FirstFault bytes lts fault }
{}

/// Law: right lines, each of which may follow those before it, can go on to the text of a claim. So the line of a
/// first fault is the first with which the text can't.
pub fn lines_go_on()
    ensures { (lts : System) (before : List (List ℕ)) (position : Position) → IsWellFormed lts → LinesLead lts at_heading before position → (more : List (List ℕ)) × (claim : Claim) × Spells (fed (before ++ more)) lts claim }
{}

/// Law: two claims for a system with the same text are the same.
pub fn certificate_is_told()
    ensures { (lts : System) (a b : Claim) → IsWellFormed lts → IsClaimOf lts a → IsClaimOf lts b → cert_text a lts ≡ cert_text b lts → a ≡ b }
{}

/// Law: the numbers of a claim that a text spells for a system are in range of the system, and those of its class
/// from 1 to 255. No text has want of memory as its first fault.
pub fn spelled_is_in_range()
    ensures claim { (bytes : List ℕ) (lts : System) (claim : Claim) → Spells bytes lts claim → IsClaimOf lts claim }
    ensures fault { (bytes : List ℕ) (lts : System) → ¬ FirstFault bytes lts NoMemory }
{}

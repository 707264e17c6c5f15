//! A certificate has one verdict, and always one.
ghost use Rattle.std.specs.Prelude.{◌≡◌};
ghost use Rattle.rg_theory.specs.System.{System, IsInRange};
ghost use Rattle.rg_cert_data.specs.Certificates.{Claim, IsClaimOf};
ghost use Rattle.rg_verify.specs.declared.verdict.Verdict.{Verdict};
ghost use Rattle.rg_verify.specs.Judged.{Judges};

/// Law: two verdicts on a certificate are the same: it has one first defect at most, and none where it is accepted.
/// Each certificate whose numbers are in range of the system has a verdict.
pub fn one_verdict()
    ensures once { (lts : System) (claim : Claim) (v w : Verdict) → Judges lts claim v → Judges lts claim w → v ≡ w }
    ensures some { (lts : System) (claim : Claim) → IsInRange lts → IsClaimOf lts claim → (v : Verdict) × Judges lts claim v }
{}

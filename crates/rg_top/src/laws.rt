//! How often and where a command can end.
ghost use Rattle.std.specs.Prelude.{◌≡◌, ℕ, List, Option, Some};
ghost use Rattle.rg_ports.specs.Shelf.{Files};
ghost use Rattle.rg_theory.specs.System.{System, IsInRange};
ghost use Rattle.rg_theory.specs.declared.Class.{Class};
ghost use Rattle.rg_lts.specs.WellFormed.{IsWellFormed};
ghost use Rattle.rg_families.specs.declared.Kind.{Kind};
ghost use Rattle.rg_commands.specs.declared.forms.Form.{Form};
ghost use Rattle.rg_commands.specs.declared.examining.ExamineOutput.{ExamineOutput};
ghost use Rattle.rg_commands.specs.declared.splitting.SplitOutput.{SplitOutput};
ghost use Rattle.rg_commands.specs.declared.forms.Target.{Target};
ghost use Rattle.rg_top.specs.Given.{IsFile};
ghost use Rattle.rg_top.specs.Synthesize.{IsCertificateText, SynthesizeEnds, SynthesizeIsDue};
ghost use Rattle.rg_top.specs.Verify.{IsAccepted, VerifyEnds, VerifyIsDue};
ghost use Rattle.rg_top.specs.Check.{CheckEnds, CheckIsDue};
ghost use Rattle.rg_top.specs.Convert.{ConvertEnds, ConvertIsDue};
ghost use Rattle.rg_top.specs.Factor.{FactorEnds, FactorIsDue};
ghost use Rattle.rg_top.specs.Split.{SplitEnds, SplitIsDue};
ghost use Rattle.rg_top.specs.Isomorphic.{IsomorphicEnds, IsomorphicIsDue};
ghost use Rattle.rg_top.specs.Examine.{ExamineEnds, ExamineIsDue};
ghost use Rattle.rg_top.specs.Generate.{GenerateEnds, GenerateIsDue};
ghost use Rattle.rg_top.specs.SelfTest.{SelfTestEnds, SelfTestIsDue};
ghost use Rattle.rg_top.specs.End.{End, HasStatus};
ghost use Rattle.rg_top.specs.One.{OneAnswer};
ghost use Rattle.rg_top.specs.declared.status.Status.{Status};

use rg_checks::one_first_flaw;
use rg_commands::words_say_one_thing;
use rg_families::one_of_each;
use rg_iso::{difference_refutes, one_comparison};
use rg_net_verdict::verdict_is_one;
use rg_outcome::outcome_is_one;
use rg_product::factoring_is_one;
use rg_report::one_examination;
use rg_split::{splitting_is_one, splitting_says};
use rg_verify::one_verdict;

/// Law: `verify` accepts what `synthesize` writes with status 1, for the same system, in any file.
pub fn written_is_accepted()
    ensures { (class : Class) (lts : System) (out : List ℕ) (files : Option Files) (name : List ℕ) → IsCertificateText class lts out → IsFile files name out → IsAccepted files name lts class }
{}

/// Law: `synthesize` ends in one way for a system and a class, with the status of `SynthesizeIsDue`. An end has one
/// output, and one status or the term that a status shows.
pub fn synthesize_ends_once()
    ensures once { (class : Class) (lts : System) (e e' : End) → SynthesizeEnds class lts e → SynthesizeEnds class lts e' → e ≡ e' }
    ensures due { (class : Class) (lts : System) (e : End) (due : Status) → SynthesizeEnds class lts e → SynthesizeIsDue class lts due → HasStatus e due }
{
    outcome_is_one();
}

/// Law: `verify` ends in one way for a system and files that are known, with the expected status.
pub fn verify_ends_once()
    ensures once { (files : Files) (cert : List ℕ) (lts : System) (e e' : End) → IsWellFormed lts → VerifyEnds (Some files) cert lts e → VerifyEnds (Some files) cert lts e' → e ≡ e' }
    ensures due { (files : Files) (cert : List ℕ) (lts : System) (e : End) (due : Status) → VerifyEnds (Some files) cert lts e → VerifyIsDue (Some files) cert lts due → HasStatus e due }
{
    rg_cert::one_answer();
    one_verdict();
}

/// Law: `check` ends in one way for a system, a class and files that are known, with the expected status.
pub fn check_ends_once()
    ensures once { (files : Files) (class : Class) (name : List ℕ) (lts : System) (e e' : End)
        → IsInRange lts → CheckEnds (Some files) class name lts e → CheckEnds (Some files) class name lts e' → e ≡ e' }
    ensures due { (files : Files) (class : Class) (name : List ℕ) (lts : System) (e : End) (due : Status)
        → IsInRange lts → CheckEnds (Some files) class name lts e → CheckIsDue (Some files) class name lts due → HasStatus e due }
{
    rg_netfile::one_answer();
    verdict_is_one();
}

/// Law: `convert` ends in one way for a system and a form, with the expected status.
pub fn convert_ends_once()
    ensures once { (lts : System) (target : Target) (e e' : End) → ConvertEnds lts target e → ConvertEnds lts target e' → e ≡ e' }
    ensures due { (lts : System) (target : Target) (e : End) (due : Status) → ConvertEnds lts target e → ConvertIsDue lts target due → HasStatus e due }
{}

/// Law: `factor` ends in one way for a system and a class or none, with the expected status.
pub fn factor_ends_once()
    ensures once { (lts : System) (class : Option Class) (e e' : End) → IsInRange lts → FactorEnds lts class e → FactorEnds lts class e' → e ≡ e' }
    ensures due { (lts : System) (class : Option Class) (e : End) (due : Status) → IsInRange lts → FactorEnds lts class e → FactorIsDue lts class due → HasStatus e due }
{
    one_first_flaw();
    factoring_is_one();
    outcome_is_one();
}

/// Law: `split` ends in one way for a system and what is to be written, with the expected status.
pub fn split_ends_once()
    ensures once { (lts : System) (output : SplitOutput) (e e' : End) → SplitEnds lts output e → SplitEnds lts output e' → e ≡ e' }
    ensures due { (lts : System) (output : SplitOutput) (e : End) (due : Status) → SplitEnds lts output e → SplitIsDue lts due → HasStatus e due }
{
    splitting_is_one();
    splitting_says();
}

/// Law: `isomorphic` ends in one way for a system, a form and files that are known, with the expected status.
pub fn isomorphic_ends_once()
    ensures once { (files : Files) (named : List ℕ) (form : Form) (lts : System) (e e' : End)
        → IsWellFormed lts → IsomorphicEnds (Some files) named form lts e → IsomorphicEnds (Some files) named form lts e' → e ≡ e' }
    ensures due { (files : Files) (named : List ℕ) (form : Form) (lts : System) (e : End) (due : Status)
        → IsomorphicEnds (Some files) named form lts e → IsomorphicIsDue (Some files) named form lts due → HasStatus e due }
{
    rg_apt::one_answer();
    rg_genet::one_answer();
    rg_words::one_answer();
    one_first_flaw();
    one_comparison();
}

/// Law: `examine` ends in one way for a system and a form of the report, with the expected status.
pub fn examine_ends_once()
    ensures once { (output : ExamineOutput) (lts : System) (e e' : End) → ExamineEnds output lts e → ExamineEnds output lts e' → e ≡ e' }
    ensures due { (output : ExamineOutput) (lts : System) (e : End) (due : Status) → ExamineEnds output lts e → ExamineIsDue due → HasStatus e due }
{
    one_examination();
}

/// Law: `generate` ends in one way for a family and a number, with the expected status.
pub fn generate_ends_once()
    ensures once { (kind : Kind) (n : ℕ) (e e' : End) → GenerateEnds kind n e → GenerateEnds kind n e' → e ≡ e' }
    ensures due { (kind : Kind) (n : ℕ) (e : End) (due : Status) → GenerateEnds kind n e → GenerateIsDue due → HasStatus e due }
{
    one_of_each();
}

/// Law: `selftest` ends in one way for a number, with the expected status.
pub fn self_test_ends_once()
    ensures once { (n : ℕ) (e e' : End) → SelfTestEnds n e → SelfTestEnds n e' → e ≡ e' }
    ensures due { (n : ℕ) (e : End) (due : Status) → SelfTestEnds n e → SelfTestIsDue n due → HasStatus e due }
{
    one_of_each();
    outcome_is_one();
}

/// Law: words and files have one answer. If the files are known, there is one end: it has one status, or the term
/// that a status shows, and writes the same bytes to the same sink. So two runs over them in which there is memory
/// and no call fails end alike and write the same, with any numbers of jobs and any gates. The status is the expected
/// one, and if the answer for the system and the class is a term that is out of range, the end shows that term. If
/// the files are known, all words have an expected status, or a term that is out of range decides.
pub fn answers_are_one()
    ensures { OneAnswer }
{
    words_say_one_thing();
    one_of_each();
    outcome_is_one();
    verdict_is_one();
    one_verdict();
    rg_apt::one_answer();
    rg_genet::one_answer();
    rg_words::one_answer();
    rg_cert::one_answer();
    rg_netfile::one_answer();
    one_first_flaw();
    factoring_is_one();
    splitting_is_one();
    splitting_says();
    one_comparison();
    one_examination();
    rg_apt::spelled_is_well_formed();
    rg_genet::spelled_is_well_formed();
    rg_words::spelled_is_well_formed();
    rg_cert::spelled_is_in_range();
    rg_netfile::spelled_is_for_the_system();
    difference_refutes();
}

//! Whether a certificate holds.
ghost use Rattle.std.specs.Prelude.{◌≡◌, ◌≢◌, ℕ, ◌<◌, ◌≤◌, ◌↔◌, Bool, [], ◌∷◌, if◌then◌else◌, AllPairs, Contains, IfOk, IsTrue, length, map, All};
ghost use Rattle.rg_theory.specs.System.{arc, states, labels, IsInRange, IsArcBefore, IsClosedWithout};
ghost use Rattle.rg_theory.specs.Class.{NoNet};
ghost use Rattle.rg_theory.specs.declared.Problem.TheVariants as problem;
ghost use Rattle.rg_cert_meaning.specs.Row.{cases_of};
ghost use Rattle.rg_cert_data.specs.Certificates.{claim_of, IsCertificateOf, IsWhole, IsTreeOf, case_tree};
ghost use Rattle.rg_verify.specs.Judged.{Judges, JudgesTrees, HasAllCases};
ghost use Rattle.rg_verify.specs.declared.verdict.Verdict.TheVariants as verdict;
ghost use Rattle.rg_verify.specs.declared.verdict.Defect.TheVariants as defect;

use crate::cases::case_defect;
use crate::standing::{has_arc, has_arc_at};
use crate::sums::Sums;
use crate::verdict::{Defect, Verdict};
use rg_cert_data::{Case, Certificate, ProblemCase, Reason};
use rg_checks::reach;
use rg_lts::Lts;
use rg_memory::NoMemory;
use rg_theory::{Arc, Class, Problem};
use std::alloc::Global;

/// Returns the verdict on a certificate for a system: accepted exactly where its reason holds, and then no net of its
/// class solves the system, else refused with the first defect. Returns `NoMemory` if the sums of the rows, the
/// splits above a leaf or the states that can be reached don't fit into memory.
pub fn verify(alloc: Global, lts: &Lts, cert: &Certificate) -> Result<Verdict, NoMemory>
    requires { IsCertificateOf lts.now cert.now }
    ensures judged { IfOk result (λ v. Judges lts.now (claim_of cert.now) v) }
    ensures no_net { IfOk result (λ v. v ≡ verdict.Accepted → NoNet lts.now cert.now.class) }
{
    judge(alloc, lts, cert)
}

// The verdict.
fn judge(alloc: Global, lts: &Lts, cert: &Certificate) -> Result<Verdict, NoMemory>
    requires { IsCertificateOf lts.now cert.now }
    ensures judged { IfOk result (λ v. Judges lts.now (claim_of cert.now) v) }
    ensures in_range { IsInRange lts.now }
{
    let arcs = lts.arcs();
    match &cert.reason {
        Reason::Unreachable(s) => Ok(on_whole(is_shut_out(alloc, lts, *s)?)),
        Reason::Fork(s, t, first, second) => {
            Ok(on_whole(is_fork(arcs, *s, *t, *first, *second)))
        }
        Reason::Event(s, t, case) => event_verdict(alloc, lts, cert.class, *s, *t, case),
        Reason::States(s, other, cases) => {
            states_verdict(alloc, lts, cert.class, *s, *other, cases)
        }
    }
}

// The verdict on a reason without cases.
fn on_whole(holds: bool) -> Verdict
    ensures { result ≡ (if holds then verdict.Accepted else verdict.Refused 0 0 defect.NotSo) }
{
    if holds {
        Verdict::Accepted
    } else {
        refusal_of(Defect::NotSo)
    }
}

// Refused as a whole.
fn refusal_of(defect: Defect) -> Verdict
    ensures { result ≡ verdict.Refused 0 0 defect }
{
    Verdict::Refused {
        case: 0,
        node: 0,
        defect,
    }
}

// The verdict on the case that no region stops the label at the state.
fn event_verdict(
    alloc: Global,
    lts: &Lts,
    class: Class,
    s: u32,
    t: u32,
    case: &Case,
) -> Result<Verdict, NoMemory>
    requires state { s < states lts.now }
    requires label { t < labels lts.now }
    requires whole { IsWhole case.now }
    requires in_range { IsTreeOf lts.now (case_tree case.now) }
    ensures { IfOk result (JudgesTrees lts.now class (problem.Event s t) (case_tree case.now ∷ [])) }
{
    if has_arc_at(lts, s, t) {
        return Ok(refusal_of(Defect::NotSo));
    }
    let problem_case = ProblemCase {
        class,
        problem: Problem::Event(s, t),
        number: 0,
    };
    let mut sums = Sums::new(alloc, lts)?;
    match case_defect(alloc, &mut sums, lts, problem_case, case)? {
        Some(found) => Ok(found.refusal_of(0)),
        None => Ok(Verdict::Accepted),
    }
}

// The verdict on the cases of a problem of two states.
fn states_verdict(
    alloc: Global,
    lts: &Lts,
    class: Class,
    s: u32,
    other: u32,
    cases: &[Case],
) -> Result<Verdict, NoMemory>
    requires state { s < states lts.now }
    requires other { other < states lts.now }
    requires whole { All IsWhole cases.now }
    requires in_range { All (IsTreeOf lts.now) (map case_tree cases.now) }
    ensures { IfOk result (JudgesTrees lts.now class (problem.States s other) (map case_tree cases.now)) }
{
    if s == other {
        return Ok(refusal_of(Defect::NotSo));
    }
    if !has_all_cases(lts, class, cases) {
        return Ok(refusal_of(Defect::CaseMissing));
    }
    let mut sums = Sums::new(alloc, lts)?;
    for (number, case) in cases.iter().enumerate() {
        let problem_case = ProblemCase {
            class,
            problem: Problem::States(s, other),
            number: number as u32,
        };
        if let Some(found) = case_defect(alloc, &mut sums, lts, problem_case, case)? {
            return Ok(found.refusal_of(problem_case.number));
        }
    }
    Ok(Verdict::Accepted)
}

// Whether there are as many cases as a problem of two states has, and there is one.
fn has_all_cases(lts: &Lts, class: Class, cases: &[Case]) -> bool
    ensures exact { (s other : ℕ) → IsTrue result ↔ HasAllCases lts.now class (problem.States s other) (map case_tree cases.now) }
    ensures few { IsTrue result → length cases.now ≤ 512 }
{
    !cases.is_empty() && cases.len() == case_count(lts, class)
}

// How many cases a problem of two states has.
fn case_count(lts: &Lts, class: Class) -> usize
    ensures value { (s other : ℕ) → result ≡ cases_of lts.now class (problem.States s other) }
    ensures few { result ≤ 512 }
{
    if class.nonbranching {
        2 * lts.labels() as usize
    } else {
        2
    }
}

// Whether some set of states that has the initial state, and that no arc leaves, is without the state.
fn is_shut_out(alloc: Global, lts: &Lts, s: u32) -> Result<bool, NoMemory>
    requires state { s < states lts.now }
    requires in_range { IsInRange lts.now }
    ensures { IfOk result (λ b. IsTrue b ↔ ((inside : ℕ → Bool) × IsClosedWithout lts.now s inside)) }
{
    let steps = reach(alloc, lts)?;
    if s == lts.initial() {
        return Ok(false);
    }
    Ok(steps[s as usize].is_none())
}

// Whether the label leads from the state to two different states.
fn is_fork(arcs: &[Arc], s: u32, t: u32, first: u32, second: u32) -> bool
    requires { AllPairs IsArcBefore arcs.now }
    ensures { IsTrue result ↔ (Contains arcs.now (arc s t first) × Contains arcs.now (arc s t second) × (first ≢ second)) }
{
    first != second && has_arc(arcs, &arc_of(s, t, first)) && has_arc(arcs, &arc_of(s, t, second))
}

// The arc from a state to a state.
fn arc_of(from: u32, label: u32, to: u32) -> Arc
    ensures { result ≡ arc from label to }
{
    Arc { from, label, to }
}

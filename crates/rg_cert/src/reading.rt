//! The certificate that a text spells.
ghost use Rattle.std.specs.Prelude.{◌≡◌, ◌≢◌, ◌⊎◌, ◌≤◌, ℕ, List, [], ◌∷◌, ◌++◌, length, map, IfOk, IfErr, IfSome, IfNone, OnOk, codes};
ghost use Rattle.rg_text.specs.Limits.{most_bytes};
ghost use Rattle.rg_theory.specs.declared.Class.{Class};
ghost use Rattle.rg_theory.specs.ClassWords.{NamesClass};
ghost use Rattle.rg_cert_data.specs.Trees.{nodes_of};
ghost use Rattle.rg_cert_data.specs.Certificates.{claim_of, IsCertificateOf};
ghost use Rattle.rg_cert.specs.Text.{heading, spaced};
ghost use Rattle.rg_cert.specs.Spells.{Spells};
ghost use Rattle.rg_cert.specs.Lines.{Position.at_heading, Position.at_class, Position.at_reason};
ghost use Rattle.rg_cert.specs.Faults.{BreaksAt, FaultFrom, FirstFault};
ghost use Rattle.rg_cert.specs.Drafts.{IsClassIn, IsHeadOf, HasCases, AreCasesOf, after_head, head_fields, IsHeadLine};
ghost use Rattle.rg_cert.specs.View.{version_in, head_in, reason_head, reason_cases};
ghost use Rattle.rg_cert.specs.declared.fault.CertFault.TheVariants as fault;

use crate::decode::head_of;
use crate::draft::{Draft, Head};
use crate::fault::CertFault;
use crate::good_line::good_line;
use crate::lines::first_line;
use crate::position::Position;
use crate::version::Version;
use rg_cert_data::{Case, Certificate, Reason};
use rg_lts::Lts;
use rg_theory::Class;
use std::alloc::Global;
use std::str;

/// Returns the certificate that the bytes spell for the system. The class may be named by any text that `Class::read`
/// takes. Errors: the first fault, as `CertFault` says, or want of memory.
pub fn read(alloc: Global, bytes: &[u8], lts: &Lts) -> Result<Certificate, CertFault>
    requires { length bytes.now ≤ most_bytes }
    ensures spelled { IfOk result (λ cert. Spells bytes.now lts.now (claim_of cert)) }
    ensures in_range { IfOk result (λ cert. IsCertificateOf lts.now cert) }
    ensures fault { IfErr result (λ e. e ≢ fault.NoMemory → FirstFault bytes.now lts.now e) }
{
    lts.is_well_formed();
    let (version, rest) = after_heading(bytes)?;
    let (class, rest) = class_line(version, rest)?;
    let (head, rest) = head_line(alloc, version, rest, lts)?;
    let cases = cases(alloc, version, rest, head, lts)?;
    Ok(Certificate {
        class,
        reason: reason_of(head, cases),
    })
}

// The version that the first line names, and what follows.
fn after_heading(text: &[u8]) -> Result<(Version, &[u8]), CertFault>
    ensures ok { IfOk result (λ r. text.entry.now ≡ spaced (heading (version_in r.0)) ++ 10 ∷ r.1.now) }
    ensures err { IfErr result (λ e. (e ≡ fault.Expected 1) × BreaksAt at_heading text.entry.now) }
{
    if let Some(rest) = text.strip_prefix(b"certificate 1\n") {
        return Ok((Version::One, rest));
    }
    match text.strip_prefix(b"certificate 2\n") {
        Some(rest) => Ok((Version::Two, rest)),
        None => Err(CertFault::Expected(1)),
    }
}

// The class of the second line, which a text of the version may have, and what follows.
fn class_line(version: Version, text: &[u8]) -> Result<(Class, &[u8]), CertFault>
    ensures ok { IfOk result (λ r. (name : List ℕ) × NamesClass name r.0 × IsClassIn (version_in version) r.0 × (text.entry.now ≡ (codes "class " ++ name) ++ 10 ∷ r.1.now)) }
    ensures err { IfErr result (λ e. (e ≡ fault.Expected 2) × BreaksAt (at_class (version_in version)) text.entry.now) }
{
    match first_line(text) {
        Some((line, rest)) => match class_in(line) {
            Some(class) => {
                if !version.has(class) {
                    return Err(CertFault::Expected(2));
                }
                Ok((class, rest))
            }
            None => Err(CertFault::Expected(2)),
        },
        None => Err(CertFault::Expected(2)),
    }
}

// The class that a line gives.
fn class_in(line: &[u8]) -> Option<Class>
    ensures some { IfSome result (λ class. (name : List ℕ) × NamesClass name class × (line.now ≡ codes "class " ++ name)) }
    ensures none { IfNone result ((name : List ℕ) (class : Class) → NamesClass name class → line.now ≢ codes "class " ++ name) }
{
    match line.strip_prefix(b"class ") {
        Some(name) => class_of(name),
        None => None,
    }
}

// The class that bytes name.
fn class_of(name: &[u8]) -> Option<Class>
    ensures some { IfSome result (NamesClass name.now) }
    ensures none { IfNone result ((class : Class) → ¬ NamesClass name.now class) }
{
    match str::from_utf8(name) {
        Ok(text) => match Class::read(text) {
            Ok(class) => Some(class),
            Err(_) => None,
        },
        Err(_) => None,
    }
}

// The head of the third line, and what follows.
fn head_line<'a>(
    alloc: Global,
    version: Version,
    text: &'a [u8],
    lts: &Lts,
) -> Result<(Head, &'a [u8]), CertFault>
    ensures ok { IfOk result (λ r. IsHeadLine lts.now text.entry.now (head_in r.0) r.1.now) }
    ensures err { IfErr result (λ e. e ≢ fault.NoMemory → FaultFrom lts.now (at_reason (version_in version)) text.entry.now 3 e) }
{
    let line = good_line(alloc, text, 3, Position::Reason(version), lts)?;
    Ok((head_of(line.form, &line.texts, lts), line.rest))
}

// The cases that follow a head, from the fourth line on.
fn cases(
    alloc: Global,
    version: Version,
    text: &[u8],
    head: Head,
    lts: &Lts,
) -> Result<Vec<Case>, CertFault>
    requires { length text.now ≤ most_bytes }
    ensures ok { IfOk result (λ cases. AreCasesOf lts.now (version_in version) (head_in head) text.now (map nodes_of cases.items)) }
    ensures err { IfErr result (λ e. e ≢ fault.NoMemory → FaultFrom lts.now (after_head (version_in version) (head_in head)) text.now 4 e) }
{
    let mut draft = Draft::new(alloc);
    let mut position = head.after(version);
    let mut rest = text;
    let mut number = 4;
    'lines: while position != Position::End {
        let line = good_line(alloc, rest, number, position, lts)?;
        draft.take(alloc, position, line.form, &line.texts, lts)?;
        position = line.to;
        rest = line.rest;
        number += 1;
    }
    if !rest.is_empty() {
        return Err(CertFault::Expected(number));
    }
    Ok(draft.cases)
}

// The reason with a head and cases.
fn reason_of(head: Head, mut cases: Vec<Case>) -> Reason
    requires { HasCases (head_in head) (map nodes_of cases.items) }
    ensures head { reason_head result ≡ head_in head }
    ensures cases { reason_cases result ≡ map nodes_of cases.items }
{
    match head {
        Head::Unreachable(s) => Reason::Unreachable(s),
        Head::Fork(s, t, first, second) => Reason::Fork(s, t, first, second),
        Head::Event(s, t) => Reason::Event(s, t, cases.pop().unwrap()),
        Head::States(s, other) => Reason::States(s, other, cases),
    }
}

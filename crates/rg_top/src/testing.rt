//! The answer to a request for a self test.
ghost use Rattle.std.specs.Prelude.{◌≡◌, length, IfOk, IsErrOf};
ghost use Rattle.rg_theory.specs.ClassWords.{HasNumbersInRange};
ghost use Rattle.rg_families.specs.Families.{IsFamilyNumber};
ghost use Rattle.rg_cert_meaning.specs.Refutes.{Accepts};
ghost use Rattle.rg_cert_data.specs.Certificates.{reason_of, IsCertificateOf};
ghost use Rattle.rg_separate.specs.View.{shown_of};
ghost use Rattle.rg_cert_data.specs.declared.wide_at.WideAt.{WideAt};
ghost use Rattle.rg_synth.specs.Answer.{IsSolvingNet};
ghost use Rattle.rg_commands.specs.Requests.{IsTestNumber};
ghost use Rattle.rg_messages.specs.CheckedTexts.{yes_line};
ghost use Rattle.rg_messages.specs.TrialTexts.{solved_line, unsolvable_line};
ghost use Rattle.rg_top.specs.SelfTest.{trial, HasLine, Passes, SelfTestEnds};
ghost use Rattle.rg_top.specs.End.{says_yes, shows_term};
ghost use Rattle.rg_top.specs.Requests.{end_of};
ghost use Rattle.rg_top.specs.Terms.{of_net};
ghost use Rattle.rg_top.specs.declared.testing.TrialStop.TheVariants as stop;

use crate::answer::Answer;
use rg_cert_data::{Certificate, WideAt};
use rg_families::{Kind, generate};
use rg_lts::Lts;
use rg_memory::NoMemory;
use rg_messages::{WideCause, solved_text, unsolvable_text, yes_text};
use rg_net::Net;
use rg_net_verdict::{CheckStop, NetVerdict, check_net, solving_net_gets_yes};
use rg_ports::Gate;
use rg_synth::{Answer as Outcome, synthesize};
use rg_theory::{ALL_NETS, Class};
use rg_verify::{Verdict, one_verdict, verify};
use std::alloc::{AllocError, Global};
use std::thread::Threads;

// The class in which locks are solved.
const PURE_PLAIN_SAFE: Class = Class {
    pure: true,
    plain: true,
    bound: Some(1),
    ..ALL_NETS
};

// The most users of a lock.
const MOST_USERS: u32 = 2;

// How many jobs do the work.
const JOBS: u8 = 1;

// Why a trial has no line.
enum TrialStop {
    TooWide(WideAt),
    NoMemory,
}

impl From<NoMemory> for TrialStop {
    ghost from_gives = { λ _ e. e ≡ stop.NoMemory };

    fn from(_: NoMemory) -> TrialStop {
        TrialStop::NoMemory
    }
}

impl From<AllocError> for TrialStop {
    ghost from_gives = { λ _ e. e ≡ stop.NoMemory };

    fn from(_: AllocError) -> TrialStop {
        TrialStop::NoMemory
    }
}

// The lines of the three trials, or the number that passes in the first that has no line.
pub(crate) fn self_test_answer<R: Threads + Sync, G: Gate + Sync>(
    rt: &R,
    alloc: Global,
    n: u32,
    gate: &G,
) -> Result<Answer, NoMemory>
    requires number { IsTestNumber n }
    ensures { IfOk result (λ a. SelfTestEnds n (end_of a)) }
{
    match three_lines(rt, alloc, n, gate) {
        Ok(lines) => Ok(Answer::Yes(lines)),
        Err(TrialStop::TooWide(at)) => Ok(Answer::TooWide(WideCause::Synthesis(at))),
        Err(TrialStop::NoMemory) => Err(NoMemory),
    }
}

// The lines of the three trials.
fn three_lines<R: Threads + Sync, G: Gate + Sync>(
    rt: &R,
    alloc: Global,
    n: u32,
    gate: &G,
) -> Result<Vec<u8>, TrialStop>
    requires { IsTestNumber n }
    ensures lines { IfOk result (λ text. SelfTestEnds n (says_yes text.items)) }
    ensures passes { (at : WideAt) → IsErrOf result (stop.TooWide at) → SelfTestEnds n (shows_term (of_net (shown_of at))) }
{
    let users = n.min(MOST_USERS);
    let mut text = trial_line(rt, alloc, Kind::Grid, n, ALL_NETS, gate)?;
    let doubling = trial_line(rt, alloc, Kind::Doubling, n, ALL_NETS, gate)?;
    text.extend_from_slice(&doubling)?;
    let lock = trial_line(rt, alloc, Kind::Lock, users, PURE_PLAIN_SAFE, gate)?;
    text.extend_from_slice(&lock)?;
    Ok(text)
}

// The line of a trial: what `check` says of the net that is found, or `verify` of the certificate.
fn trial_line<R: Threads + Sync, G: Gate + Sync>(
    rt: &R,
    alloc: Global,
    kind: Kind,
    n: u32,
    class: Class,
    gate: &G,
) -> Result<Vec<u8>, TrialStop>
    requires number { IsFamilyNumber kind n }
    requires bound { HasNumbersInRange class }
    ensures line { IfOk result (λ line. HasLine (trial kind n class) line.items) }
    ensures passes { (at : WideAt) → IsErrOf result (stop.TooWide at) → Passes (trial kind n class) (shown_of at) }
{
    let lts = generate(alloc, kind, n)?;
    match synthesize(rt, alloc, &lts, class, JOBS, gate)? {
        Outcome::Net(net) => Ok(net_line(alloc, kind, n, &lts, class, &net)?),
        Outcome::Unsolvable(cert) => Ok(certificate_line(alloc, kind, n, &lts, &cert)?),
        Outcome::TooWide(at) => Err(TrialStop::TooWide(at)),
    }
}

// The line of a net, with what the judge of nets says of it.
fn net_line(
    alloc: Global,
    kind: Kind,
    n: u32,
    lts: &Lts,
    class: Class,
    net: &Net,
) -> Result<Vec<u8>, NoMemory>
    requires { IsSolvingNet lts.now class net.now }
    ensures { IfOk result (λ line. line.items ≡ solved_line kind n lts.now (length net.now.places) yes_line) }
{
    lts.is_well_formed();
    solving_net_gets_yes();
    match check_net(alloc, lts, net, class) {
        Ok(NetVerdict::Yes) => {
            let verdict = yes_text(alloc)?;
            let places = net.places().len();
            Ok(solved_text(alloc, kind, n, lts, places, &verdict)?)
        }
        Ok(NetVerdict::No(_)) => unreachable!(),
        Err(CheckStop::Wide(_)) => unreachable!(),
        Err(CheckStop::NoMemory) => Err(NoMemory),
    }
}

// The line of a certificate, once it is accepted.
fn certificate_line(
    alloc: Global,
    kind: Kind,
    n: u32,
    lts: &Lts,
    cert: &Certificate,
) -> Result<Vec<u8>, NoMemory>
    requires in_range { IsCertificateOf lts.now cert.now }
    requires holds { Accepts lts.now cert.now.class (reason_of cert.now.reason) }
    ensures { IfOk result (λ line. line.items ≡ unsolvable_line kind n lts.now (reason_of cert.now.reason)) }
{
    one_verdict();
    match verify(alloc, lts, cert)? {
        Verdict::Accepted => Ok(unsolvable_text(alloc, kind, n, lts, &cert.reason)?),
        Verdict::Refused { .. } => unreachable!(),
    }
}

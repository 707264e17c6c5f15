//! The answer to a request for the factors of a system.
ghost use Rattle.std.specs.Prelude.{◌≡◌, ◌≤◌, ◌++◌, ℕ, List, map, Some, IfOk, IfSome};
ghost use Rattle.rg_theory.specs.ClassWords.{HasNumbersInRange};
ghost use Rattle.rg_lts.specs.WellFormed.{IsWellFormed};
ghost use Rattle.rg_cert_data.specs.Certificates.{claim_of, IsCertificateOf};
ghost use Rattle.rg_cert.specs.Text.{cert_text};
ghost use Rattle.rg_messages.specs.FactorTexts.{unsolvable_factor_line};
ghost use Rattle.rg_factor.specs.View.{shown_factor};
ghost use Rattle.rg_synth.specs.Answer.{IsOpen};
ghost use Rattle.rg_top.specs.Factor.{AreFactorsOf, FactorEnds};
ghost use Rattle.rg_top.specs.Requests.{end_of};

use crate::answer::Answer;
use crate::factor_nets::{FactorsAnswer, synthesize_factors};
use rg_cert::print;
use rg_cert_data::Certificate;
use rg_checks::first_flaw;
use rg_factor::{Factor, Factoring, factor};
use rg_lts::Lts;
use rg_memory::NoMemory;
use rg_messages::{
    WideCause, factors_text, flaw_text, one_block_text, sizes_text, unsolvable_factor_text,
};
use rg_netfile::print_net;
use rg_ports::Gate;
use rg_theory::Class;
use std::alloc::Global;
use std::thread::Threads;

// The factors of the system, or a net of the class for them side by side.
pub(crate) fn factor_answer<R: Threads + Sync, G: Gate + Sync>(
    rt: &R,
    alloc: Global,
    class: Option<Class>,
    lts: &Lts,
    jobs: u8,
    gate: &G,
) -> Result<Answer, NoMemory>
    requires numbers { IfSome class HasNumbersInRange }
    requires some { 1 ≤ jobs }
    ensures { IfOk result (λ a. FactorEnds lts.now class (end_of a)) }
{
    lts.is_well_formed();
    match first_flaw(alloc, lts)? {
        Some(flaw) => {
            let text = flaw_text(alloc, lts, flaw)?;
            Ok(Answer::No(text))
        }
        None => open_answer(rt, alloc, class, lts, jobs, gate),
    }
}

// The same of a flawless system.
fn open_answer<R: Threads + Sync, G: Gate + Sync>(
    rt: &R,
    alloc: Global,
    class: Option<Class>,
    lts: &Lts,
    jobs: u8,
    gate: &G,
) -> Result<Answer, NoMemory>
    requires formed { IsWellFormed lts.now }
    requires is_open { IsOpen lts.now }
    requires numbers { IfSome class HasNumbersInRange }
    requires some { 1 ≤ jobs }
    ensures { IfOk result (λ a. FactorEnds lts.now class (end_of a)) }
{
    match factor(alloc, lts)? {
        Factoring::OneBlock(squares) => {
            let text = one_block_text(alloc, lts, &squares)?;
            Ok(Answer::No(text))
        }
        Factoring::Fewer(sizes) => {
            let text = sizes_text(alloc, lts, &sizes)?;
            Ok(Answer::No(text))
        }
        Factoring::Factors { factors, map } => match class {
            None => {
                let text = factors_text(alloc, lts, &factors, &map)?;
                Ok(Answer::Yes(text))
            }
            Some(class) => nets_answer(rt, alloc, class, lts, &factors, jobs, gate),
        },
    }
}

// The net for the factors side by side, or why the first factor without one has none.
fn nets_answer<R: Threads + Sync, G: Gate + Sync>(
    rt: &R,
    alloc: Global,
    class: Class,
    lts: &Lts,
    factors: &[Factor],
    jobs: u8,
    gate: &G,
) -> Result<Answer, NoMemory>
    requires formed { IsWellFormed lts.now }
    requires factors { (tuples : List (List ℕ)) × AreFactorsOf lts.now (map shown_factor factors.now) tuples }
    requires numbers { HasNumbersInRange class }
    requires some { 1 ≤ jobs }
    ensures { IfOk result (λ a. FactorEnds lts.now (Some class) (end_of a)) }
{
    match synthesize_factors(rt, alloc, class, lts, factors, jobs, gate)? {
        FactorsAnswer::Net(net) => {
            let text = print_net(alloc, &net, lts)?;
            Ok(Answer::Yes(text))
        }
        FactorsAnswer::Unsolvable(i, certificate) => {
            let text = refusal_text(alloc, &factors[i as usize].lts, i, &certificate)?;
            Ok(Answer::No(text))
        }
        FactorsAnswer::TooWide(i, at) => Ok(Answer::TooWide(WideCause::Factor(i, at))),
    }
}

// The line that says that the factor has no net, and the certificate over its names.
fn refusal_text(
    alloc: Global,
    factor: &Lts,
    i: u32,
    certificate: &Certificate,
) -> Result<Vec<u8>, NoMemory>
    requires { IsCertificateOf factor.now certificate.now }
    ensures { IfOk result (λ text. text.items ≡ unsolvable_factor_line i ++ cert_text (claim_of certificate.now) factor.now) }
{
    let mut text = unsolvable_factor_text(alloc, i)?;
    let certificate = print(alloc, certificate, factor)?;
    text.extend_from_slice(&certificate)?;
    Ok(text)
}

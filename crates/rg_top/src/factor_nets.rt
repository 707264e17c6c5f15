//! Nets of a class for the factors of a system, side by side.
//!
//! A product of systems has a net of the class exactly where each factor has one: nets of the factors side by side
//! solve it, and a net of it, restricted to the labels of a factor, solves the factor.
ghost use Rattle.std.specs.Prelude.{ℕ, ◌≤◌, List, map, IfOk};
ghost use Rattle.rg_theory.specs.System.{IsAllReachable};
ghost use Rattle.rg_theory.specs.ClassWords.{HasNumbersInRange};
ghost use Rattle.rg_product.specs.Factoring.{IsFactoring, Factoring.factors as of_factors};
ghost use Rattle.rg_factor.specs.View.{shown_factor};
ghost use Rattle.rg_top.specs.FactorsAnswer.{IfNet, IfUnsolvable, IfTooWide, IsNetBeside, IsCertificateOfFactor, IsTermOfFactor};

use rg_cert_data::{Certificate, WideAt};
use rg_factor::{Factor, side_by_side};
use rg_lts::Lts;
use rg_memory::NoMemory;
use rg_net::Net;
use rg_ports::Gate;
use rg_synth::{Answer, synthesize};
use rg_theory::Class;
use std::alloc::Global;
use std::thread::Threads;

/// The answer for the factors of a system and a class.
#[derive(Drop)]
pub(crate) enum FactorsAnswer {
    /// The nets of all factors side by side: a net of the class whose reachability graph is the system.
    Net(Net),
    /// The first factor whose answer is no net, by its number, and why no net of the class solves it, nor the system.
    Unsolvable(u32, Certificate),
    /// The first factor whose answer is no net, by its number, and the number out of range in the work on it.
    TooWide(u32, WideAt),
}

/// Returns a net of the class for a system that has these factors: the nets of all factors side by side. The factors
/// are taken in order, and the first one whose answer is no net decides: then no net of the class solves the system,
/// or a number of the work on that factor is out of range.
///
/// Each answer of a factor is the one answer for it and the class, for any number of jobs and any gate. Returns
/// `NoMemory` if memory runs out.
pub(crate) fn synthesize_factors<R: Threads + Sync, G: Gate + Sync>(
    rt: &R,
    alloc: Global,
    class: Class,
    lts: &Lts,
    factors: &[Factor],
    jobs: u8,
    gate: &G,
) -> Result<FactorsAnswer, NoMemory>
    requires reachable { IsAllReachable lts.now }
    requires factors { (tuples : List (List ℕ)) × IsFactoring lts.now (of_factors (map shown_factor factors.now) tuples) }
    requires numbers { HasNumbersInRange class }
    requires some { 1 ≤ jobs }
    ensures net { IfOk result (λ a. IfNet a (IsNetBeside class lts.now (map shown_factor factors.now))) }
    ensures unsolvable { IfOk result (λ a. IfUnsolvable a (IsCertificateOfFactor class lts.now (map shown_factor factors.now))) }
    ensures too_wide { IfOk result (λ a. IfTooWide a (IsTermOfFactor class (map shown_factor factors.now))) }
{
    lts.is_well_formed();
    let mut nets = Vec::new(alloc);
    for i in 0..factors.len() {
        match synthesize(rt, alloc, &factors[i].lts, class, jobs, gate)? {
            Answer::Net(net) => nets.push(net)?,
            Answer::Unsolvable(cert) => return Ok(FactorsAnswer::Unsolvable(i as u32, cert)),
            Answer::TooWide(at) => return Ok(FactorsAnswer::TooWide(i as u32, at)),
        }
    }
    let net = side_by_side(alloc, lts, factors, &nets)?;
    // the places are asked for because their contract says that the net's numbers are in range
    let _places = net.places();
    Ok(FactorsAnswer::Net(net))
}

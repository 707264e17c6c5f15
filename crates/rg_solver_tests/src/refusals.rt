//! The first problem that no region separates, with any number of jobs, also where some regions are known.
ghost use Rattle.std.specs.Prelude.{◌≤◌};

use rg_cert_data::{Certificate, Reason};
use rg_families::{Kind, generate};
use rg_lts::Lts;
use rg_ports::NoGate;
use rg_samples::{ABA, CHOICE, Counter, DEAD, THERE_AND_BACK, system};
use rg_separate::{Separation, find_refusal, separate};
use rg_spanning::Tree;
use rg_theory::ALL_NETS;
use rg_theory::Problem::{self, Event, States};
use std::alloc::Global;
use std::thread::Threads;

// The word a b b a a. The tokens of a region at s0 and s4 add up to twice those at s2. Label a occurs at s0 and s4,
// so no region stops it at s2.
const ABBAA: &str =
    ".type LTS .states s0[initial] s1 s2 s3 s4 s5 .labels a b .arcs s0 a s1 s1 b s2 s2 b s3 s3 a s4 s4 a s5";

// The problem that the certificate of a separation names.
fn problem_of(reason: &Reason) -> Option<Problem> {
    match reason {
        Reason::Event(s, t, _) => Some(Event(*s, *t)),
        Reason::States(s, other, _) => Some(States(*s, *other)),
        _ => None,
    }
}

// The certificate with which the separation among all nets ends.
fn certificate_of<R: Threads + Sync>(
    rt: &R,
    alloc: Global,
    lts: &Lts,
    jobs: u8,
) -> Option<Certificate>
    requires { 1 ≤ jobs }
{
    let Ok(_) = Tree::grow(alloc, lts) else {
        return None;
    };
    match separate(rt, alloc, lts, ALL_NETS, jobs, &NoGate) {
        Ok(Separation::Unsolvable(certificate)) => Some(certificate),
        _ => None,
    }
}

// Whether the problem is the refused one and so many places are found, and the search from these places on has the
// same certificate, that of the whole separation. Known places leave fewer problems to the blocks.
fn is_refused<R: Threads + Sync>(
    rt: &R,
    alloc: Global,
    lts: &Lts,
    jobs: u8,
    problem: Problem,
    places: usize,
) -> bool
    requires { 1 ≤ jobs }
{
    let Ok(_) = Tree::grow(alloc, lts) else {
        return false;
    };
    let (all, rest) = (Counter::new(), Counter::new());
    let Ok(Some((first, known))) = find_refusal(rt, alloc, lts, jobs, &all, &[]) else {
        return false;
    };
    let Ok(Some((again, found))) = find_refusal(rt, alloc, lts, jobs, &rest, &known) else {
        return false;
    };
    let Some(certificate) = certificate_of(rt, alloc, lts, jobs) else {
        return false;
    };
    problem_of(&certificate.reason) == Some(problem)
        && first == certificate
        && again == certificate
        && known.len() == places
        && found.len() >= places
        && (rest.count() < all.count()) == (places > 0)
}

// Two places are found on the way to the label that isn't stopped: one stops b at s0, and one stops a at s1.
#[test]
fn first_refused(rt: HostRuntime) {
    for (text, problem, places) in [(ABBAA, Event(2, 0), 2), (THERE_AND_BACK, States(0, 1), 0)] {
        let Some(lts) = system(rt.alloc(), text) else {
            assert!(rt; false);
            return;
        };
        for jobs in [1u8, 2, 7] {
            assert!(rt;
                is_refused(&rt, rt.alloc(), &lts, jobs, problem, places),
                "{jobs} jobs: {text}"
            );
        }
    }
}

// Whether no problem is refused, where no region is known.
fn is_none_refused<R: Threads + Sync>(rt: &R, alloc: Global, lts: &Lts, jobs: u8) -> bool
    requires { 1 ≤ jobs }
{
    let Ok(_) = Tree::grow(alloc, lts) else {
        return false;
    };
    match find_refusal(rt, alloc, lts, jobs, &NoGate, &[]) {
        Ok(refusal) => refusal.is_none(),
        Err(_) => false,
    }
}

#[test]
fn none_refused(rt: HostRuntime) {
    for text in [ABA, CHOICE, DEAD] {
        let Some(lts) = system(rt.alloc(), text) else {
            assert!(rt; false);
            return;
        };
        for jobs in [1u8, 2, 7] {
            assert!(rt;
                is_none_refused(&rt, rt.alloc(), &lts, jobs),
                "{jobs} jobs: {text}"
            );
        }
    }
}

// The same of the doublings of 127 labels.
fn is_no_doubling_refused<R: Threads + Sync>(rt: &R, alloc: Global, jobs: u8) -> bool
    requires { 1 ≤ jobs }
{
    match generate(alloc, Kind::Doubling, 127) {
        Ok(lts) => is_none_refused(rt, alloc, &lts, jobs),
        Err(_) => false,
    }
}

// Their effects are out of range before any problem is asked.
#[test]
fn none_refused_out_of_range(rt: HostRuntime) {
    for jobs in [1u8, 7] {
        assert!(rt;
            is_no_doubling_refused(&rt, rt.alloc(), jobs),
            "{jobs} jobs"
        );
    }
}

//! Whole separations, with any number of jobs.
ghost use Rattle.std.specs.Prelude.{◌≤◌};
ghost use Rattle.rg_theory.specs.ClassWords.{HasNumbersInRange};

use rg_families::{Kind, generate};
use rg_integers::Wide;
use rg_lts::Lts;
use rg_ports::NoGate;
use rg_samples::{ABA, CHOICE, CYCLE, DEAD, NONBRANCHING, SAFE, TWO_BOUNDED, system};
use rg_separate::{
    Separation, SeparationWithFirsts, Stage, WideAt, separate, separate_with_firsts,
};
use rg_spanning::Tree;
use rg_theory::{ALL_NETS, Class};
use std::alloc::Global;
use std::thread::Threads;

// With what a separation ends: how many places, a certificate, or the term out of range.
#[derive(Clone, Copy, PartialEq, Eq)]
enum End {
    Places(usize),
    Unsolvable,
    TooWide(Stage, Wide),
}

// The stage of the work, and the term.
fn wide_end(at: &WideAt) -> End {
    End::TooWide(at.stage, at.wide)
}

// With what the separation ends.
fn end_of(separation: &Separation) -> End {
    match separation {
        Separation::Places(places) => End::Places(places.len()),
        Separation::Unsolvable(_) => End::Unsolvable,
        Separation::TooWide(at) => wide_end(at),
    }
}

// The same where the first problems are given; None where there are not as many lists of them as places.
fn end_with_firsts(separation: &SeparationWithFirsts) -> Option<End> {
    match separation {
        SeparationWithFirsts::Places(places, firsts) => {
            if firsts.len() != places.len() {
                return None;
            }
            Some(End::Places(places.len()))
        }
        SeparationWithFirsts::Unsolvable(_, _) => Some(End::Unsolvable),
        SeparationWithFirsts::TooWide(at) => Some(wide_end(at)),
    }
}

// Whether both separations of the system end so, with this number of jobs.
fn ends_with<R: Threads + Sync>(
    rt: &R,
    alloc: Global,
    lts: &Lts,
    class: Class,
    jobs: u8,
    wanted: End,
) -> bool
    requires bound { HasNumbersInRange class }
    requires some { 1 ≤ jobs }
{
    let Ok(_) = Tree::grow(alloc, lts) else {
        return false;
    };
    let Ok(separation) = separate(rt, alloc, lts, class, jobs, &NoGate) else {
        return false;
    };
    let Ok(with_firsts) = separate_with_firsts(rt, alloc, lts, class, jobs, &NoGate) else {
        return false;
    };
    end_of(&separation) == wanted && end_with_firsts(&with_firsts) == Some(wanted)
}

// The same of the system that a text spells.
fn text_ends_with<R: Threads + Sync>(
    rt: &R,
    alloc: Global,
    text: &str,
    class: Class,
    jobs: u8,
    wanted: End,
) -> bool
    requires bound { HasNumbersInRange class }
    requires some { 1 ≤ jobs }
{
    match system(alloc, text) {
        Some(lts) => ends_with(rt, alloc, &lts, class, jobs, wanted),
        None => false,
    }
}

#[test]
fn places_are_counted(rt: HostRuntime) {
    for jobs in [1u8, 2, 7, 16] {
        for (text, class, end) in [
            (ABA, ALL_NETS, End::Places(3)),
            (CHOICE, ALL_NETS, End::Places(3)),
            (CHOICE, NONBRANCHING, End::Unsolvable),
            (CYCLE, SAFE, End::Unsolvable),
            (CYCLE, TWO_BOUNDED, End::Places(2)),
            (DEAD, ALL_NETS, End::Places(1)),
        ] {
            assert!(rt;
                text_ends_with(&rt, rt.alloc(), text, class, jobs, end),
                "{jobs} jobs: {text}"
            );
        }
    }
}

// The same of the doublings of 127 labels, among all nets.
fn doublings_end_with<R: Threads + Sync>(rt: &R, alloc: Global, jobs: u8, wanted: End) -> bool
    requires { 1 ≤ jobs }
{
    match generate(alloc, Kind::Doubling, 127) {
        Ok(lts) => ends_with(rt, alloc, &lts, ALL_NETS, jobs, wanted),
        Err(_) => false,
    }
}

// Each of 127 labels has twice the effect of the one before it: 2^126 of the last effects are doubled.
#[test]
fn effect_is_out_of_range(rt: HostRuntime) {
    let wide = Wide {
        a: 85070591730234615865843651857942052864,
        b: 2,
        c: 0,
        d: 0,
    };
    for jobs in [1u8, 7] {
        let end = End::TooWide(Stage::Cycle, wide);
        assert!(rt;
            doublings_end_with(&rt, rt.alloc(), jobs, end),
            "{jobs} jobs"
        );
    }
}

//! The problem that ends a search, also where some places are kept before.
ghost use Rattle.std.specs.Prelude.{◌≤◌, All, IfSome};
ghost use Rattle.rg_blocks_tests.specs.Constant.{HasDead, RegionIsConstant};

use crate::answers::{Answers, Counts, Given, Work};
use crate::places::{Places, has_dead, stopping};
use crate::rows::{are_places_of, system_with_labels};
use rg_blocks::{Progress, Search, solve_all};
use rg_lts::Lts;
use rg_marks::RegionPlace;
use rg_ports::Gate;
use rg_spanning::Tree;
use rg_theory::Problem::{self, Event};
use std::alloc::Global;
use std::sync::atomic::Ordering;
use std::thread::Threads;

// A search and what it comes to.
struct Row {
    // the answers to the problems of labels
    given: &'static [Given],
    // the two labels that each place stops that is kept before
    known: &'static [(u32, u32)],
    // the problem that ends it
    end: Option<Problem>,
    // the labels whose places are kept at the end, those that were kept before first
    labels: &'static [usize],
    // how many labels no place stops that is kept before
    left: u64,
    // how many of their problems are solved, by one job and by more
    solved: (u64, u64),
}

// Three places, a label in which a number passes, and two that are refuted.
const FIVE: [Given; 5] = [
    Given::Stops(0),
    Given::TooWide,
    Given::Stops(2),
    Given::Refuted,
    Given::Refuted,
];

// One job solves nothing after the problem that is refuted. More jobs solve the first label that is left, and then,
// if it is refuted, the same once more, else all that are left, the first one too where it has no place, but those
// that its place stops or one that their part made.
const ROWS: [Row; 13] = [
    Row {
        given: &[Given::Refuted, Given::Stops(1)],
        known: &[],
        end: Some(Event(0, 0)),
        labels: &[],
        left: 2,
        solved: (1, 2),
    },
    Row {
        given: &[
            Given::TooWide,
            Given::Stops(1),
            Given::Refuted,
            Given::Refuted,
        ],
        known: &[],
        end: Some(Event(0, 2)),
        labels: &[1],
        left: 4,
        solved: (3, 5),
    },
    // the place of label 2 is dropped for that of label 1
    Row {
        given: &[
            Given::Stops(0),
            Given::Stops(2),
            Given::Stops(3),
            Given::Refuted,
        ],
        known: &[],
        end: Some(Event(0, 3)),
        labels: &[0, 1],
        left: 4,
        solved: (3, 4),
    },
    Row {
        given: &FIVE,
        known: &[],
        end: Some(Event(0, 3)),
        labels: &[0, 2],
        left: 5,
        solved: (4, 5),
    },
    // the same problem is refuted where labels before it are stopped, or one after it
    Row {
        given: &FIVE,
        known: &[(0, 2)],
        end: Some(Event(0, 3)),
        labels: &[0],
        left: 3,
        solved: (2, 4),
    },
    Row {
        given: &FIVE,
        known: &[(1, 0)],
        end: Some(Event(0, 3)),
        labels: &[1, 2],
        left: 3,
        solved: (2, 3),
    },
    Row {
        given: &FIVE,
        known: &[(2, 2), (4, 1), (0, 0)],
        end: Some(Event(0, 3)),
        labels: &[2, 4, 0],
        left: 1,
        solved: (1, 2),
    },
    Row {
        given: &FIVE,
        known: &[(4, 4)],
        end: Some(Event(0, 3)),
        labels: &[4, 0, 2],
        left: 4,
        solved: (4, 4),
    },
    // none is refuted: all are stopped, the refuted one too, or a number passes
    Row {
        given: &[Given::Stops(1), Given::Stops(0), Given::Stops(2)],
        known: &[],
        end: None,
        labels: &[0, 2],
        left: 3,
        solved: (2, 2),
    },
    Row {
        given: &[Given::Stops(0), Given::TooWide],
        known: &[],
        end: Some(Event(0, 1)),
        labels: &[0],
        left: 2,
        solved: (2, 2),
    },
    Row {
        given: &[Given::Stops(0), Given::TooWide],
        known: &[(0, 0)],
        end: Some(Event(0, 1)),
        labels: &[0],
        left: 1,
        solved: (1, 2),
    },
    Row {
        given: &[Given::Stops(0), Given::TooWide],
        known: &[(1, 0)],
        end: None,
        labels: &[1],
        left: 0,
        solved: (0, 0),
    },
    Row {
        given: &[Given::Stops(1), Given::Refuted, Given::Stops(0)],
        known: &[],
        end: None,
        labels: &[0, 2],
        left: 3,
        solved: (2, 2),
    },
];

// A place for each two of these labels, which have no arc: it stops both.
fn places_stopping(
    alloc: Global,
    lts: &Lts,
    first: usize,
    labels: &[(u32, u32)],
) -> Option<Vec<RegionPlace>>
    requires dead { HasDead first lts.now }
    ensures { IfSome result (λ v. All (RegionIsConstant lts.now) v.items) }
{
    let mut places = Vec::new(alloc);
    for &(t, other) in labels {
        if t as usize >= first {
            return None;
        }
        let Ok(place) = stopping(alloc, lts, first, t, other) else {
            return None;
        };
        let Ok(()) = places.push(place) else {
            return None;
        };
    }
    Some(places)
}

// The problem that ends the search, and the places that are kept, where places that stop these labels are kept before.
pub(crate) fn find<R: Threads + Sync, G: Gate + Sync>(
    rt: &R,
    alloc: Global,
    answers: &Answers<'_>,
    known: &[(u32, u32)],
    jobs: u8,
    gate: &G,
) -> Option<(Option<Problem>, Vec<RegionPlace>)>
    requires { 1 ≤ jobs }
{
    let lts = answers.lts;
    let first = answers.given.len();
    if !has_dead(lts, first) {
        return None;
    }
    let Ok(_tree) = Tree::grow(alloc, lts) else {
        return None;
    };
    let kept = places_stopping(alloc, lts, first, known)?;
    let search = Search {
        alloc,
        lts,
        solving: answers,
        jobs,
        gate,
    };
    let mut progress = Progress {
        kept: Places { alloc, kept },
        workspace: Work::new(),
        proof: None,
    };
    match solve_all(rt, &search, &mut progress) {
        Ok(end) => Some((end, progress.kept.kept)),
        Err(_) => None,
    }
}

// Whether the search of the row comes to what is wanted, with this number of jobs.
fn comes_to<R: Threads + Sync>(rt: &R, alloc: Global, lts: &Lts, row: &Row, jobs: u8) -> bool
    requires { 1 ≤ jobs }
{
    let counts = Counts::new();
    let answers = Answers::new(alloc, lts, row.given, &counts);
    let Some((end, places)) = find(rt, alloc, &answers, row.known, jobs, &counts) else {
        return false;
    };
    let solved = if jobs == 1 {
        row.solved.0
    } else {
        row.solved.1
    };
    end == row.end
        && are_places_of(&places, row.labels)
        && counts.entered.load(Ordering::SeqCst) == row.left
        && counts.left.load(Ordering::SeqCst) == row.left
        && answers.solved.load(Ordering::SeqCst) == solved
}

#[test]
fn first_refuted(rt: HostRuntime) {
    for (i, row) in ROWS.iter().enumerate() {
        let Some(lts) = system_with_labels(rt.alloc(), row.given.len()) else {
            assert!(rt; false);
            return;
        };
        for jobs in [1u8, 2, 7] {
            assert!(rt;
                comes_to(&rt, rt.alloc(), &lts, row, jobs),
                "row {i}, {jobs} jobs"
            );
        }
    }
}

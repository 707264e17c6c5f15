//! What all problems come to, worked by hand, with any number of jobs.
ghost use Rattle.std.specs.Prelude.{◌≤◌};

use crate::answers::{Answers, Counts, Given};
use crate::meeting::Meeting;
use crate::refuted::find;
use rg_blocks::NoMemory;
use rg_lts::Lts;
use rg_marks::RegionPlace;
use rg_ports::Gate;
use rg_samples::system;
use rg_theory::Problem;
use std::alloc::Global;
use std::sync::atomic::Ordering;
use std::test::Fail;
use std::thread::Threads;

// The answers to the problems of labels, the one that ends the search, the labels whose places are kept, and how many
// problems are solved: by one job, by two and how many of these inside the gate, and the same by more.
type Row = (
    &'static [Given],
    Result<Option<Problem>, NoMemory>,
    &'static [usize],
    u64,
    (u64, u64),
    (u64, u64),
);

// Each is one block of less than 128 problems. More jobs solve the first label in turn, before the gate is entered,
// and then the block by parts: of four labels two jobs have two each. A part leaves what the place of the first label
// stops, or one of its own. At last those are solved that were left for a place that isn't kept. Where the first
// label is refuted, it is solved again and no other one. One job solves each inside.
const ROWS: [Row; 17] = [
    (
        &[Given::Stops(1), Given::Stops(0), Given::Stops(2)],
        Ok(None),
        &[0, 2],
        2,
        (2, 1),
        (2, 1),
    ),
    (
        &[Given::Stops(1), Given::TooWide, Given::Stops(0)],
        Ok(None),
        &[0, 2],
        2,
        (2, 1),
        (2, 1),
    ),
    (
        &[Given::Stops(1), Given::Refuted, Given::Stops(0)],
        Ok(None),
        &[0, 2],
        2,
        (2, 1),
        (2, 1),
    ),
    (
        &[Given::TooWide, Given::Stops(0)],
        Ok(None),
        &[1],
        2,
        (3, 2),
        (3, 2),
    ),
    (
        &[
            Given::TooWide,
            Given::TooWide,
            Given::Stops(0),
            Given::TooWide,
        ],
        Ok(Some(Problem::Event(0, 1))),
        &[2],
        4,
        (5, 4),
        (5, 4),
    ),
    (
        &[
            Given::TooWide,
            Given::Stops(1),
            Given::Refuted,
            Given::Refuted,
        ],
        Ok(Some(Problem::Event(0, 2))),
        &[1],
        3,
        (5, 4),
        (5, 4),
    ),
    (
        &[Given::Refuted, Given::Stops(1)],
        Ok(Some(Problem::Event(0, 0))),
        &[],
        1,
        (2, 1),
        (2, 1),
    ),
    (&[Given::NoMemory], Err(NoMemory), &[], 1, (1, 0), (1, 0)),
    (
        &[Given::Stops(0), Given::NoMemory],
        Err(NoMemory),
        &[],
        2,
        (2, 1),
        (2, 1),
    ),
    (&[Given::Stops(0)], Ok(None), &[0], 1, (1, 0), (1, 0)),
    // of two jobs the second one leaves label 3 for its place of label 2
    (
        &[
            Given::Stops(1),
            Given::Refuted,
            Given::Stops(3),
            Given::TooWide,
        ],
        Ok(None),
        &[0, 2],
        2,
        (2, 1),
        (3, 2),
    ),
    // the place of label 0 is kept before the parts begin, so that label 2 is left
    (
        &[
            Given::Stops(2),
            Given::Stops(1),
            Given::Stops(3),
            Given::Stops(3),
        ],
        Ok(None),
        &[0, 1, 3],
        3,
        (3, 2),
        (3, 2),
    ),
    // where one part does labels 2 and 3, label 3 is left for the place of label 2, which is dropped for that of
    // label 1: then label 3 is solved at last; else label 3 is solved by its part
    (
        &[
            Given::Stops(0),
            Given::Stops(2),
            Given::Stops(3),
            Given::Stops(3),
        ],
        Ok(None),
        &[0, 1, 3],
        3,
        (4, 2),
        (4, 3),
    ),
    (
        &[
            Given::Stops(0),
            Given::Stops(2),
            Given::Stops(3),
            Given::TooWide,
        ],
        Ok(Some(Problem::Event(0, 3))),
        &[0, 1],
        3,
        (4, 2),
        (4, 3),
    ),
    (
        &[
            Given::Stops(0),
            Given::Stops(2),
            Given::Stops(3),
            Given::Refuted,
        ],
        Ok(Some(Problem::Event(0, 3))),
        &[0, 1],
        3,
        (4, 2),
        (4, 3),
    ),
    (
        &[
            Given::Stops(0),
            Given::Stops(2),
            Given::Stops(3),
            Given::NoMemory,
        ],
        Err(NoMemory),
        &[],
        3,
        (4, 2),
        (4, 3),
    ),
    (
        &[
            Given::Stops(0),
            Given::Stops(3),
            Given::Stops(2),
            Given::TooWide,
        ],
        Ok(None),
        &[0, 1, 2],
        3,
        (4, 3),
        (4, 3),
    ),
];

// The system with one state, so many labels and no arc.
pub(crate) fn system_with_labels(alloc: Global, labels: usize) -> Option<Lts> {
    let mut text = String::from_str(alloc, ".type LTS .states s[initial] .labels").ok()?;
    for n in 0..labels {
        let name = format!(in alloc; " t{n}").ok()?;
        text.push_str(&name).ok()?;
    }
    system(alloc, text.as_str())
}

// Whether the places are those of these labels, in order.
pub(crate) fn are_places_of(places: &[RegionPlace], labels: &[usize]) -> bool {
    if places.len() != labels.len() {
        return false;
    }
    for (place, &t) in places.iter().zip(labels) {
        if place.place.pre.get(t).copied() != Some(1) {
            return false;
        }
    }
    true
}

// How many problems were solved, how many of them inside the gate, and how many in turn; how many workspaces were
// made for parts, and in how many workspaces a problem was solved; and how often the gate was entered and left.
#[derive(Clone, Copy)]
struct Counted {
    solved: u64,
    solved_inside: u64,
    in_turn: u64,
    made: u64,
    used: u64,
    entered: u64,
    left: u64,
}

// What is seen of a search: the problem that ends it and the places kept, unless there is no memory, and what is
// counted.
#[derive(Drop)]
struct Seen {
    found: Option<(Option<Problem>, Vec<RegionPlace>)>,
    counted: Counted,
}

impl Seen {
    // Whether this problem ends it, and the places are those of these labels; or there is no memory, where that is
    // wanted.
    fn is_wanted(&self, wanted: Result<Option<Problem>, NoMemory>, labels: &[usize]) -> bool {
        match &self.found {
            Some((end, places)) => { Ok(*end) == wanted && are_places_of(places, labels) }
            None => wanted.is_err(),
        }
    }
}

fn see_through<R: Threads + Sync, G: Gate + Sync>(
    rt: &R,
    alloc: Global,
    lts: &Lts,
    given: &[Given],
    jobs: u8,
    counts: &Counts,
    gate: &G,
) -> Seen
    requires { 1 ≤ jobs }
{
    let answers = Answers::new(alloc, lts, given, counts);
    let found = find(rt, alloc, &answers, &[], jobs, gate);
    let counted = Counted {
        solved: answers.solved.load(Ordering::SeqCst),
        solved_inside: answers.solved_inside.load(Ordering::SeqCst),
        in_turn: answers.in_turn.load(Ordering::SeqCst),
        made: answers.made.load(Ordering::SeqCst),
        used: answers.used.load(Ordering::SeqCst),
        entered: counts.entered.load(Ordering::SeqCst),
        left: counts.left.load(Ordering::SeqCst),
    };
    Seen { found, counted }
}

fn see<R: Threads + Sync>(rt: &R, alloc: Global, lts: &Lts, given: &[Given], jobs: u8) -> Seen
    requires { 1 ≤ jobs }
{
    let gate = Counts::new();
    see_through(rt, alloc, lts, given, jobs, &gate, &gate)
}

// How many workspaces are made for parts: one for each part with a label. No part begins where the first label is
// refuted or has no memory.
fn count_made(jobs: u8, given: &[Given]) -> u64 {
    if jobs == 1 || matches!(given.first(), Some(Given::Refuted | Given::NoMemory)) {
        return 0;
    }
    u64::from(jobs).min(given.len() as u64)
}

#[test]
fn rows(rt: HostRuntime) -> Result<(), Fail> {
    for (given, wanted, labels, by_one, by_two, by_more) in ROWS {
        let Some(lts) = system_with_labels(rt.alloc(), given.len()) else {
            assert!(rt; false);
            return Ok(());
        };
        for (jobs, solved) in [
            (1u8, (by_one, by_one)),
            (2, by_two),
            (3, by_more),
            (7, by_more),
            (16, by_more),
        ] {
            let seen = see(&rt, rt.alloc(), &lts, given, jobs);
            let counted = seen.counted;
            assert!(rt; seen.is_wanted(wanted, labels));
            assert_eq!(rt; counted.left, counted.entered);
            assert!(rt; wanted.is_err() || counted.entered == given.len() as u64);
            assert_eq!(rt; counted.made, count_made(jobs, given));
            assert_eq!(rt; (counted.solved, counted.solved_inside), solved);
        }
    }
    Ok(())
}

// Counts, and holds the first numbers of a block.
#[derive(Drop)]
struct Held<'a> {
    counts: &'a Counts,
    meeting: &'a Meeting,
}

impl Gate for Held<'_> {
    fn enter(&self, i: u32) {
        self.counts.enter(i);
        self.meeting.enter(i);
    }

    fn leave(&self, i: u32) {
        self.counts.leave(i);
        self.meeting.leave(i);
    }
}

// What is seen of a search where so many of the first numbers of the only block wait until the last one is entered.
// None where that fails.
fn see_held<R: Threads + Sync>(
    rt: &R,
    alloc: Global,
    lts: &Lts,
    given: &[Given],
    jobs: u8,
    first: u32,
) -> Option<Seen>
    requires { 1 ≤ jobs }
{
    let counts = Counts::new();
    let meeting = Meeting::new(alloc, lts.labels().saturating_sub(1), first).ok()?;
    let gate = Held {
        counts: &counts,
        meeting: &meeting,
    };
    let seen = see_through(rt, alloc, lts, given, jobs, &counts, &gate);
    if meeting.have_met() && meeting.passed_once() {
        return Some(seen);
    }
    None
}

// All labels wait for each other, since each has a part of its own. A part without a label makes no workspace.
#[test]
fn each_part_does_one(rt: HostRuntime) -> Result<(), Fail> {
    for (given, wanted, labels, _, _, (solved, inside)) in ROWS {
        if count_made(5, given) == 0 {
            continue;
        }
        let Some(lts) = system_with_labels(rt.alloc(), given.len()) else {
            assert!(rt; false);
            return Ok(());
        };
        let first = lts.labels().saturating_sub(1);
        let Some(seen) = see_held(&rt, rt.alloc(), &lts, given, 5, first) else {
            assert!(rt; false);
            return Ok(());
        };
        let counted = seen.counted;
        assert!(rt; seen.is_wanted(wanted, labels));
        assert_eq!(rt; (counted.solved, counted.solved_inside), (solved, inside));
        assert_eq!(rt; counted.made, u64::from(lts.labels()));
        assert_eq!(rt; counted.used.checked_sub(1), Some(inside));
    }
    Ok(())
}

// The first block has labels 0 to 127: label 127 is in it, since the place of label 0 isn't kept before, and label
// 128 is in none, since the place of label 1 is kept before the second block, which has labels 129 to 191. More jobs
// solve labels 0 and 129 in turn, and their places are kept before the parts begin, so that no part solves these
// labels, 127 and 191. Label 131 is of the first part, also of sixteen, and that part leaves it for the place of
// label 130. So labels 127, 128, 131 and 191 are never solved.
#[test]
fn blocks_of_128(rt: HostRuntime) -> Result<(), Fail> {
    let mut given = [Given::TooWide; 192];
    given[0] = Given::Stops(127);
    given[1] = Given::Stops(128);
    given[129] = Given::Stops(191);
    given[130] = Given::Stops(131);
    let Some(lts) = system_with_labels(rt.alloc(), 192) else {
        assert!(rt; false);
        return Ok(());
    };
    for (jobs, in_turn, made) in [
        (1u8, 188, 0),
        (2, 2, 2 * 2),
        (3, 2, 2 * 3),
        (7, 2, 2 * 7),
        (16, 2, 2 * 16),
    ] {
        let seen = see(&rt, rt.alloc(), &lts, &given, jobs);
        let counted = seen.counted;
        assert_eq!(rt; (counted.entered, counted.left), (191, 191));
        assert_eq!(rt; (counted.solved, counted.in_turn), (188, in_turn));
        assert_eq!(rt; (counted.made, counted.used), (made, 1 + made));
        let wanted = Ok(Some(Problem::Event(0, 2)));
        assert!(rt; seen.is_wanted(wanted, &[0, 1, 129, 130]));
    }
    Ok(())
}

//! How many numbers of a block are at work in parallel, each inside the gate while it is, and how many problems the
//! rounds of `split` have.
use crate::case::{Case, Fails};
use crate::outside::Outside;
use crate::stop::Stop;
use crate::tests::holding::Holding;
use crate::tests::lines::case_of;
use rg_ports::Gate;
use rg_samples::Counter;
use std::alloc::Global;
use std::thread::Threads;

// The word a b a: eleven problems, all in one block.
const WORD: &str = "file f\n> a b a\nstatus 0\n";

// A ring of seven labels: 42 problems of labels and 21 of states, all in one block.
const RING: &str =
    "file f\n| .type LTS .states s0[initial]\ncount 1 6 s#\n| .labels\ncount 0 6 a#\n| .arcs\ncount 0 5 s# a# s%\n| s6 a6 s0\nstatus 0\n";

// The same with a label without arcs: two factors, of which the first is the ring.
const RING_AND_LABEL: &str =
    "file f\n| .type LTS .states s0[initial]\ncount 1 6 s#\n| .labels\ncount 0 6 a#\n| x .arcs\ncount 0 5 s# a# s%\n| s6 a6 s0\nstatus 0\n";

// The first problems of the parts, where the ring's block is halved for sixteen jobs.
const OF_SIXTEEN: [u32; 16] = [0, 3, 7, 11, 15, 19, 23, 27, 31, 35, 39, 43, 47, 51, 55, 59];

// Words and files of a run, and the problems of its block that are inside at once: the first one of each part. Of the
// word's eleven problems one part has 0 to 4, and the other 5 to 10; two pairs of them are held.
const RUNS: [(&str, &str, &[u32]); 11] = [
    ("words synthesize none f\n", RING, &[0]),
    ("words synthesize none f --jobs 2\n", RING, &[0, 31]),
    ("words synthesize none f --jobs 3\n", RING, &[0, 31, 47]),
    ("words synthesize none f --jobs 4\n", RING, &[0, 15, 31, 47]),
    ("words split f --jobs 4\n", RING, &[0, 15, 31, 47]),
    (
        "words factor f --class none --jobs 2\n",
        RING_AND_LABEL,
        &[0, 31],
    ),
    ("words synthesize none f --jobs 16\n", RING, &OF_SIXTEEN),
    ("words split f --jobs 16\n", RING, &OF_SIXTEEN),
    (
        "words factor f --class none --jobs 16\n",
        RING_AND_LABEL,
        &OF_SIXTEEN,
    ),
    (
        "words synthesize none f --from words --jobs 2\n",
        WORD,
        &[0, 10],
    ),
    (
        "words synthesize none f --from words --jobs 2\n",
        WORD,
        &[4, 5],
    ),
];

// The case of these lines.
fn run_of(alloc: Global, words: &str, files: &str) -> Result<Case, Stop> {
    let mut text = String::from_str(alloc, "case run\n")?;
    text.push_str(words)?;
    text.push_str(files)?;
    case_of(alloc, &text)
}

// Whether the run has status 0, through this gate.
fn is_done<R: Threads + Sync, G: Gate + Sync>(
    rt: &R,
    alloc: Global,
    case: &Case,
    gate: &G,
) -> Result<bool, Stop> {
    let Some(words) = case.runs.first() else {
        return Ok(false);
    };
    let mut outside = Outside::new(alloc, case, &Fails::none(alloc), case.room)?;
    Ok(outside.end(rt, alloc, words, gate) == 0)
}

#[test]
fn so_many_numbers_are_at_work(rt: HostRuntime) -> Result<(), Stop> {
    for (words, files, held) in RUNS {
        let case = run_of(rt.alloc(), words, files)?;
        let gate = Holding::new(held);
        assert!(rt; is_done(&rt, rt.alloc(), &case, &gate)?, "{words}");
        assert!(rt; gate.were_alone(), "{words}");
        assert!(rt; files != WORD || gate.has_passed_once(11), "{words}");
    }
    Ok(())
}

// Six states and the labels a and b have 22 problems, and one of them is refused. With three labels there are 28, of
// which two regions of the first round separate 20. No problem of these 28 is refused, and then all of them are
// solved for the net.
#[test]
fn rounds_of_split_begin_with_known_regions(rt: HostRuntime) -> Result<(), Stop> {
    for words in [
        "words split f --from words\n",
        "words split f --from words --jobs 4\n",
    ] {
        let case = run_of(rt.alloc(), words, "file f\n> a b b a a\nstatus 0\n")?;
        let gate = Counter::new();
        assert!(rt; is_done(&rt, rt.alloc(), &case, &gate)?, "{words}");
        assert!(rt; gate.count() == 22 + 8 + 28, "{words}");
    }
    Ok(())
}

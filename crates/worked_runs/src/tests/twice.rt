//! Two runs of the same words over one shelf end alike, by the clauses of `run` and the law that there is one answer.
ghost use Rattle.std.specs.Prelude.{◌⊎◌, map, string_bytes};
ghost use Rattle.rg_top.specs.Run.{IsDecided, IsMishap, IsTheOne};

use crate::stop::Stop;
use rg_ports::{MemoryShelf, MemorySink, NoGate, Shelf, Sink};
use rg_top::{Status, answers_are_one, run};
use std::alloc::Global;
use std::thread::Threads;

// The cycle of a, a and b, its pure net, and the certificate that it has no safe one.
const CYCLE: &str = ".type LTS .states s0[initial] s1 s2 .labels a b .arcs s0 a s1 s1 a s2 s2 b s0";

const NET: &str =
    ".type PN\n.places\np0\np1\n.transitions\na\nb\n.flows\na: {p1} -> {p0}\nb: {2*p0} -> {2*p1}\n.initial_marking {2*p1}\n";

const CERTIFICATE: &str =
    "certificate 1\nclass safe\nevent s0 b\ncase\nsplit tokens s1 0\nleaf\n1 stop s2\n2 tokens s0\n2 above 0\n-1 arc s0 a s1\n1 arc s1 a s2\nleaf\n1 stop s2\n2 cap s2\n2 above 0\n1 arc s0 a s1\n-1 arc s1 a s2\nend\n";

// Runs the words twice, one run after the other, over one shelf and the same sinks. The second status is that of the
// first, but for a fault or lack of memory: the shelf's files are as before, so both runs have one answer.
fn two_ends<R: Threads + Sync, H: Shelf, O: Sink, E: Sink>(
    rt: &R,
    alloc: Global,
    words: &[String],
    shelf: &mut H,
    out: &mut O,
    err: &mut E,
) -> (Status, Status)
    ensures alike { IsDecided (map string_bytes words.now) (H.files shelf.old) → IsMishap result.0 ⊎ (IsMishap result.1 ⊎ IsTheOne result.0 result.1) }
{
    answers_are_one();
    let first = run(rt, alloc, words, shelf, out, err, &NoGate);
    let second = run(rt, alloc, words, shelf, out, err, &NoGate);
    (first, second)
}

// Whether two runs of these words over a file `f` with the cycle both end with the status, and write this text each.
fn write_twice<R: Threads + Sync>(
    rt: &R,
    alloc: Global,
    words: &[&str],
    status: u8,
    text: &str,
) -> Result<bool, Stop> {
    let mut given = Vec::new(alloc);
    for word in words {
        given.push(String::from_str(alloc, word)?)?;
    }
    let mut files = Vec::new(alloc);
    files.push((
        String::from_str(alloc, "f")?,
        Vec::from_slice(alloc, CYCLE.as_bytes())?,
    ))?;
    let mut shelf = MemoryShelf::new(files, 64, Vec::new(alloc));
    let mut out = MemorySink::new(alloc, 4096, 64, Vec::new(alloc))?;
    let mut err = MemorySink::new(alloc, 4096, 64, Vec::new(alloc))?;
    let (first, second) = two_ends(rt, alloc, &given, &mut shelf, &mut out, &mut err);
    let mut both = String::from_str(alloc, text)?;
    both.push_str(text)?;
    Ok(first.number() == status && second.number() == status && out.bytes() == both.as_bytes())
}

#[test]
fn two_runs_over_one_shelf_end_alike(rt: HostRuntime) -> Result<(), Stop> {
    for (class, status, text) in [("pure", 0, NET), ("safe", 1, CERTIFICATE)] {
        let words = ["synthesize", class, "f", "--jobs", "3"];
        assert!(rt;
            write_twice(&rt, rt.alloc(), &words, status, text)?,
            "{class}"
        );
    }
    Ok(())
}

//! The problems in the blocks of a run.
use rg_ports::{FolderShelf, StdSink};
use rg_samples::Counter;
use rg_top::run;
use std::io;
use std::thread::Threads;

/// Runs as the program `regions` does with these words, and prints one more line to standard output: the status, and
/// how many numbers of blocks the gate saw. No kept place separated such a problem when its block was formed. Those
/// are among them that aren't solved, since a place separates them that was kept or made meanwhile.
pub fn solve<R: Threads + Sync>(rt: HostRuntime, threads: &R, words: &[String]) -> io::Result<()> {
    let mut shelf = FolderShelf::new(rt);
    let mut out = StdSink::out(rt);
    let mut err = StdSink::err(rt);
    let gate = Counter::new();
    let status = run(
        threads,
        rt.alloc(),
        words,
        &mut shelf,
        &mut out,
        &mut err,
        &gate,
    );
    println!(rt;
        "status {}, {} problems in blocks",
        status.number(),
        gate.count()
    )
}

//! What the program does: it hands words, files and streams of the process to `run`, whose status is the exit status.
ghost use Rattle.std.specs.Prelude.{◌≡◌};
ghost use Rattle.std.specs.Process.{exit_status};
ghost use Rattle.rg_top.specs.Exit.{exit_number};

use crate::run_whole::run;
use crate::status::Status;
use rg_ports::{FolderShelf, NoGate, StdSink};
use std::env;
use std::io::ErrorKind;
use std::process::ExitCode;
use std::thread::Threads;

/// How the program ends.
#[derive(Drop)]
pub enum ProgramEnd {
    /// With what `run` returned.
    Ran(Status),
    /// Memory ran out before the words were there.
    NoMemory,
    /// The words can't be had for another cause, such as a word that isn't UTF-8.
    NoWords,
}

/// Returns the exit status: the number of what `run` returned, 7 if memory ran out before the words were there, 9 if
/// the words couldn't be had for another cause.
pub fn exit_code(end: &ProgramEnd) -> ExitCode
    ensures { exit_status result ≡ exit_number end.now }
{
    match end {
        ProgramEnd::Ran(status) => ExitCode::from(status.number()),
        ProgramEnd::NoMemory => ExitCode::from(7),
        ProgramEnd::NoWords => ExitCode::from(9),
    }
}

// The words after the program's name, or the end if there are none.
fn words_given(rt: &HostRuntime) -> Result<Vec<String>, ProgramEnd> {
    let args = match env::args(rt) {
        Ok(args) => args,
        Err(e) if e.kind() == ErrorKind::OutOfMemory => return Err(ProgramEnd::NoMemory),
        Err(_) => return Err(ProgramEnd::NoWords),
    };
    match args.skip(1).collect(rt.alloc()) {
        Ok(words) => Ok(words),
        Err(_) => Err(ProgramEnd::NoMemory),
    }
}

// Runs the command that the process's words name.
fn end_of_run<R: Threads + Sync>(rt: HostRuntime, threads: &R) -> ProgramEnd {
    let words = match words_given(&rt) {
        Ok(words) => words,
        Err(end) => return end,
    };
    let mut shelf = FolderShelf::new(rt);
    let mut out = StdSink::out(rt);
    let mut err = StdSink::err(rt);
    let status = run(
        threads,
        rt.alloc(),
        &words,
        &mut shelf,
        &mut out,
        &mut err,
        &NoGate,
    );
    ProgramEnd::Ran(status)
}

/// Runs the command that the process's words name, over the files of the current folder and the standard streams, and
/// returns the exit status. The threads are those of `main`'s runtime, which only `main` can hand on.
pub fn run_program<R: Threads + Sync>(rt: HostRuntime, threads: &R) -> ExitCode {
    exit_code(&end_of_run(rt, threads))
}

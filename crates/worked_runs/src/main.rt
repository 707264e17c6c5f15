//! Runs the program on cases from files, and prints which end otherwise than they say.
//!
//! The words are names of files of cases, in the form that docs/dev/cases.md gives. For each case that ends otherwise
//! a line is printed, and at the end `N cases, M differ`; a line that has none of the forms ends the program at once,
//! and is named. The status is 0 if each case ended as it says, and 1 otherwise.
#![tactic(auto)]

mod case;
mod ending;
mod faults;
mod outside;
mod piece;
mod reading;
mod stop;
#[cfg(test)]
mod tests;
mod trying;

use crate::reading::Reader;
use crate::stop::Stop;
use crate::trying::difference;
use rg_ports::{FolderShelf, read_all};
use std::alloc::Global;
use std::process::ExitCode;
use std::thread::Threads;
use std::{env, io};

// How many bytes a file of cases may have.
const MOST_BYTES: usize = 16_777_216;

// How many cases there were, and how many of them ended otherwise.
#[derive(Clone, Copy)]
struct Tally {
    cases: u64,
    differ: u64,
}

// The text of a file of cases.
fn text_of(rt: HostRuntime, alloc: Global, name: &str) -> Option<String> {
    let mut shelf = FolderShelf::new(rt);
    let bytes = read_all(alloc, &mut shelf, name, MOST_BYTES).ok()?;
    String::from_utf8(bytes).ok()
}

// Runs the case that the reader has, if it has one, and prints a line where it ends otherwise.
fn try_case<R: Threads + Sync + Print + AllocGlobal>(
    rt: &R,
    reader: &mut Reader,
    tally: &mut Tally,
) -> Result<(), Stop> {
    let Some(case) = reader.take_case()? else {
        return Ok(());
    };
    tally.cases = tally.cases.saturating_add(1);
    if let Some(difference) = difference(rt, rt.alloc(), &case)? {
        tally.differ = tally.differ.saturating_add(1);
        println!(rt; "{}: {difference}", case.name.as_str())?;
    }
    Ok(())
}

// Runs the cases of a text, and counts its lines as it goes.
fn try_cases<R: Threads + Sync + Print + AllocGlobal>(
    rt: &R,
    text: &str,
    reader: &mut Reader,
    tally: &mut Tally,
    line: &mut u64,
) -> Result<(), Stop> {
    for content in text.split('\n') {
        *line = line.saturating_add(1);
        if reader.ends_case(content) {
            try_case(rt, reader, tally)?;
        }
        reader.read(rt.alloc(), content)?;
    }
    try_case(rt, reader, tally)
}

// Runs the cases of a file's text. False where a line is none of the form, which is printed.
fn try_file<R: Threads + Sync + Print + AllocGlobal>(
    rt: &R,
    name: &str,
    text: &str,
    reader: &mut Reader,
    tally: &mut Tally,
) -> io::Result<bool> {
    let mut line = 0u64;
    match try_cases(rt, text, reader, tally, &mut line) {
        Ok(()) => Ok(true),
        Err(stop) => {
            println!(rt; "{name} line {line}: {}", stop.text())?;
            Ok(false)
        }
    }
}

fn main(rt: HostRuntime) -> io::Result<ExitCode> {
    let names = env::args(&rt)?.skip(1).collect::<Vec<String>>(rt.alloc())?;
    let mut reader = Reader::new(rt.alloc());
    let mut tally = Tally {
        cases: 0,
        differ: 0,
    };
    for name in &names {
        let Some(text) = text_of(rt, rt.alloc(), name) else {
            println!(rt; "{name}: not read")?;
            return Ok(ExitCode::from(1));
        };
        if !try_file(&rt, name, &text, &mut reader, &mut tally)? {
            return Ok(ExitCode::from(1));
        }
    }
    println!(rt; "{} cases, {} differ", tally.cases, tally.differ)?;
    Ok(ExitCode::from(if tally.differ == 0 { 0 } else { 1 }))
}

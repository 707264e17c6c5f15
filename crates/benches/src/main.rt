//! Measures parts of the program for the scripts of `bench/`.
//!
//! The first word names what is measured: `judge SYSTEM NET` the check of nets, `read FORM FILE` the reading of a
//! system, `solve WORD ..` the problems that the blocks of a run have.
#![tactic(auto)]

mod judging;
mod reading;
mod solving;

use std::{env, io};

fn main(rt: HostRuntime) -> io::Result<()> {
    let words = env::args(&rt)?.skip(1).collect::<Vec<String>>(rt.alloc())?;
    let Some((name, rest)) = words.split_first() else {
        return eprintln!(rt; "usage: benches judge|read|solve WORD ..");
    };
    match name.as_str() {
        "judge" => judging::judge(rt, rest),
        "read" => reading::read(rt, rest),
        "solve" => solving::solve(rt, &rt, rest),
        _ => eprintln!(rt; "usage: benches judge|read|solve WORD .."),
    }
}

//! The program `regions` again, with another stored run: one that writes a line to standard error and ends with
//! status 4.
#![tactic(auto)]

use rg_top::run_program;
use std::process::ExitCode;

fn main(rt: HostRuntime) -> ExitCode {
    run_program(rt, &rt)
}

//! The program `regions` again, with another stored run: one whose file is missing, which ends with status 3.
#![tactic(auto)]

use rg_top::run_program;
use std::process::ExitCode;

fn main(rt: HostRuntime) -> ExitCode {
    run_program(rt, &rt)
}

//! The program `regions`.
#![tactic(auto)]

use rg_top::run_program;
use std::process::ExitCode;

fn main(rt: HostRuntime) -> ExitCode {
    run_program(rt, &rt)
}

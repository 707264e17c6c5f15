//! The program `regions` again, with another stored run: one whose words are refused, which ends with status 2.
#![tactic(auto)]

use rg_top::run_program;
use std::process::ExitCode;

fn main(rt: HostRuntime) -> ExitCode {
    run_program(rt, &rt)
}

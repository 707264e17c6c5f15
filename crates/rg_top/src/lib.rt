//! The top call: from words and a shelf of files to the bytes of a net, a certificate, a verdict or a system.
#![tactic(auto)]

mod answer;
mod checking;
mod comparing;
mod converting;
mod examining;
mod factor_nets;
mod factoring;
mod files;
mod generating;
mod laws;
mod net_laws;
mod output;
mod program;
mod run_whole;
mod splitting;
mod status;
mod synthesizing;
mod testing;
mod verifying;

pub use laws::{
    answers_are_one, check_ends_once, convert_ends_once, examine_ends_once, factor_ends_once,
    generate_ends_once, isomorphic_ends_once, self_test_ends_once, split_ends_once,
    synthesize_ends_once, verify_ends_once, written_is_accepted,
};
pub use net_laws::written_net_gets_yes;
pub use program::{ProgramEnd, exit_code, run_program};
pub use rg_cert_data::{Stage, WideAt};
pub use rg_commands::Usage;
pub use rg_families::{Kind, generate, is_family_number};
pub use rg_memory::NoMemory;
pub use rg_messages::{Fault, FileFault, WideCause};
pub use rg_net_verdict::CheckWide;
pub use run_whole::run;
pub use status::Status;

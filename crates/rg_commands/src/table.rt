//! The commands.
ghost use Rattle.std.specs.Prelude.{◌≡◌, IfOk};
ghost use Rattle.clap.specs.Words.{app_of};
ghost use Rattle.rg_commands.specs.Table.{command_named, app_for};

use crate::command::command_of;
use std::alloc::{AllocError, Global};

// The commands.
#[derive(Clone, Copy, Debug, PartialEq, Eq)]
pub(crate) enum Command {
    Synthesize,
    Verify,
    Check,
    Convert,
    Generate,
    SelfTest,
    Factor,
    Split,
    Isomorphic,
    Examine,
}

impl Command {
    // The command of this name.
    pub(crate) fn from_name(name: &str) -> Option<Command>
        ensures { result ≡ command_named name.now }
    {
        match name {
            "synthesize" => Some(Command::Synthesize),
            "verify" => Some(Command::Verify),
            "check" => Some(Command::Check),
            "convert" => Some(Command::Convert),
            "generate" => Some(Command::Generate),
            "selftest" => Some(Command::SelfTest),
            "factor" => Some(Command::Factor),
            "split" => Some(Command::Split),
            "isomorphic" => Some(Command::Isomorphic),
            "examine" => Some(Command::Examine),
            _ => None,
        }
    }

    // Its `clap` command: its name, the words that it must have, in order, its options and its flags.
    pub(crate) fn app<'a>(self, alloc: Global) -> Result<clap::Command<'a>, AllocError>
        ensures { IfOk result (λ c. app_of c ≡ app_for self) }
    {
        match self {
            Command::Synthesize => command_of(
                alloc,
                "synthesize",
                &["CLASS", "FILE"],
                &["from", "jobs"],
                &[],
            ),
            Command::Verify => command_of(alloc, "verify", &["FILE", "CERT"], &["from"], &[]),
            Command::Check => command_of(alloc, "check", &["CLASS", "FILE", "NET"], &["from"], &[]),
            Command::Convert => command_of(alloc, "convert", &["FORM", "FILE"], &["from"], &[]),
            Command::Generate => command_of(alloc, "generate", &["KIND", "N"], &[], &[]),
            Command::SelfTest => command_of(alloc, "selftest", &["N"], &[], &[]),
            Command::Factor => {
                command_of(alloc, "factor", &["FILE"], &["from", "class", "jobs"], &[])
            }
            Command::Split => command_of(alloc, "split", &["FILE"], &["from", "jobs"], &["system"]),
            Command::Isomorphic => command_of(
                alloc,
                "isomorphic",
                &["FILE", "FILE2"],
                &["from", "from2"],
                &[],
            ),
            Command::Examine => command_of(alloc, "examine", &["FILE"], &["from"], &["json"]),
        }
    }
}

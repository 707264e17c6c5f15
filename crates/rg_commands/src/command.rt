//! Simple commands of `clap`.
ghost use Rattle.std.specs.Prelude.{◌≡◌, map, fold, false, IfOk};
ghost use Rattle.clap.specs.Words.{app_of, rule_of};
ghost use Rattle.rg_commands.specs.Command.{positional, long_option, long_flag, with_word, with_option, with_flag, command_app};

use clap::{Arg, ArgAction, Command};
use std::alloc::{AllocError, Global};

// A word that must be there.
fn positional<'a>(alloc: Global, id: &'a str) -> Arg<'a>
    ensures rule { rule_of result ≡ positional id.entry.now }
    ensures local { result.global ≡ false }
{
    Arg::new(alloc, id).required(true).action(ArgAction::Set)
}

// An option by its long name, with one value.
fn long_option<'a>(alloc: Global, id: &'a str) -> Arg<'a>
    ensures rule { rule_of result ≡ long_option id.entry.now }
    ensures local { result.global ≡ false }
{
    Arg::new(alloc, id).long(id).action(ArgAction::Set)
}

// A flag by its long name, with no value.
fn long_flag<'a>(alloc: Global, id: &'a str) -> Arg<'a>
    ensures rule { rule_of result ≡ long_flag id.entry.now }
    ensures local { result.global ≡ false }
{
    Arg::new(alloc, id).long(id).action(ArgAction::SetTrue)
}

// The command with these words besides.
fn with_words<'a>(
    alloc: Global,
    command: Command<'a>,
    ids: &'a [&'a str],
) -> Result<Command<'a>, AllocError>
    ensures { IfOk result (λ c. app_of c ≡ fold with_word (app_of command.entry) (map (λ s. s.now) ids.entry.now)) }
{
    let mut command = command;
    for id in ids {
        command = command.arg(positional(alloc, id))?;
    }
    Ok(command)
}

// The command with these options besides.
fn with_options<'a>(
    alloc: Global,
    command: Command<'a>,
    ids: &'a [&'a str],
) -> Result<Command<'a>, AllocError>
    ensures { IfOk result (λ c. app_of c ≡ fold with_option (app_of command.entry) (map (λ s. s.now) ids.entry.now)) }
{
    let mut command = command;
    for id in ids {
        command = command.arg(long_option(alloc, id))?;
    }
    Ok(command)
}

// The command with these flags besides.
fn with_flags<'a>(
    alloc: Global,
    command: Command<'a>,
    ids: &'a [&'a str],
) -> Result<Command<'a>, AllocError>
    ensures { IfOk result (λ c. app_of c ≡ fold with_flag (app_of command.entry) (map (λ s. s.now) ids.entry.now)) }
{
    let mut command = command;
    for id in ids {
        command = command.arg(long_flag(alloc, id))?;
    }
    Ok(command)
}

// The command of this name that must have these words, in order, and may have these options, each once and with one
// value, and these flags, each once.
pub(crate) fn command_of<'a>(
    alloc: Global,
    name: &'a str,
    positionals: &'a [&'a str],
    options: &'a [&'a str],
    flags: &'a [&'a str],
) -> Result<Command<'a>, AllocError>
    ensures { IfOk result (λ c. app_of c ≡ command_app name.entry.now (map (λ s. s.now) positionals.entry.now) (map (λ s. s.now) options.entry.now) (map (λ s. s.now) flags.entry.now)) }
{
    let blank = Command::new(alloc, name);
    let worded = with_words(alloc, blank, positionals)?;
    let optioned = with_options(alloc, worded, options)?;
    with_flags(alloc, optioned, flags)
}

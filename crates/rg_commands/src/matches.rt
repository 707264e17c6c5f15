//! The command of words, and what `clap` makes of them.
ghost use Rattle.std.specs.Prelude.{◌≡◌, map, string_bytes, Ok, Err, IfOk, IfErr};
ghost use Rattle.clap.specs.Words.{found_of, rows_of};
ghost use Rattle.rg_commands.specs.Says.{command_asked, values_asked, IsStopOf};

use crate::table::Command;
use crate::usage::{Usage, WordsStop};
use clap::ArgMatches;
use clap::error::ErrorKind;
use std::alloc::Global;

// The command that the first word names.
pub(crate) fn command_in(words: &[String]) -> Result<Command, Usage>
    ensures { result ≡ command_asked (map string_bytes words.now) }
{
    let Some(name) = words.first() else {
        return Err(Usage::NoCommand);
    };
    Command::from_name(name.as_str()).ok_or(Usage::UnknownCommand)
}

// What `clap` makes of the words of the command, of which the first is its name.
pub(crate) fn matches_of<'a>(
    alloc: Global,
    command: Command,
    words: &'a [String],
) -> Result<ArgMatches<'a>, WordsStop>
    ensures taken { IfOk result (λ m. values_asked command (map string_bytes words.entry.now) ≡ Ok (rows_of (found_of m))) }
    ensures refused { IfErr result (IsStopOf (λ usage. values_asked command (map string_bytes words.entry.now) ≡ Err usage)) }
{
    let app = command.app(alloc)?;
    match app.try_get_matches_from(words) {
        Ok(matches) => Ok(matches),
        Err(e) => match e.kind() {
            ErrorKind::OutOfMemory => Err(WordsStop::NoMemory),
            _ => Err(WordsStop::Refused(Usage::Words)),
        },
    }
}

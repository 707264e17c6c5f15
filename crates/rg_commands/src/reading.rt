//! Reads the words of the program.
ghost use Rattle.std.specs.Prelude.{◌≡◌, Result, Ok, map, string_bytes, IfOk, IfErr};
ghost use Rattle.clap.specs.Words.{found_of, rows_of};
ghost use Rattle.rg_theory.specs.declared.Class.{Class};
ghost use Rattle.rg_theory.specs.declared.class_words.ClassFault.{ClassFault};
ghost use Rattle.rg_commands.specs.Values.{with_value, ClassSays};
ghost use Rattle.rg_commands.specs.Requests.{named, HasBounds};
ghost use Rattle.rg_commands.specs.Says.{command_says, class_word_in, Ask, AreRefused, IsStopOf};

use crate::checking::check_words;
use crate::comparing::isomorphic_words;
use crate::converting::convert_words;
use crate::examining::examine_words;
use crate::factoring::factor_words;
use crate::generating::generate_words;
use crate::matches::{command_in, matches_of};
use crate::request::Request;
use crate::splitting::split_words;
use crate::synthesizing::synthesize_words;
use crate::table::Command;
use crate::testing::self_test_words;
use crate::usage::{Usage, WordsStop};
use crate::verifying::verify_words;
use clap::ArgMatches;
use std::alloc::Global;

/// Returns the request of the words, or why they are refused.
///
/// Errors: `Refused` with the first reason in order, as `Usage` says; returns `NoMemory` if memory runs out.
pub fn read_words<'a>(alloc: Global, words: &'a [String]) -> Result<Request<&'a str>, WordsStop>
    ensures asks { IfOk result (λ r. Ask (map string_bytes words.entry.now) (named r)) }
    ensures bounds { IfOk result (λ r. HasBounds (named r)) }
    ensures refused { IfErr result (IsStopOf (AreRefused (map string_bytes words.entry.now))) }
{
    let command = command_in(words)?;
    let matches = matches_of(alloc, command, words)?;
    Ok(request_of(command, &matches)?)
}

// The request of a command's values, or why they are refused.
fn request_of<'a>(command: Command, matches: &ArgMatches<'a>) -> Result<Request<&'a str>, Usage>
    ensures { let rows = rows_of (found_of matches.now) in (told : Result Class ClassFault) → ClassSays (class_word_in command rows) told
        → with_value result (λ r. Ok (named r)) ≡ command_says command told rows }
{
    match command {
        Command::Synthesize => synthesize_words(matches),
        Command::Verify => verify_words(matches),
        Command::Check => check_words(matches),
        Command::Convert => convert_words(matches),
        Command::Generate => generate_words(matches),
        Command::SelfTest => self_test_words(matches),
        Command::Factor => factor_words(matches),
        Command::Split => split_words(matches),
        Command::Isomorphic => isomorphic_words(matches),
        Command::Examine => examine_words(matches),
    }
}

//! The words of `generate`.
ghost use Rattle.std.specs.Prelude.{◌≡◌, Ok};
ghost use Rattle.clap.specs.Words.{found_of, rows_of};
ghost use Rattle.rg_commands.specs.Values.{with_value, kind_in};
ghost use Rattle.rg_commands.specs.Requests.{named};
ghost use Rattle.rg_commands.specs.Says.{generate_says};

use crate::request::Request;
use crate::usage::Usage;
use crate::values::{number_of, text_of};
use clap::ArgMatches;
use rg_families::{Kind, greatest};

// What the values ask for, or why they are refused.
pub(crate) fn generate_words<'a>(matches: &ArgMatches<'a>) -> Result<Request<&'a str>, Usage>
    ensures { with_value result (λ r. Ok (named r)) ≡ generate_says (rows_of (found_of matches.now)) }
{
    let kind = kind_of(text_of(matches, "KIND")).ok_or(Usage::KindWord)?;
    let number = number_of(matches, greatest(kind))?;
    Ok(Request::Generate(kind, number))
}

// The family that a word names.
fn kind_of(word: &str) -> Option<Kind>
    ensures { result ≡ kind_in word.now }
{
    if word == "grid" {
        Some(Kind::Grid)
    } else if word == "doubling" {
        Some(Kind::Doubling)
    } else if word == "lock" {
        Some(Kind::Lock)
    } else {
        None
    }
}

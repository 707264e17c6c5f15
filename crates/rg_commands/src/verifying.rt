//! The words of `verify`.
ghost use Rattle.std.specs.Prelude.{◌≡◌, Ok};
ghost use Rattle.clap.specs.Words.{found_of, rows_of};
ghost use Rattle.rg_commands.specs.Values.{with_value};
ghost use Rattle.rg_commands.specs.Requests.{named};
ghost use Rattle.rg_commands.specs.Says.{verify_says};

use crate::forms::form_asked;
use crate::request::{Request, Work};
use crate::usage::Usage;
use crate::values::text_of;
use clap::ArgMatches;

// What the values ask for, or why they are refused.
pub(crate) fn verify_words<'a>(matches: &ArgMatches<'a>) -> Result<Request<&'a str>, Usage>
    ensures { with_value result (λ r. Ok (named r)) ≡ verify_says (rows_of (found_of matches.now)) }
{
    let form = form_asked(matches, "from")?;
    let work = Work::Verify(text_of(matches, "CERT"));
    Ok(Request::OfSystem(work, text_of(matches, "FILE"), form))
}

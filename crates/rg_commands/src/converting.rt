//! The words of `convert`.
ghost use Rattle.std.specs.Prelude.{◌≡◌, Ok};
ghost use Rattle.clap.specs.Words.{found_of, rows_of};
ghost use Rattle.rg_commands.specs.Values.{with_value};
ghost use Rattle.rg_commands.specs.Requests.{named};
ghost use Rattle.rg_commands.specs.Says.{convert_says};

use crate::forms::{form_asked, target_of};
use crate::request::{Request, Work};
use crate::usage::Usage;
use crate::values::text_of;
use clap::ArgMatches;

// What the values ask for, or why they are refused.
pub(crate) fn convert_words<'a>(matches: &ArgMatches<'a>) -> Result<Request<&'a str>, Usage>
    ensures { with_value result (λ r. Ok (named r)) ≡ convert_says (rows_of (found_of matches.now)) }
{
    let target = target_of(text_of(matches, "FORM")).ok_or(Usage::FormWord)?;
    let form = form_asked(matches, "from")?;
    let work = Work::Convert(target);
    Ok(Request::OfSystem(work, text_of(matches, "FILE"), form))
}

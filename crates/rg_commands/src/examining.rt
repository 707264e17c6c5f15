//! The words of `examine`.
ghost use Rattle.std.specs.Prelude.{◌≡◌, Ok};
ghost use Rattle.clap.specs.Words.{found_of, rows_of};
ghost use Rattle.rg_commands.specs.Values.{with_value, examine_output};
ghost use Rattle.rg_commands.specs.Requests.{named};
ghost use Rattle.rg_commands.specs.Says.{examine_says};

use crate::forms::form_asked;
use crate::request::{Request, Work};
use crate::usage::Usage;
use crate::values::{is_given, text_of};
use clap::ArgMatches;

/// How `examine` writes its report.
#[derive(Clone, Copy, Debug, PartialEq, Eq)]
pub enum ExamineOutput {
    /// As lines.
    Lines,
    /// As one line of JSON.
    Json,
}

// What the values ask for, or why they are refused.
pub(crate) fn examine_words<'a>(matches: &ArgMatches<'a>) -> Result<Request<&'a str>, Usage>
    ensures { with_value result (λ r. Ok (named r)) ≡ examine_says (rows_of (found_of matches.now)) }
{
    let form = form_asked(matches, "from")?;
    let work = Work::Examine(output_of(matches));
    Ok(Request::OfSystem(work, text_of(matches, "FILE"), form))
}

// How the report is to be written: as JSON with `--json`, as lines without it.
fn output_of(matches: &ArgMatches<'_>) -> ExamineOutput
    ensures { result ≡ examine_output (rows_of (found_of matches.now)) }
{
    if is_given(matches, "json") {
        ExamineOutput::Json
    } else {
        ExamineOutput::Lines
    }
}

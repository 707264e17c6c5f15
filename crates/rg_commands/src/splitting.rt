//! The words of `split`.
ghost use Rattle.std.specs.Prelude.{◌≡◌, Ok};
ghost use Rattle.clap.specs.Words.{found_of, rows_of};
ghost use Rattle.rg_commands.specs.Values.{with_value, split_output};
ghost use Rattle.rg_commands.specs.Requests.{named};
ghost use Rattle.rg_commands.specs.Says.{split_says};

use crate::forms::form_asked;
use crate::request::{Request, Work};
use crate::usage::Usage;
use crate::values::{is_given, jobs_of, text_of};
use clap::ArgMatches;

/// What `split` writes.
#[derive(Clone, Copy, Debug, PartialEq, Eq)]
pub enum SplitOutput {
    /// The net, each transition with the label that it replaces.
    Net,
    /// The system with its labels split.
    System,
}

// What the values ask for, or why they are refused.
pub(crate) fn split_words<'a>(matches: &ArgMatches<'a>) -> Result<Request<&'a str>, Usage>
    ensures { with_value result (λ r. Ok (named r)) ≡ split_says (rows_of (found_of matches.now)) }
{
    let form = form_asked(matches, "from")?;
    let jobs = jobs_of(matches)?;
    let work = Work::Split(output_of(matches), jobs);
    Ok(Request::OfSystem(work, text_of(matches, "FILE"), form))
}

// What is to be written: the system with `--system`, the net without it.
fn output_of(matches: &ArgMatches<'_>) -> SplitOutput
    ensures { result ≡ split_output (rows_of (found_of matches.now)) }
{
    if is_given(matches, "system") {
        SplitOutput::System
    } else {
        SplitOutput::Net
    }
}

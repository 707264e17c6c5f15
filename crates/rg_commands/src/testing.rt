//! The words of `selftest`.
ghost use Rattle.std.specs.Prelude.{◌≡◌, Ok};
ghost use Rattle.clap.specs.Words.{found_of, rows_of};
ghost use Rattle.rg_commands.specs.Values.{with_value};
ghost use Rattle.rg_commands.specs.Requests.{named};
ghost use Rattle.rg_commands.specs.Says.{selftest_says};

use crate::request::Request;
use crate::usage::Usage;
use crate::values::number_of;
use clap::ArgMatches;

/// The greatest number of a self test.
pub const MOST_SELF_TEST: u32 = 40;

// What the values ask for, or why they are refused.
pub(crate) fn self_test_words<'a>(matches: &ArgMatches<'a>) -> Result<Request<&'a str>, Usage>
    ensures { with_value result (λ r. Ok (named r)) ≡ selftest_says (rows_of (found_of matches.now)) }
{
    let number = number_of(matches, MOST_SELF_TEST)?;
    Ok(Request::SelfTest(number))
}

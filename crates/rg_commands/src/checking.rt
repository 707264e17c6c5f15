//! The words of `check`.
ghost use Rattle.std.specs.Prelude.{◌≡◌, Result, Ok, codes};
ghost use Rattle.clap.specs.Words.{found_of, rows_of};
ghost use Rattle.rg_theory.specs.declared.Class.{Class};
ghost use Rattle.rg_theory.specs.declared.class_words.ClassFault.{ClassFault};
ghost use Rattle.rg_commands.specs.Values.{with_value, text_in, ClassSays};
ghost use Rattle.rg_commands.specs.Requests.{named};
ghost use Rattle.rg_commands.specs.Says.{check_says};

use crate::forms::form_asked;
use crate::request::{Request, Work};
use crate::usage::Usage;
use crate::values::{class_of, text_of};
use clap::ArgMatches;

// What the values ask for, or why they are refused.
pub(crate) fn check_words<'a>(matches: &ArgMatches<'a>) -> Result<Request<&'a str>, Usage>
    ensures { let rows = rows_of (found_of matches.now) in (told : Result Class ClassFault) → ClassSays (text_in (codes "CLASS") rows) told
        → with_value result (λ r. Ok (named r)) ≡ check_says told rows }
{
    let class = class_of(matches, "CLASS")?;
    let form = form_asked(matches, "from")?;
    let work = Work::Check(class, text_of(matches, "NET"));
    Ok(Request::OfSystem(work, text_of(matches, "FILE"), form))
}

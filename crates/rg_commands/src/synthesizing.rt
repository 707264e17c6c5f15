//! The words of `synthesize`.
ghost use Rattle.std.specs.Prelude.{◌≡◌, Result, Ok, codes};
ghost use Rattle.clap.specs.Words.{found_of, rows_of};
ghost use Rattle.rg_theory.specs.declared.Class.{Class};
ghost use Rattle.rg_theory.specs.declared.class_words.ClassFault.{ClassFault};
ghost use Rattle.rg_commands.specs.Values.{with_value, text_in, ClassSays};
ghost use Rattle.rg_commands.specs.Requests.{named};
ghost use Rattle.rg_commands.specs.Says.{synthesize_says};

use crate::forms::form_asked;
use crate::request::{Request, Work};
use crate::usage::Usage;
use crate::values::{class_of, jobs_of, text_of};
use clap::ArgMatches;

// What the values ask for, or why they are refused.
pub(crate) fn synthesize_words<'a>(matches: &ArgMatches<'a>) -> Result<Request<&'a str>, Usage>
    ensures { let rows = rows_of (found_of matches.now) in (told : Result Class ClassFault) → ClassSays (text_in (codes "CLASS") rows) told
        → with_value result (λ r. Ok (named r)) ≡ synthesize_says told rows }
{
    let class = class_of(matches, "CLASS")?;
    let form = form_asked(matches, "from")?;
    let jobs = jobs_of(matches)?;
    let work = Work::Synthesize(class, jobs);
    Ok(Request::OfSystem(work, text_of(matches, "FILE"), form))
}

//! The words of `factor`.
ghost use Rattle.std.specs.Prelude.{◌≡◌, Result, Ok, codes};
ghost use Rattle.clap.specs.Words.{first_of, found_of, rows_of};
ghost use Rattle.rg_theory.specs.declared.Class.{Class};
ghost use Rattle.rg_theory.specs.declared.class_words.ClassFault.{ClassFault};
ghost use Rattle.rg_commands.specs.Values.{with_value, text_in, ClassSays, class_if_any};
ghost use Rattle.rg_commands.specs.Requests.{named};
ghost use Rattle.rg_commands.specs.Says.{factor_says};

use crate::forms::form_asked;
use crate::request::{Request, Work};
use crate::usage::Usage;
use crate::values::{class_of, jobs_of, option_of, text_of};
use clap::ArgMatches;
use rg_theory::Class;

// What the values ask for, or why they are refused.
pub(crate) fn factor_words<'a>(matches: &ArgMatches<'a>) -> Result<Request<&'a str>, Usage>
    ensures { let rows = rows_of (found_of matches.now) in (told : Result Class ClassFault) → ClassSays (text_in (codes "class") rows) told
        → with_value result (λ r. Ok (named r)) ≡ factor_says told rows }
{
    let class = class_if_any(matches, "class")?;
    let form = form_asked(matches, "from")?;
    let jobs = jobs_of(matches)?;
    let work = Work::Factor(class, jobs);
    Ok(Request::OfSystem(work, text_of(matches, "FILE"), form))
}

// The class that the value of an option names, where it is there.
fn class_if_any(matches: &ArgMatches<'_>, id: &str) -> Result<Option<Class>, Usage>
    ensures { let rows = rows_of (found_of matches.now) in (told : Result Class ClassFault) → ClassSays (text_in id.now rows) told
        → result ≡ class_if_any (first_of id.now rows) told }
{
    match option_of(matches, id) {
        None => Ok(None),
        Some(_) => Ok(Some(class_of(matches, id)?)),
    }
}

//! Values of words.
ghost use Rattle.std.specs.Prelude.{◌≡◌, ◌≤◌, Result, option_map, IfOk};
ghost use Rattle.clap.specs.Words.{first_of, found_of, rows_of};
ghost use Rattle.rg_theory.specs.declared.Class.{Class};
ghost use Rattle.rg_theory.specs.declared.class_words.ClassFault.{ClassFault};
ghost use Rattle.rg_theory.specs.ClassWords.{HasNumbersInRange};
ghost use Rattle.rg_commands.specs.Values.{text_in, is_given, ClassSays, class_asked, number_up_to, number_asked, jobs_asked, most_jobs};

use crate::usage::Usage;
use clap::ArgMatches;
use rg_text::are_digits;
use rg_theory::Class;

// The most jobs.
const MOST_JOBS: u32 = 16;

// The most digits of a number.
const MOST_DIGITS: usize = 9;

// The value of a word that must be there.
pub(crate) fn text_of<'a>(matches: &ArgMatches<'a>, id: &str) -> &'a str
    ensures { result.now ≡ text_in id.now (rows_of (found_of matches.now)) }
{
    matches.get_str(id).unwrap_or("")
}

// The value of an option, if it is there.
pub(crate) fn option_of<'a>(matches: &ArgMatches<'a>, id: &str) -> Option<&'a str>
    ensures { option_map (λ s. s.now) result ≡ first_of id.now (rows_of (found_of matches.now)) }
{
    matches.get_str(id)
}

// Whether a flag is there, whose value `clap` then makes `true`.
pub(crate) fn is_given(matches: &ArgMatches<'_>, id: &str) -> bool
    ensures { result ≡ is_given id.now (rows_of (found_of matches.now)) }
{
    text_of(matches, id) == "true"
}

// The class that the value of a word names.
pub(crate) fn class_of(matches: &ArgMatches<'_>, id: &str) -> Result<Class, Usage>
    ensures asked { (told : Result Class ClassFault) → ClassSays (text_in id.now (rows_of (found_of matches.now))) told → result ≡ class_asked told }
    ensures bounds { IfOk result HasNumbersInRange }
{
    match Class::read(text_of(matches, id)) {
        Ok(class) => Ok(class),
        Err(fault) => Err(Usage::ClassWord(fault)),
    }
}

// How many jobs are asked for.
pub(crate) fn jobs_of(matches: &ArgMatches<'_>) -> Result<u8, Usage>
    ensures asked { result ≡ jobs_asked (rows_of (found_of matches.now)) }
    ensures bounds { IfOk result (λ jobs. (1 ≤ jobs) × (jobs ≤ most_jobs)) }
{
    match number_up_to(option_of(matches, "jobs").unwrap_or("1"), MOST_JOBS) {
        Some(jobs) => Ok(jobs as u8),
        None => Err(Usage::JobsWord),
    }
}

// The number that is asked for, from 1 to `most`.
pub(crate) fn number_of(matches: &ArgMatches<'_>, most: u32) -> Result<u32, Usage>
    ensures asked { result ≡ number_asked most (rows_of (found_of matches.now)) }
    ensures bounds { IfOk result (λ n. (1 ≤ n) × (n ≤ most)) }
{
    number_up_to(text_of(matches, "N"), most).ok_or(Usage::NumberWord)
}

// The number that 1 to 9 digits spell, where it is from 1 to `most`.
fn number_up_to(word: &str, most: u32) -> Option<u32>
    ensures { result ≡ number_up_to most word.now }
{
    let digits = word.as_bytes();
    if digits.is_empty() || digits.len() > MOST_DIGITS || !are_digits(digits) {
        return None;
    }
    match word.parse::<u32>() {
        Ok(n) if 1 <= n && n <= most => Some(n),
        _ => None,
    }
}

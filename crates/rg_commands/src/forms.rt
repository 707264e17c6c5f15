//! Forms of systems.
ghost use Rattle.std.specs.Prelude.{◌≡◌, option_map};
ghost use Rattle.clap.specs.Words.{found_of, rows_of};
ghost use Rattle.rg_commands.specs.Values.{form_in, form_asked, target_in};

use crate::usage::Usage;
use crate::values::option_of;
use clap::ArgMatches;

/// The forms in which a system is read.
#[derive(Clone, Copy, Debug, PartialEq, Eq)]
pub enum Form {
    /// A system file in the format of APT.
    Apt,
    /// A state graph, as petrify and Genet have them.
    Graph,
    /// A word list.
    Words,
}

/// The forms in which a system is written.
#[derive(Clone, Copy, Debug, PartialEq, Eq)]
pub enum Target {
    /// A system file in the format of APT.
    Apt,
    /// A state graph, as petrify and Genet have them.
    Graph,
}

// The form to read that an option names.
pub(crate) fn form_asked(matches: &ArgMatches<'_>, id: &str) -> Result<Form, Usage>
    ensures { result ≡ form_asked id.now (rows_of (found_of matches.now)) }
{
    form_of(option_of(matches, id)).ok_or(Usage::FromWord)
}

// The form that a word names; without one that of APT.
fn form_of(word: Option<&str>) -> Option<Form>
    ensures { result ≡ form_in (option_map (λ s. s.now) word.entry) }
{
    match word {
        None | Some("apt") => Some(Form::Apt),
        Some("graph") => Some(Form::Graph),
        Some("words") => Some(Form::Words),
        Some(_) => None,
    }
}

// The form to write that a word names.
pub(crate) fn target_of(word: &str) -> Option<Target>
    ensures { result ≡ target_in word.now }
{
    match word {
        "apt" => Some(Target::Apt),
        "graph" => Some(Target::Graph),
        _ => None,
    }
}

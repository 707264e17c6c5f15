//! The reading of a system in one of three forms.
ghost use Rattle.std.specs.Prelude.{◌≤◌, length};
ghost use Rattle.rg_text.specs.Limits.{most_bytes};

use rg_apt::read_lts;
use rg_genet::read_graph;
use rg_lts::Lts;
use rg_ports::{FolderShelf, read_all};
use rg_text::MOST_BYTES;
use rg_words::read_words;
use std::alloc::Global;
use std::io;
use std::time::{Clock, Instant};

// The form of a text.
#[derive(Clone, Copy)]
enum Form {
    System,
    Graph,
    Words,
}

// The form of this name; None if there is none.
fn form_named(name: &str) -> Option<Form> {
    match name {
        "system" => Some(Form::System),
        "graph" => Some(Form::Graph),
        "words" => Some(Form::Words),
        _ => None,
    }
}

// The system that a text of this form spells; None where it is refused.
fn read_as(alloc: Global, form: Form, bytes: &[u8]) -> Option<Lts>
    requires { length bytes.now ≤ most_bytes }
{
    match form {
        Form::System => read_lts(alloc, bytes).ok(),
        Form::Graph => read_graph(alloc, bytes).ok(),
        Form::Words => read_words(alloc, bytes).ok(),
    }
}

// Reads a text, and prints how much there is and how long it took.
fn measure(
    rt: &(impl Print + Eprint + Clock + AllocGlobal),
    form: Form,
    bytes: &[u8],
) -> io::Result<()>
    requires { length bytes.now ≤ most_bytes }
{
    let start = Instant::now(rt)?;
    let lts = read_as(rt.alloc(), form, bytes);
    let spent = start.elapsed(rt)?;
    match lts {
        Some(lts) => println!(rt;
            "{} states, {} labels, {} arcs",
            lts.states(),
            lts.labels(),
            lts.arcs().len()
        )?,
        None => println!(rt; "refused")?,
    }
    eprintln!(rt; "{} nanoseconds", spent.as_nanos())
}

/// Reads the file in the form that the first word names: `system`, `graph` or `words`. How much was read goes to
/// standard output, and the time to standard error.
pub fn read(rt: HostRuntime, words: &[String]) -> io::Result<()> {
    let [name, path] = words else {
        return eprintln!(rt; "usage: benches read FORM FILE");
    };
    let Some(form) = form_named(name) else {
        return eprintln!(rt; "FORM is system, graph or words");
    };
    let mut shelf = FolderShelf::new(rt);
    match read_all(rt.alloc(), &mut shelf, path, MOST_BYTES) {
        Ok(bytes) => measure(&rt, form, &bytes),
        Err(_) => eprintln!(rt; "the file wasn't read"),
    }
}

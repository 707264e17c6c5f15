//! The faults of files, and their lines.
ghost use Rattle.std.specs.Prelude.{◌≡◌, ◌++◌, IfOk, OnOk};
ghost use Rattle.rg_messages.specs.Files.{number_after, fault_text, file_line};

use crate::fault_words::{
    graph_line, graph_words, net_place, net_words, text_place, text_words, word_line, word_words,
};
use crate::pieces::push_number;
use rg_apt::TextFault;
use rg_genet::GraphFault;
use rg_netfile::NetFault;
use rg_words::WordFault;
use std::alloc::{AllocError, Global};

/// A fault of one of the files that the words name.
#[derive(Clone, Copy, Debug, PartialEq, Eq)]
pub struct FileFault {
    /// The file's place among the file words, from 1.
    pub file: u8,
    /// What is wrong with it.
    pub fault: Fault,
}

/// What is wrong with a file.
#[derive(Clone, Copy, Debug, PartialEq, Eq)]
pub enum Fault {
    /// The shelf has no file of this name.
    Missing,
    /// It has more than 16,777,216 bytes.
    TooLong,
    /// It spells no system in the format of APT: its first fault, which is never `NoMemory`.
    Apt(TextFault),
    /// It is no state graph: its first fault, which is never `NoMemory`.
    Graph(GraphFault),
    /// It is no word list: its first fault, which is never `NoMemory`.
    Words(WordFault),
    /// It spells no net of the system: its first fault, which is never `NoMemory`.
    Net(NetFault),
}

/// Returns the line that says which of the files has which fault.
pub fn file_text(alloc: Global, fault: FileFault) -> Result<Vec<u8>, AllocError>
    ensures { IfOk result (λ text. text.items ≡ file_line fault) }
{
    let mut text = Vec::new(alloc);
    push_number(&mut text, b"file ", u64::from(fault.file))?;
    text.extend_from_slice(b": ")?;
    push_fault(&mut text, fault.fault)?;
    text.push(b'\n')?;
    Ok(text)
}

// Adds the fault of a file.
fn push_fault(text: &mut Vec<u8>, fault: Fault) -> Result<(), AllocError>
    ensures { OnOk result (text.new.items ≡ text.old.items ++ fault_text fault) }
{
    match fault {
        Fault::Missing => push_placed(text, b"missing", b"", None),
        Fault::TooLong => push_placed(text, b"too long", b"", None),
        Fault::Apt(fault) => push_placed(text, text_words(fault), b" at ", text_place(fault)),
        Fault::Graph(fault) => {
            push_placed(text, graph_words(fault), b" at line ", graph_line(fault))
        }
        Fault::Words(fault) => push_placed(text, word_words(fault), b" at line ", word_line(fault)),
        Fault::Net(fault) => push_placed(text, net_words(fault), b" at ", net_place(fault)),
    }
}

// Adds the words of a fault, and its place, if it has one, after the words that lead to it.
fn push_placed(
    text: &mut Vec<u8>,
    words: &[u8],
    lead: &[u8],
    place: Option<u32>,
) -> Result<(), AllocError>
    ensures { OnOk result (text.new.items ≡ text.old.items ++ (words.now ++ number_after lead.now place)) }
{
    text.extend_from_slice(words)?;
    match place {
        None => Ok(()),
        Some(at) => push_number(text, lead, u64::from(at)),
    }
}

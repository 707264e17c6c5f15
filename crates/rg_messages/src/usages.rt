//! The lines that refuse words.
ghost use Rattle.std.specs.Prelude.{◌≡◌, IfOk};
ghost use Rattle.rg_messages.specs.Usages.{usage_line, refused_number, class_fault_words};

use crate::pieces::push_number;
use rg_commands::Usage;
use rg_theory::ClassFault;
use std::alloc::{AllocError, Global};

/// Returns the line that says why the words are refused.
pub fn usage_text(alloc: Global, usage: Usage) -> Result<Vec<u8>, AllocError>
    ensures { IfOk result (λ text. text.items ≡ usage_line usage) }
{
    match usage {
        Usage::NoCommand => Vec::from_slice(alloc, b"usage: no command\n"),
        Usage::UnknownCommand => Vec::from_slice(alloc, b"usage: unknown command\n"),
        Usage::Words => Vec::from_slice(alloc, b"usage: words refused\n"),
        Usage::ClassWord(fault) => class_fault_text(alloc, fault),
        Usage::FormWord => Vec::from_slice(alloc, b"usage: form is apt or graph\n"),
        Usage::KindWord => { Vec::from_slice(alloc, b"usage: kind is grid, doubling or lock\n") }
        Usage::FromWord => Vec::from_slice(alloc, b"usage: --from is apt, graph or words\n"),
        Usage::JobsWord => Vec::from_slice(alloc, b"usage: --jobs is 1 to 16\n"),
        Usage::NumberWord => Vec::from_slice(alloc, b"usage: number out of range\n"),
    }
}

// Which class word is refused, and why.
fn class_fault_text(alloc: Global, fault: ClassFault) -> Result<Vec<u8>, AllocError>
    ensures { IfOk result (λ text. text.items ≡ usage_line (Usage.ClassWord fault)) }
{
    let mut text = Vec::new(alloc);
    push_number(
        &mut text,
        b"usage: class word ",
        u64::from(refused_number(fault)),
    )?;
    text.extend_from_slice(b": ")?;
    text.extend_from_slice(class_fault_words(fault))?;
    text.push(b'\n')?;
    Ok(text)
}

// The number of the refused class word.
fn refused_number(fault: ClassFault) -> u32
    ensures { result ≡ refused_number fault }
{
    match fault {
        ClassFault::UnknownWord(i) | ClassFault::BadNumber(i) | ClassFault::Repeated(i) => i,
    }
}

// Why a class word is refused.
fn class_fault_words(fault: ClassFault) -> &'static [u8]
    ensures { result.now ≡ class_fault_words fault }
{
    match fault {
        ClassFault::UnknownWord(_) => b"unknown",
        ClassFault::BadNumber(_) => b"bad number",
        ClassFault::Repeated(_) => b"repeated",
    }
}

//! What an answer writes.
ghost use Rattle.std.specs.Prelude.{IfOk};
ghost use Rattle.rg_top.specs.Requests.{end_of, IsOutputOf};

use crate::answer::Answer;
use crate::status::Status;
use rg_messages::{file_text, usage_text, wide_text};
use std::alloc::{AllocError, Global};

// The status of an answer, and what it writes: a text to out or a line to err.
#[derive(Drop)]
pub(crate) enum Output {
    Out(Status, Vec<u8>),
    Err(Status, Vec<u8>),
}

// The output of an answer.
pub(crate) fn output_of(alloc: Global, answer: Answer) -> Result<Output, AllocError>
    ensures { IfOk result (λ output. IsOutputOf (end_of answer) output) }
{
    match answer {
        Answer::Yes(text) => Ok(Output::Out(Status::Done, text)),
        Answer::No(text) => Ok(Output::Out(Status::No, text)),
        Answer::Usage(usage) => {
            let line = usage_text(alloc, usage)?;
            Ok(Output::Err(Status::Usage(usage), line))
        }
        Answer::File(fault) => {
            let line = file_text(alloc, fault)?;
            Ok(Output::Err(Status::File(fault), line))
        }
        Answer::TooWide(cause) => {
            let line = wide_text(alloc, &cause)?;
            Ok(Output::Err(Status::TooWide(cause), line))
        }
    }
}

//! The answer to a request for a report.
ghost use Rattle.std.specs.Prelude.{◌≡◌, IfOk};
ghost use Rattle.rg_report.specs.Shown.{facts_in, HasNames};
ghost use Rattle.rg_top.specs.Examine.{ExamineEnds, report_text};
ghost use Rattle.rg_top.specs.Requests.{end_of};

use crate::answer::Answer;
use rg_commands::ExamineOutput;
use rg_lts::Lts;
use rg_memory::NoMemory;
use rg_report::{Report, examine, json_text, lines_text, report_on};
use std::alloc::Global;

// The report on the system, as lines or as a line of JSON.
pub(crate) fn report_answer(
    alloc: Global,
    lts: &Lts,
    output: ExamineOutput,
) -> Result<Answer, NoMemory>
    ensures { IfOk result (λ a. ExamineEnds output lts.now (end_of a)) }
{
    let found = examine(alloc, lts)?;
    let report = report_on(alloc, lts, &found)?;
    let text = report_text(alloc, &report, output)?;
    Ok(Answer::Yes(text))
}

// The text of the report, as lines or as a line of JSON.
fn report_text(
    alloc: Global,
    report: &Report<'_>,
    output: ExamineOutput,
) -> Result<Vec<u8>, NoMemory>
    requires { HasNames (facts_in report.now) }
    ensures { IfOk result (λ text. text.items ≡ report_text output (facts_in report.now)) }
{
    match output {
        ExamineOutput::Lines => lines_text(alloc, report),
        ExamineOutput::Json => json_text(alloc, report),
    }
}

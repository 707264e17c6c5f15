//! The answer to a request for a system of a family.
ghost use Rattle.std.specs.Prelude.{IfOk};
ghost use Rattle.rg_families.specs.Families.{IsFamilyNumber};
ghost use Rattle.rg_top.specs.Generate.{GenerateEnds};
ghost use Rattle.rg_top.specs.Requests.{end_of};

use crate::answer::Answer;
use rg_apt::print_lts;
use rg_families::{Kind, generate};
use rg_memory::NoMemory;
use std::alloc::Global;

// The text of the family's system for the number.
pub(crate) fn generated_answer(alloc: Global, kind: Kind, n: u32) -> Result<Answer, NoMemory>
    requires { IsFamilyNumber kind n }
    ensures { IfOk result (λ a. GenerateEnds kind n (end_of a)) }
{
    let lts = generate(alloc, kind, n)?;
    lts.is_well_formed();
    Ok(Answer::Yes(print_lts(alloc, &lts)?))
}

//! The place of a case's point.
ghost use Rattle.std.specs.Prelude.{IfOk};
ghost use Rattle.rg_branch.specs.Answer.{IsFoundPoint, IsWholeSolution};
ghost use Rattle.rg_separate.specs.Casing.{IsCase, IsNamedSystem, forms_in};
ghost use Rattle.rg_separate.specs.Deciding.{CaseTells, CaseComesTo};

use crate::case::{CaseAnswer, wide_case};
use crate::sides::named_triples;
use rg_branch_trees::Side;
use rg_case_parts::CaseSetting;
use rg_cert_data::Stage;
use rg_fraction::{FoldStop, Fraction};
use rg_places::make_place;
use rg_rows::NamedCase;
use std::alloc::{AllocError, Global};

// The place of the point at which the branching has ended, below these splits.
pub(crate) fn place_answer(
    alloc: Global,
    c: CaseSetting<'_>,
    named: &NamedCase<'_>,
    point: &[Fraction],
    above: &[Side<u32>],
) -> Result<CaseAnswer, AllocError>
    requires case { IsCase c }
    requires system { IsNamedSystem c named.now }
    requires found { IsFoundPoint named.now.system (forms_in named.now) above.now point.now }
    requires solves { IsWholeSolution named.now.system (forms_in named.now) point.now }
    ensures tells { IfOk result (CaseTells c.entry.setting.lts.now c.entry.setting.class c.entry.problem c.entry.number) }
    ensures comes { IfOk result (CaseComesTo c.entry) }
{
    match make_place(alloc, c.setting, c.problem, point) {
        Ok(region) => Ok(CaseAnswer::Place(region)),
        Err(FoldStop::Wide(wide)) => {
            let above = named_triples(alloc, named.forms(), above)?;
            Ok(CaseAnswer::Wide(wide_case(alloc, Stage::Place, c, above, wide)))
        }
        Err(FoldStop::NoMemory) => Err(AllocError),
    }
}

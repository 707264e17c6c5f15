//! One case of a problem.
ghost use Rattle.std.specs.Prelude.{◌≡◌, ◌≤◌, length, map, take, IfOk, IfErr, IsTrue};
ghost use Rattle.rg_cert_meaning.specs.Sides.{side_of};
ghost use Rattle.rg_branch.specs.Answer.{IsAnswer, IsSound, IsStop};
ghost use Rattle.rg_rows.specs.Forms.{forms_after, AreFormsOf};
ghost use Rattle.rg_separate.specs.Casing.{IsCase, IsNamedSystem, forms_in};
ghost use Rattle.rg_separate.specs.Bounding.{AreBoundedOf, AreFirstBounded};
ghost use Rattle.rg_separate.specs.Keeping.{Serves};
ghost use Rattle.rg_separate.specs.Deciding.{CaseTells, CaseComesTo};
ghost use Rattle.rg_separate.specs.View.{shown_of};
ghost use Rattle.rg_separate.specs.Passing.{passed_at, pivot_at};

use crate::placing::place_answer;
use crate::refuting::refutation_answer;
use crate::sides::named_triples;
use crate::solving::Problems;
use rg_branch::{Bounded, BranchStop, Solver, Whole};
use rg_case_parts::CaseSetting;
use rg_cert_data::{Case, Stage, WideAt};
use rg_cert_meaning::Form;
use rg_feasible::PivotWide;
use rg_fraction::FoldStop;
use rg_integers::Wide;
use rg_marks::RegionPlace;
use rg_memory::NoMemory;
use rg_rows::{NamedCase, NamedForm, system_with};
use std::alloc::{AllocError, Global};

// What a case comes to.
#[derive(Drop)]
pub(crate) enum CaseAnswer {
    Place(RegionPlace),
    Refuted(Case),
    Wide(WideAt),
}

// A place that separates the problem in this case, what refutes the case, or the first term out of range.
pub(crate) fn solve_case(
    problems: Problems<'_>,
    solver: &mut Solver,
    c: CaseSetting<'_>,
) -> Result<CaseAnswer, AllocError>
    requires case { IsCase c }
    requires serves { Serves c.setting problems }
    requires columns { solver.old ≡ problems.columns }
    ensures tells { IfOk result (CaseTells c.entry.setting.lts.now c.entry.setting.class c.entry.problem c.entry.number) }
    ensures comes { IfOk result (CaseComesTo c.entry) }
    ensures same { solver.new ≡ solver.old }
{
    match system_with(problems.alloc, problems.common, c) {
        Ok(named) => answer_of_forms(problems, solver, c, &named),
        Err(FoldStop::Wide(wide)) => {
            let above = Vec::new(problems.alloc);
            Ok(CaseAnswer::Wide(wide_case(problems.alloc, Stage::Row, c, above, wide)))
        }
        Err(FoldStop::NoMemory) => Err(AllocError),
    }
}

// What the branching on the case's forms comes to.
fn answer_of_forms(
    problems: Problems<'_>,
    solver: &mut Solver,
    c: CaseSetting<'_>,
    named: &NamedCase<'_>,
) -> Result<CaseAnswer, AllocError>
    requires case { IsCase c }
    requires system { IsNamedSystem c named.now }
    requires forms { IsTrue named.now.joined → AreFirstBounded named.now.forms problems.forms.now }
    requires columns { solver.old ≡ named.now.system.columns }
    ensures tells { IfOk result (CaseTells c.entry.setting.lts.now c.entry.setting.class c.entry.problem c.entry.number) }
    ensures comes { IfOk result (CaseComesTo c.entry) }
    ensures columns { solver.new ≡ solver.old }
{
    let alloc = problems.alloc;
    match branch_on_forms(problems, solver, named) {
        Ok(Whole::Point(point, above)) => place_answer(alloc, c, named, &point, &above),
        Ok(Whole::Tree(nodes)) => refutation_answer(alloc, c, named, &nodes),
        Err(
            BranchStop::Wide {
                above,
                members,
                wide,
            },
        ) => {
            let above = named_triples(alloc, named.forms(), &above)?;
            Ok(CaseAnswer::Wide(wide_pivot(c, above, members, wide)))
        }
        Err(BranchStop::NoMemory) => Err(AllocError),
    }
}

// The branching on the forms that all cases share, or on forms of the case's own.
fn branch_on_forms(
    problems: Problems<'_>,
    solver: &mut Solver,
    named: &NamedCase<'_>,
) -> Result<Whole, BranchStop>
    requires are { AreFormsOf named.now.system (forms_after named.now.before named.now.forms) }
    requires forms { IsTrue named.now.joined → AreFirstBounded named.now.forms problems.forms.now }
    requires columns { solver.old ≡ named.now.system.columns }
    ensures answer { IfOk result (IsAnswer named.now.system (forms_in named.now)) }
    ensures sound { IfOk result (IsSound named.now.system (forms_in named.now)) }
    ensures stop { IfErr result (IsStop named.now.system (forms_in named.now)) }
    ensures columns { solver.new ≡ solver.old }
{
    let alloc = problems.alloc;
    let system = named.system();
    if named.has_shared_rows() {
        let forms = first_forms(problems.forms, named.forms().len());
        return solver.solve_whole(alloc, &system, forms, named.before());
    }
    let forms = bounded_forms(alloc, named.forms())?;
    solver.solve_whole(alloc, &system, &forms, named.before())
}

// The first so many of the forms.
fn first_forms(forms: &[Bounded], count: usize) -> &[Bounded]
    requires { count ≤ length forms.now }
    ensures { result.now ≡ take count forms.now }
{
    &forms[..count]
}

// The forms as a branching takes them.
pub(crate) fn bounded_forms(alloc: Global, forms: &[NamedForm]) -> Result<Vec<Bounded>, NoMemory>
    ensures { IfOk result (λ v. AreBoundedOf forms.now v.items) }
{
    let mut bounded = Vec::with_capacity(alloc, forms.len())?;
    for form in forms {
        bounded.push(Bounded {
            scale: form.scale,
            coeffs: form.coeffs.to_vec(alloc)?,
            low: form.low,
            high: form.high,
            row: form.row,
            times: form.times,
        })?;
    }
    Ok(bounded)
}

// The first step of a fold that is out of range, below these sides.
pub(crate) fn wide_case(
    alloc: Global,
    stage: Stage,
    c: CaseSetting<'_>,
    above: Vec<(Form, i64, bool)>,
    wide: Wide,
) -> WideAt
    ensures { shown_of result ≡ passed_at stage c.entry (map side_of above.items) wide }
{
    WideAt {
        stage,
        problem: Some(c.problem),
        case: c.number,
        above,
        members: Vec::new(alloc),
        pivot: 0,
        leaves: 0,
        target: 0,
        entry: 0,
        wide,
    }
}

// The term of an exchange that is out of range, below these sides and at this set.
fn wide_pivot(
    c: CaseSetting<'_>,
    above: Vec<(Form, i64, bool)>,
    members: Vec<u32>,
    at: PivotWide,
) -> WideAt
    ensures { shown_of result ≡ pivot_at c.entry (map side_of above.items) members.items at }
{
    WideAt {
        stage: Stage::Pivot,
        problem: Some(c.problem),
        case: c.number,
        above,
        members,
        pivot: at.pivot,
        leaves: at.leaves,
        target: at.target,
        entry: at.entry,
        wide: at.wide,
    }
}

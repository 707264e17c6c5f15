//! The rows of a problem itself.
ghost use Rattle.std.specs.Prelude.{◌≡◌, ◌<◌, ◌++◌, ◌∷◌, [], map, IfOk, OnOk};
ghost use Rattle.rg_theory.specs.System.{labels};
ghost use Rattle.rg_cert_meaning.specs.Refutes.{IsSeparationProblem};
ghost use Rattle.rg_case_folds.specs.Rewriting.{states_with, problem_rows};
ghost use Rattle.rg_cert_meaning.specs.declared.RowName.TheVariants as row_name;

use rg_case_parts::states_with;
use rg_cert_meaning::RowName;
use rg_lts::Lts;
use rg_theory::{Class, Problem};
use std::alloc::{AllocError, Global};

// The rows of the problem: `block` in a pure class, `empty`, `full` and `keep` in another plain one, else `stop`; of
// a state problem `apart`.
pub(crate) fn problem_rows(
    alloc: Global,
    lts: &Lts,
    class: Class,
    problem: Problem,
) -> Result<Vec<RowName>, AllocError>
    requires asked { IsSeparationProblem lts.now problem }
    ensures { IfOk result (λ v. v.items ≡ problem_rows lts.now class problem) }
{
    match problem {
        Problem::Event(..) if class.pure => [RowName::Block].to_vec(alloc),
        Problem::Event(_, t) if class.plain => plain_rows(alloc, lts, t),
        Problem::Event(_, t) => stops(alloc, lts, t),
        Problem::States(..) => [RowName::Apart].to_vec(alloc),
    }
}

// `empty`, `full` at each state with an arc of label t, and `keep`.
fn plain_rows(alloc: Global, lts: &Lts, t: u32) -> Result<Vec<RowName>, AllocError>
    requires { t < labels lts.now }
    ensures { IfOk result (λ v. v.items ≡ row_name.Empty ∷ map row_name.Full (states_with lts.now t) ++ row_name.Keep ∷ []) }
{
    let states = states_with(alloc, lts, t)?;
    let mut names = Vec::with_capacity(alloc, states.len() + 2)?;
    names.push(RowName::Empty)?;
    push_fulls(&mut names, &states)?;
    names.push(RowName::Keep)?;
    Ok(names)
}

// `full` at each of the states.
fn push_fulls(names: &mut Vec<RowName>, states: &[u32]) -> Result<(), AllocError>
    ensures { OnOk result (names.new.items ≡ names.old.items ++ map row_name.Full states.now) }
{
    for &q in states {
        names.push(RowName::Full(q))?;
    }
    Ok(())
}

// `stop` at each state with an arc of label t.
fn stops(alloc: Global, lts: &Lts, t: u32) -> Result<Vec<RowName>, AllocError>
    requires { t < labels lts.now }
    ensures { IfOk result (λ v. v.items ≡ map row_name.Stop (states_with lts.now t)) }
{
    let states = states_with(alloc, lts, t)?;
    states.iter().map(|q| RowName::Stop(*q)).collect(alloc)
}

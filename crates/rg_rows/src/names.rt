//! The named rows of a case.
ghost use Rattle.std.specs.Prelude.{◌≡◌, ◌<◌, ◌++◌, length, map, IfOk, OnOk};
ghost use Rattle.rg_theory.specs.System.{states, labels};
ghost use Rattle.rg_cert_meaning.specs.Refutes.{IsSeparationProblem};
ghost use Rattle.rg_case_folds.specs.Rewriting.{all_numbers, problem_rows, names_of};
ghost use Rattle.rg_case_parts.specs.ColumnViews.{AreColumns};
ghost use Rattle.rg_rows.specs.View.{users, makers};
ghost use Rattle.rg_rows.specs.Sharing.{shared_names};
ghost use Rattle.rg_cert_meaning.specs.declared.RowName.TheVariants as row_name;

use crate::problem_names::problem_rows;
use rg_case_parts::{CaseSetting, Columns, Setting};
use rg_cert_meaning::RowName;
use rg_lts::Lts;
use rg_theory::Class;
use std::alloc::{AllocError, Global};

// The rows in order: those of the problem; `tokens` by state where Start is a column; in a bounded class `cap` by
// state; in a plain one `up` and then `down` by label with an arc; and in an output-nonbranching one `makes` by label
// with an arc, but the consumer.
pub(crate) fn names(
    alloc: Global,
    c: CaseSetting<'_>,
    columns: &Columns,
) -> Result<Vec<RowName>, AllocError>
    requires asked { IsSeparationProblem c.setting.lts.now c.problem }
    requires columns { AreColumns c.setting.lts.now c.setting.class columns.now }
    ensures { IfOk result (λ v. v.items ≡ names_of c.entry.setting.lts.now c.entry.setting.class c.entry.problem c.entry.number) }
{
    let CaseSetting {
        setting,
        problem,
        ..
    } = c;
    let Setting { lts, class, .. } = setting;
    let mut names = problem_rows(alloc, lts, class, problem)?;
    push_shared(&mut names, lts, class, columns)?;
    if class.nonbranching {
        push_makes(
            &mut names,
            lts.labels(),
            &columns.used,
            c.problem_case().consumer(lts),
        )?;
    }
    Ok(names)
}

// The rows that all cases of the class share: `tokens` by state where Start is a column; in a bounded class `cap` by
// state; and in a plain one `up` and then `down` by label with an arc.
pub(crate) fn shared_names(
    alloc: Global,
    lts: &Lts,
    class: Class,
    columns: &Columns,
) -> Result<Vec<RowName>, AllocError>
    requires { AreColumns lts.now class columns.now }
    ensures { IfOk result (λ v. v.items ≡ shared_names lts.now class) }
{
    let mut names = Vec::new(alloc);
    push_shared(&mut names, lts, class, columns)?;
    Ok(names)
}

// Adds the rows that all cases of the class share.
fn push_shared(
    names: &mut Vec<RowName>,
    lts: &Lts,
    class: Class,
    columns: &Columns,
) -> Result<(), AllocError>
    requires { AreColumns lts.now class columns.now }
    ensures { OnOk result (names.new.items ≡ names.old.items ++ shared_names lts.now class) }
{
    if columns.start {
        push_tokens(names, lts.states())?;
    }
    if class.bound.is_some() {
        push_caps(names, lts.states())?;
    }
    if class.plain {
        push_ups(names, lts.labels(), &columns.used)?;
        push_downs(names, lts.labels(), &columns.used)?;
    }
    Ok(())
}

// `tokens` at each state.
fn push_tokens(names: &mut Vec<RowName>, states: u32) -> Result<(), AllocError>
    ensures { OnOk result (names.new.items ≡ names.old.items ++ map row_name.Tokens (all_numbers states)) }
{
    for q in 0..states {
        names.push(RowName::Tokens(q))?;
    }
    Ok(())
}

// `cap` at each state.
fn push_caps(names: &mut Vec<RowName>, states: u32) -> Result<(), AllocError>
    ensures { OnOk result (names.new.items ≡ names.old.items ++ map row_name.Cap (all_numbers states)) }
{
    for q in 0..states {
        names.push(RowName::Cap(q))?;
    }
    Ok(())
}

// `up` of each label with an arc.
fn push_ups(names: &mut Vec<RowName>, labels: u32, used: &[bool]) -> Result<(), AllocError>
    requires { length used.now ≡ labels }
    ensures { OnOk result (names.new.items ≡ names.old.items ++ map row_name.Up (users used.now)) }
{
    for t in 0..labels {
        if used[t as usize] {
            names.push(RowName::Up(t))?;
        }
    }
    Ok(())
}

// `down` of each label with an arc.
fn push_downs(names: &mut Vec<RowName>, labels: u32, used: &[bool]) -> Result<(), AllocError>
    requires { length used.now ≡ labels }
    ensures { OnOk result (names.new.items ≡ names.old.items ++ map row_name.Down (users used.now)) }
{
    for t in 0..labels {
        if used[t as usize] {
            names.push(RowName::Down(t))?;
        }
    }
    Ok(())
}

// `makes` of each label with an arc, but the consumer.
fn push_makes(
    names: &mut Vec<RowName>,
    labels: u32,
    used: &[bool],
    consumer: u32,
) -> Result<(), AllocError>
    requires { length used.now ≡ labels }
    ensures { OnOk result (names.new.items ≡ names.old.items ++ map row_name.Makes (makers used.now consumer)) }
{
    for u in 0..labels {
        if used[u as usize] && u != consumer {
            names.push(RowName::Makes(u))?;
        }
    }
    Ok(())
}

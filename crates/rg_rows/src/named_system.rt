//! The system of a case.
ghost use Rattle.std.specs.Prelude.{◌≡◌, ◌<◌, ◌≤◌, length, take, All, map, Ok, Err, IfOk, IsErrOf};
ghost use Rattle.rg_theory.specs.ClassWords.{HasNumbersInRange};
ghost use Rattle.rg_theory.specs.System.{labels, IsAllReachable};
ghost use Rattle.rg_integers.specs.declared.term.Wide.{Wide};
ghost use Rattle.rg_cert_meaning.specs.Refutes.{IsSeparationProblem};
ghost use Rattle.rg_cert_meaning.specs.Row.{cases_of};
ghost use Rattle.rg_spanning.specs.Spanning.{IsTreeOf};
ghost use Rattle.rg_case_folds.specs.Rewriting.{CaseSystem, split_forms, system_fold};
ghost use Rattle.rg_case_folds.specs.Setting.{setting_at, case_at};
ghost use Rattle.rg_case_folds.specs.Chords.{IsBasis};
ghost use Rattle.rg_folds.specs.Fold.{Comes, each};
ghost use Rattle.rg_cycles.specs.View.{labels_of, cycle_of};
ghost use Rattle.rg_fraction.specs.declared.fold_stop.FoldStop.TheVariants as stop;
ghost use Rattle.rg_rows.specs.View.{kept_row, row_in, columns_in, AreNamesWithin, fold_of, AreRowsOf, AreOwnRows};
ghost use Rattle.rg_rows.specs.Sharing.{IsCommonOf};
ghost use Rattle.rg_rows.specs.Forms.{split_of, StandsInRow, AreFormsOf};
ghost use Rattle.rg_rows.specs.Shown.{ShowsCase, rows_of_system};
ghost use Rattle.rg_case_parts.specs.SettingViews.{shown_setting, shown_case};

use crate::common::Common;
use crate::held_row::{HeldRow, row_in_case};
use crate::named_case::whole_case;
use crate::named_form::NamedForm;
use crate::problem_names::problem_rows;
use rg_case_parts::{CaseSetting, Setting};
use rg_cert_meaning::RowName;
use rg_cycles::Basis;
use rg_fraction::{FoldStop, Fraction};
use rg_linear::System;
use rg_lts::Lts;
use rg_spanning::Tree;
use rg_theory::{Class, Problem};
use std::alloc::Global;

/// A system of linear rows, and the forms that are to be whole. Each row is a named row times a factor, which is
/// positive: `names` and `factors` have one entry for each row, in order.
#[derive(Drop)]
pub struct NamedSystem {
    pub system: System,
    pub names: Vec<RowName>,
    pub factors: Vec<Fraction>,
    pub forms: Vec<NamedForm>,
}

/// Returns the system of a case of a problem.
///
/// The columns are Start, the tokens of the initial state, if the class is pure, plain or bounded, and the free
/// labels with an arc, in order. The rows are those of the problem; `tokens` by state if Start is a column; in a
/// bounded class `cap` by state; in a plain one `up` and then `down` by label with an arc; and in an
/// output-nonbranching class `makes` by label with an arc, but the consumer. Each is written over the columns by the
/// way in the tree to each state and the relations of the basis, multiplied by the least common multiple of its
/// denominators, and divided by the greatest common divisor of its numbers. A row without coefficients whose constant
/// isn't negative is left out, and of equal rows the first stays.
///
/// The forms are in a bounded class the tokens of each state, from 0 to the bound, else in a plain class the effect
/// of each label with an arc, from -1 to 1; in another class there are none. In a class that asks a marking the
/// tokens at the start come after these, in steps of the marking: in a bounded class from 0 to the bound, and in a
/// plain class without bound, if an event is asked, from 0 to the number of states. They are written over the columns
/// as the rows are, and not divided. The rows and forms are as a branching on the forms asks (Schrijver, *Theory of
/// Linear and Integer Programming*): if all states can be reached and the basis is that of the chords, the rows bound
/// each form.
///
/// Returns `FoldStop::Wide` exactly if a step of this, row by row and then form by form, is out of range, with the
/// first such step, and `FoldStop::NoMemory` if memory runs out. The steps have one result, so that a system that is
/// returned is the only one.
pub fn system(
    alloc: Global,
    lts: &Lts,
    tree: &Tree,
    basis: &Basis,
    class: Class,
    problem: Problem,
    case: u32,
) -> Result<NamedSystem, FoldStop>
    requires asked { IsSeparationProblem lts.now problem }
    requires case { case < cases_of lts.now class problem }
    requires tree { IsTreeOf lts.now tree.now }
    requires labels { labels_of basis.now ≡ labels lts.now }
    ensures system { let s = setting_at lts.now tree.now.arcs (cycle_of basis.now) class in
        IfOk result (λ named. (shown : CaseSystem) × system_fold (case_at s problem case) (Ok shown) × ShowsCase (rows_of_system named) shown) }
    ensures named { IfOk result (λ named. map split_of named.forms.items ≡ split_forms lts.now class problem) }
    ensures rows { let s = setting_at lts.now tree.now.arcs (cycle_of basis.now) class in
        IfOk result (λ named. All (StandsInRow (case_at s problem case) named.system) named.forms.items) }
    ensures forms { let s = setting_at lts.now tree.now.arcs (cycle_of basis.now) class in
        IsAllReachable s.lts → IsBasis s.lts s.tree s.basis → HasNumbersInRange s.class → IfOk result (λ named. AreFormsOf named.system named.forms.items) }
    ensures wide { let s = setting_at lts.now tree.now.arcs (cycle_of basis.now) class in
        (w : Wide) → IsErrOf result (stop.Wide w) → system_fold (case_at s problem case) (Err w) }
{
    let setting = Setting {
        lts,
        tree,
        basis,
        class,
    };
    let common = Common::new(alloc, setting)?;
    let c = CaseSetting {
        setting,
        problem,
        number: case,
    };
    let own = own_rows(alloc, &common, c)?;
    let named = whole_case(alloc, &common, c, own)?;
    Ok(named.into_system())
}

// The named rows over the columns.
pub(crate) fn rows<'a>(
    alloc: Global,
    common: &'a Common,
    c: CaseSetting<'_>,
    names: &[RowName],
) -> Result<Vec<HeldRow<'a>>, FoldStop>
    requires tree { IsTreeOf c.setting.lts.now c.setting.tree.now }
    requires labels { labels_of c.setting.basis.now ≡ labels c.setting.lts.now }
    requires common { IsCommonOf (shown_setting c.setting) common.now }
    requires names { AreNamesWithin (shown_case c) names.now }
    ensures comes { Comes (each (fold_of (shown_case c.entry)) names.now) (λ v. map kept_row (map row_in v.items)) result }
    ensures one_each { IfOk result (λ v. All (λ r. length r.coeffs.items ≡ columns_in (shown_setting c.entry.setting)) (map row_in v.items)) }
    ensures few { IfOk result (λ v. length v.items ≡ length names.now) }
{
    let mut rows = Vec::with_capacity(alloc, names.len())?;
    for &name in names {
        rows.push(row_in_case(alloc, common, c, name)?)?;
    }
    Ok(rows)
}

// The rows of the problem itself.
pub(crate) fn own_rows<'a>(
    alloc: Global,
    common: &'a Common,
    c: CaseSetting<'_>,
) -> Result<Vec<HeldRow<'a>>, FoldStop>
    requires asked { IsSeparationProblem c.setting.lts.now c.problem }
    requires tree { IsTreeOf c.setting.lts.now c.setting.tree.now }
    requires labels { labels_of c.setting.basis.now ≡ labels c.setting.lts.now }
    requires common { IsCommonOf (shown_setting c.setting) common.now }
    ensures made { IfOk result (λ v. AreOwnRows (shown_case c.entry) (map row_in v.items)) }
    ensures wide { (w : Wide) → IsErrOf result (stop.Wide w) → system_fold (shown_case c.entry) (Err w) }
{
    let names = problem_rows(alloc, c.setting.lts, c.setting.class, c.problem)?;
    let own = rows(alloc, common, c, &names)?;
    Ok(own)
}

// The named rows over the columns, of which the first are known.
pub(crate) fn rows_after<'a>(
    alloc: Global,
    common: &'a Common,
    c: CaseSetting<'_>,
    names: &[RowName],
    known: Vec<HeldRow<'a>>,
) -> Result<Vec<HeldRow<'a>>, FoldStop>
    requires tree { IsTreeOf c.setting.lts.now c.setting.tree.now }
    requires labels { labels_of c.setting.basis.now ≡ labels c.setting.lts.now }
    requires common { IsCommonOf (shown_setting c.setting) common.now }
    requires names { AreNamesWithin (shown_case c) names.now }
    requires known { AreRowsOf (shown_case c) (take (length known.items) names.now) (map row_in known.items) }
    requires within { length known.items ≤ length names.now }
    ensures comes { Comes (each (fold_of (shown_case c.entry)) names.now) (λ v. map kept_row (map row_in v.items)) result }
    ensures one_each { IfOk result (λ v. All (λ r. length r.coeffs.items ≡ columns_in (shown_setting c.entry.setting)) (map row_in v.items)) }
    ensures few { IfOk result (λ v. length v.items ≡ length names.now) }
{
    let mut more = rows(alloc, common, c, &names[known.len()..])?;
    let mut all = known;
    all.append(&mut more)?;
    Ok(all)
}

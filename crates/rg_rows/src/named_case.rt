//! The system of a case, with the rows that all cases share.
ghost use Rattle.std.specs.Prelude.{◌≡◌, ◌<◌, ◌↔◌, ℕ, length, map, All, slice_index_or, Ok, Err, IfOk, IfSome, IsErrOf, IsFalse, IsTrue};
ghost use Rattle.rg_theory.specs.ClassWords.{HasNumbersInRange};
ghost use Rattle.rg_theory.specs.System.{labels, IsAllReachable};
ghost use Rattle.rg_integers.specs.declared.term.Wide.{Wide};
ghost use Rattle.rg_cert_meaning.specs.Refutes.{IsSeparationProblem};
ghost use Rattle.rg_cert_meaning.specs.Row.{cases_of};
ghost use Rattle.rg_cert_meaning.specs.declared.RowName.{RowName};
ghost use Rattle.rg_spanning.specs.Spanning.{IsTreeOf};
ghost use Rattle.rg_case_folds.specs.Rewriting.{CaseSystem, split_forms, system_fold};
ghost use Rattle.rg_case_folds.specs.Chords.{IsBasis};
ghost use Rattle.rg_cycles.specs.View.{labels_of};
ghost use Rattle.rg_fraction.specs.declared.fraction.Fraction.{Fraction};
ghost use Rattle.rg_fraction.specs.declared.fold_stop.FoldStop.TheVariants as stop;
ghost use Rattle.rg_rows.specs.View.{kept_row, row_in, AreOwnRows};
ghost use Rattle.rg_rows.specs.Sharing.{IsApart, AreSharedRows, IsCommonOf, shared_forms};
ghost use Rattle.rg_rows.specs.Forms.{split_of, forms_after, StandsInRow, AreFormsOf};
ghost use Rattle.rg_rows.specs.Shown.{ShowsCase, IsSystemOf};
ghost use Rattle.rg_rows.specs.Shared.{HasSharedForms};
ghost use Rattle.rg_case_parts.specs.SettingViews.{shown_setting, shown_case};

use crate::common::Common;
use crate::forms::{case_forms, form_count};
use crate::held_row::HeldRow;
use crate::kept::{CaseRows, firsts};
use crate::named_form::NamedForm;
use crate::named_system::{NamedSystem, own_rows, rows_after};
use crate::names::names;
use crate::shared_part::SharedPart;
use crate::shared_rows::{SharedRows, are_apart};
use rg_case_parts::CaseSetting;
use rg_cert_meaning::RowName;
use rg_fraction::{FoldStop, Fraction};
use rg_linear::{JoinedSystem, System};
use std::alloc::{AllocError, Global};
use std::marker::Model;

/// The system of a case with its names and forms, as `NamedSystem` has it. Its rows are its own, and after them those
/// that all cases share, which it borrows together with their forms, if there are such.
///
/// In contracts it is `NamedRows`.
#[derive(Drop)]
pub struct NamedCase<'a> {
    columns: u32,
    own: CaseRows,
    forms: Vec<NamedForm>,
    shared: Option<SharedPart<'a>>,
}

impl<'a> Model for NamedCase<'a> {
    ghost use Rattle.rg_rows.specs.Shared.{NamedRows, named_rows, HasNames};

    ghost Value = { NamedRows };

    ghost view = { λ a. named_rows a.columns a.own a.forms.items a.shared };

    ghost invariant = { λ a. HasNames (named_rows a.columns a.own a.forms.items a.shared) };
}

impl<'a> NamedCase<'a> {
    /// Returns the rows, as a system.
    pub fn system(&self) -> JoinedSystem<'_>
        ensures { result ≡ self.now.system }
    {
        match self.shared {
            Some(shared) => JoinedSystem::new(self.columns, &self.own.rows, &shared.all.rows),
            None => JoinedSystem::alone(self.columns, &self.own.rows),
        }
    }

    /// Returns how many rows there are.
    pub fn count(&self) -> u32
        ensures { result ≡ length self.now.system.rows }
    {
        self.system().count()
    }

    /// Returns the name of a row, which is counted from 0.
    pub fn name(&self, row: u32) -> RowName
        requires { row < length self.now.system.rows }
        ensures { (d : RowName) → slice_index_or self.now.names row d ≡ result }
    {
        let row = row as usize;
        match self.shared {
            Some(shared) if row >= self.own.names.len() => {
                shared.all.names[row - self.own.names.len()]
            }
            _ => self.own.names[row],
        }
    }

    /// Returns the factor of a row: the row is its named row times this, which is positive.
    pub fn factor(&self, row: u32) -> Fraction
        requires { row < length self.now.system.rows }
        ensures { (d : Fraction) → slice_index_or self.now.factors row d ≡ result }
    {
        let row = row as usize;
        match self.shared {
            Some(shared) if row >= self.own.factors.len() => {
                shared.all.factors[row - self.own.factors.len()]
            }
            _ => self.own.factors[row],
        }
    }

    /// Returns the forms. The rows that they name are counted after the first `before()` rows.
    pub fn forms(&self) -> &[NamedForm]
        ensures { result.now ≡ self.now.forms }
    {
        match self.shared {
            Some(shared) => &shared.all.forms[..shared.form_count],
            None => &self.forms,
        }
    }

    /// Returns how many rows come before the one from which the forms count theirs: those of the case, if all cases
    /// share the others, and else none.
    pub fn before(&self) -> u32
        ensures { result ≡ self.now.before }
    {
        match self.shared {
            Some(_) => self.own.rows.len() as u32,
            None => 0,
        }
    }

    /// Returns whether the last rows are those that all cases share, and the forms the first ones of theirs.
    pub fn has_shared_rows(&self) -> bool
        ensures { result ≡ self.now.joined }
    {
        self.shared.is_some()
    }

    // The same, where no rows are shared.
    pub(crate) fn into_system(self) -> NamedSystem
        requires { IsFalse self.joined }
        ensures system { result.system ≡ self.entry.system }
        ensures names { result.names.items ≡ self.entry.names }
        ensures factors { result.factors.items ≡ self.entry.factors }
        ensures forms { result.forms.items ≡ self.entry.forms }
    {
        let CaseRows {
            rows,
            names,
            factors,
        } = self.own;
        NamedSystem {
            system: System::new(self.columns, rows),
            names,
            factors,
            forms: self.forms,
        }
    }
}

/// Returns the system of a case of a problem, as `system` does, with the rows and forms that all problems of the
/// system and the class share.
pub fn system_with<'a>(
    alloc: Global,
    common: &'a Common,
    c: CaseSetting<'_>,
) -> Result<NamedCase<'a>, FoldStop>
    requires asked { IsSeparationProblem c.setting.lts.now c.problem }
    requires case { c.number < cases_of c.setting.lts.now c.setting.class c.problem }
    requires tree { IsTreeOf c.setting.lts.now c.setting.tree.now }
    requires labels { labels_of c.setting.basis.now ≡ labels c.setting.lts.now }
    requires common { IsCommonOf (shown_setting c.setting) common.now }
    ensures system { IfOk result (λ named. (shown : CaseSystem) × system_fold (shown_case c.entry) (Ok shown) × ShowsCase named shown) }
    ensures named { IfOk result (λ named. map split_of named.forms ≡ split_forms c.entry.setting.lts.now c.entry.setting.class c.entry.problem) }
    ensures rows { IfOk result (λ named. All (StandsInRow (shown_case c.entry) named.system) (forms_after named.before named.forms)) }
    ensures forms { let s = shown_setting c.entry.setting in
        IsAllReachable s.lts → IsBasis s.lts s.tree s.basis → HasNumbersInRange s.class → IfOk result (λ named. AreFormsOf named.system (forms_after named.before named.forms)) }
    ensures shared { IfOk result (HasSharedForms (shared_forms common.now)) }
    ensures wide { (w : Wide) → IsErrOf result (stop.Wide w) → system_fold (shown_case c.entry) (Err w) }
{
    let own = own_rows(alloc, common, c)?;
    if let Some(shared) = &common.shared {
        if are_apart(&own, &shared.hashes) {
            return Ok(case_before(alloc, common, c, &own, shared)?);
        }
    }
    whole_case(alloc, common, c, own)
}

// The system of the case, where the rows that all cases share come after its own and are others than these.
fn case_before<'a>(
    alloc: Global,
    common: &Common,
    c: CaseSetting<'_>,
    own: &[HeldRow<'_>],
    shared: &'a SharedRows,
) -> Result<NamedCase<'a>, AllocError>
    requires asked { IsSeparationProblem c.setting.lts.now c.problem }
    requires case { c.number < cases_of c.setting.lts.now c.setting.class c.problem }
    requires tree { IsTreeOf c.setting.lts.now c.setting.tree.now }
    requires labels { labels_of c.setting.basis.now ≡ labels c.setting.lts.now }
    requires common { IsCommonOf (shown_setting c.setting) common.now }
    requires own { AreOwnRows (shown_case c) (map row_in own.now) }
    requires shared { AreSharedRows (shown_setting c.setting) shared.now }
    requires apart { All (IsApart shared.now.hashes.keys) (map kept_row (map row_in own.now)) }
    ensures made { IfOk result (IsSystemOf (shown_case c.entry)) }
    ensures shared { IfOk result (HasSharedForms shared.now.forms.items) }
{
    c.setting.lts.is_well_formed();
    let (kept, _) = firsts(alloc, own)?;
    let part = SharedPart {
        all: shared,
        form_count: form_count(c.setting.class, c.problem, shared.forms.len()),
    };
    Ok(NamedCase {
        columns: common.columns.count(c.setting.basis),
        own: kept,
        forms: Vec::new(alloc),
        shared: Some(part),
    })
}

// The system of the case, row by row: its own rows, which are known, and then the others.
pub(crate) fn whole_case<'a>(
    alloc: Global,
    common: &Common,
    c: CaseSetting<'_>,
    own: Vec<HeldRow<'_>>,
) -> Result<NamedCase<'a>, FoldStop>
    requires asked { IsSeparationProblem c.setting.lts.now c.problem }
    requires case { c.number < cases_of c.setting.lts.now c.setting.class c.problem }
    requires tree { IsTreeOf c.setting.lts.now c.setting.tree.now }
    requires labels { labels_of c.setting.basis.now ≡ labels c.setting.lts.now }
    requires common { IsCommonOf (shown_setting c.setting) common.now }
    requires own { AreOwnRows (shown_case c) (map row_in own.items) }
    ensures made { IfOk result (IsSystemOf (shown_case c.entry)) }
    ensures alone { IfOk result (λ named. IsFalse named.joined) }
    ensures before { IfOk result (λ named. named.before ≡ 0) }
    ensures wide { (w : Wide) → IsErrOf result (stop.Wide w) → system_fold (shown_case c.entry) (Err w) }
{
    c.setting.lts.is_well_formed();
    let names = names(alloc, c, &common.columns)?;
    let all = rows_after(alloc, common, c, &names, own)?;
    let (kept, indices) = firsts(alloc, &all)?;
    let forms = case_forms(alloc, common, c, &names, &all, &indices)?;
    Ok(NamedCase {
        columns: common.columns.count(c.setting.basis),
        own: kept,
        forms,
        shared: None,
    })
}

//! The rows and forms that all problems of a system and a class share.
ghost use Rattle.std.specs.Prelude.{◌≡◌, ◌≤◌, ℕ, Ok, Err, IfOk, IfSome};
ghost use Rattle.rg_theory.specs.declared.Class.{Class};
ghost use Rattle.rg_theory.specs.Limits.{most_labels};
ghost use Rattle.rg_theory.specs.System.{labels};
ghost use Rattle.rg_spanning.specs.Spanning.{IsTreeOf};
ghost use Rattle.rg_cycles.specs.View.{labels_of, cycle_of};
ghost use Rattle.rg_case_folds.specs.Rewriting.{column_count};
ghost use Rattle.rg_case_parts.specs.SettingViews.{shown_setting};
ghost use Rattle.rg_case_parts.specs.ColumnViews.{AreColumns};
ghost use Rattle.rg_rows.specs.Sharing.{or_wide, AreRowsOfKind, AreTermsOfKind, IsCommonOf, IsRowInCase, AreTermsInCase, shared_forms};
ghost use Rattle.rg_case_folds.specs.Setting.{Setting as ShownSetting, CaseSetting};

use crate::case_row::CaseRow;
use crate::form_terms::FormTerms;
use crate::kind::Kind;
use crate::named_form::NamedForm;
use crate::rewriting::{form_terms, row};
use crate::shared_rows::{SharedRows, shared_rows};
use rg_case_parts::{Columns, Setting};
use rg_cert_meaning::RowName;
use rg_cycles::Basis;
use rg_fraction::FoldStop;
use rg_integers::Wide;
use std::alloc::{AllocError, Global};

/// The rows and forms of a system and a class that don't depend on the problem: `tokens` and `cap` by state, `up`,
/// `down` and `makes` by label, and the terms of the forms, each where the class has them. Each is written over the
/// columns, or is the first step of that which is out of range.
#[derive(Drop)]
pub struct Common {
    pub(crate) columns: Columns,
    pub(crate) tokens: Vec<Result<CaseRow, Wide>>,
    pub(crate) caps: Vec<Result<CaseRow, Wide>>,
    pub(crate) ups: Vec<Result<CaseRow, Wide>>,
    pub(crate) downs: Vec<Result<CaseRow, Wide>>,
    pub(crate) makes: Vec<Result<CaseRow, Wide>>,
    pub(crate) token_terms: Vec<Result<FormTerms, Wide>>,
    pub(crate) effect_terms: Vec<Result<FormTerms, Wide>>,
    pub(crate) shared: Option<SharedRows>,
}

impl Common {
    /// Returns the rows and forms of the class, by the way in the tree to each state and the relations of the basis.
    /// An error where there is no memory.
    pub fn new(alloc: Global, setting: Setting<'_>) -> Result<Common, AllocError>
        requires tree { IsTreeOf setting.lts.now setting.tree.now }
        requires labels { labels_of setting.basis.now ≡ labels setting.lts.now }
        ensures { IfOk result (IsCommonOf (shown_setting setting.entry)) }
    {
        let columns = Columns::new(alloc, setting.lts, setting.class)?;
        let mut common = Common {
            tokens: rows(alloc, setting, &columns, Kind::Tokens)?,
            caps: rows(alloc, setting, &columns, Kind::Cap)?,
            ups: rows(alloc, setting, &columns, Kind::Up)?,
            downs: rows(alloc, setting, &columns, Kind::Down)?,
            makes: rows(alloc, setting, &columns, Kind::Makes)?,
            token_terms: terms(alloc, setting, &columns, Kind::Tokens)?,
            effect_terms: terms(alloc, setting, &columns, Kind::Down)?,
            columns,
            shared: None,
        };
        common.shared = shared_rows(alloc, setting, &common)?;
        Ok(common)
    }

    /// Returns how many columns the system of each case has, over this basis.
    pub fn column_count(&self, basis: &Basis) -> u32
        requires { (s : ShownSetting) × IsCommonOf s self.now × (labels_of basis.now ≡ labels s.lts) × (labels s.lts ≤ most_labels) }
        ensures { (s : ShownSetting) → IsCommonOf s self.now → cycle_of basis.now ≡ s.basis → result ≡ column_count s.lts s.basis s.class }
    {
        self.columns.count(basis)
    }

    /// Returns the forms of the rows that all cases share, whose rows are counted from the first of these; none if
    /// there are no such rows.
    pub fn shared_forms(&self) -> &[NamedForm]
        ensures { result.now ≡ shared_forms self.now }
    {
        match &self.shared {
            Some(shared) => &shared.forms,
            None => &[],
        }
    }

    // The row of the name, where it speaks of no problem.
    pub(crate) fn row(&self, name: RowName) -> Option<&Result<CaseRow, Wide>>
        ensures { IfSome result (λ r. (s : CaseSetting) → IsCommonOf s.setting self.now → IsRowInCase s name r.now) }
    {
        match name {
            RowName::Tokens(q) => self.tokens.get(q as usize),
            RowName::Cap(q) => self.caps.get(q as usize),
            RowName::Up(t) => self.ups.get(t as usize),
            RowName::Down(t) => self.downs.get(t as usize),
            RowName::Makes(t) => self.makes.get(t as usize),
            _ => None,
        }
    }

    // The terms of the row, where a form has them.
    pub(crate) fn terms(&self, name: RowName) -> Option<&Result<FormTerms, Wide>>
        ensures { IfSome result (λ r. (s : CaseSetting) → IsCommonOf s.setting self.now → AreTermsInCase s name r.now) }
    {
        match name {
            RowName::Tokens(q) => self.token_terms.get(q as usize),
            RowName::Down(t) => self.effect_terms.get(t as usize),
            _ => None,
        }
    }
}

// The rows of the kind.
fn rows(
    alloc: Global,
    setting: Setting<'_>,
    columns: &Columns,
    kind: Kind,
) -> Result<Vec<Result<CaseRow, Wide>>, AllocError>
    requires tree { IsTreeOf setting.lts.now setting.tree.now }
    requires labels { labels_of setting.basis.now ≡ labels setting.lts.now }
    requires columns { AreColumns setting.lts.now setting.class columns.now }
    ensures { IfOk result (λ v. AreRowsOfKind (shown_setting setting.entry) kind v.items) }
{
    let mut rows = Vec::new(alloc);
    for number in 0..kind.rows(setting.lts, setting.class) {
        let expression = kind.expression(setting.lts, setting.class, number);
        let name = kind.name(number);
        rows.push(wide_or_no_memory(row(alloc, setting, columns, name, &expression))?)?;
    }
    Ok(rows)
}

// The terms of the rows of the kind, where the class has forms with them.
fn terms(
    alloc: Global,
    setting: Setting<'_>,
    columns: &Columns,
    kind: Kind,
) -> Result<Vec<Result<FormTerms, Wide>>, AllocError>
    requires tree { IsTreeOf setting.lts.now setting.tree.now }
    requires labels { labels_of setting.basis.now ≡ labels setting.lts.now }
    requires columns { AreColumns setting.lts.now setting.class columns.now }
    ensures { IfOk result (λ v. AreTermsOfKind (shown_setting setting.entry) kind v.items) }
{
    let mut terms = Vec::new(alloc);
    for number in 0..kind.forms(setting.lts, setting.class) {
        let expression = kind.expression(setting.lts, setting.class, number);
        terms.push(wide_or_no_memory(form_terms(alloc, setting, columns, &expression))?)?;
    }
    Ok(terms)
}

// What was written, or the step out of range that it came to; an error where there is no memory.
fn wide_or_no_memory<T: Drop>(fold: Result<T, FoldStop>) -> Result<Result<T, Wide>, AllocError>
    ensures { IfOk result (λ w. fold ≡ or_wide w) }
{
    match fold {
        Ok(value) => Ok(Ok(value)),
        Err(FoldStop::Wide(wide)) => Ok(Err(wide)),
        Err(FoldStop::NoMemory) => Err(AllocError),
    }
}

//! The forms of a case.
ghost use Rattle.std.specs.Prelude.{◌≡◌, ◌⊎◌, ℕ, ◌<◌, ◌≤◌, [], length, map, All, Contains, slice_index_or, ℤ, pos, ◌*ℤ◌, Ok, IfOk, IsTrue};
ghost use Rattle.rg_integers.specs.Range.{InRange};
ghost use Rattle.rg_theory.specs.System.{labels};
ghost use Rattle.rg_linear.specs.Cycle.{IsZeroVector};
ghost use Rattle.rg_spanning.specs.Spanning.{IsTreeOf};
ghost use Rattle.rg_cycles.specs.View.{labels_of};
ghost use Rattle.rg_folds.specs.Fold.{Comes, each};
ghost use Rattle.rg_case_folds.specs.Rewriting.{terms_fold, form_fold, form_low, form_high, splits_start};
ghost use Rattle.rg_case_parts.specs.SettingViews.{shown_setting, shown_case};
ghost use Rattle.rg_cert_meaning.specs.Row.{row_expression, step_of};
ghost use Rattle.rg_rows.specs.View.{kept_row, row_in, terms_of, columns_in, IsNameWithin, AreNamesWithin, fold_of};
ghost use Rattle.rg_rows.specs.Sharing.{IsCommonOf};
ghost use Rattle.rg_rows.specs.Forms.{linear_form, split_of, form_in, forms_in, case_forms, form_count, IsPartOf};
ghost use Rattle.rg_rows.specs.Making.{IsMade};
ghost use Rattle.rg_cert_meaning.specs.declared.RowName.TheVariants as row_name;
ghost use Rattle.rg_cert_meaning.specs.declared.Form.TheVariants as split_form;

use crate::case_row::CaseRow;
use crate::common::Common;
use crate::form_terms::FormTerms;
use crate::held_row::{HeldRow, case_expression};
use crate::named_form::NamedForm;
use crate::rewriting::form_terms;
use rg_case_parts::CaseSetting;
use rg_cert_meaning::{Form, RowName};
use rg_fraction::FoldStop;
use rg_lts::Lts;
use rg_theory::{Class, Problem};
use std::alloc::{AllocError, Global};

// The forms in order: those of the named rows, and after them the tokens at the start, where the case splits on it.
pub(crate) fn case_forms(
    alloc: Global,
    common: &Common,
    c: CaseSetting<'_>,
    names: &[RowName],
    rows: &[HeldRow<'_>],
    indices: &[u32],
) -> Result<Vec<NamedForm>, FoldStop>
    requires tree { IsTreeOf c.setting.lts.now c.setting.tree.now }
    requires labels { labels_of c.setting.basis.now ≡ labels c.setting.lts.now }
    requires common { IsCommonOf (shown_setting c.setting) common.now }
    requires names { AreNamesWithin (shown_case c) names.now }
    requires rows { each (fold_of (shown_case c)) names.now (Ok (map kept_row (map row_in rows.now))) }
    requires one_each { length rows.now ≡ length names.now }
    requires indices { length indices.now ≡ length rows.now }
    requires start { IsTrue (splits_start c.setting.class c.problem) → Contains names.now (row_name.Tokens c.setting.lts.now.initial) }
    ensures comes { Comes (each (form_fold (shown_setting c.entry.setting)) (case_forms c.entry.setting.class c.entry.problem names.now)) (λ v. map linear_form v.items) result }
    ensures forms { IfOk result (λ v. map split_of v.items ≡ case_forms c.entry.setting.class c.entry.problem names.now) }
    ensures made { IfOk result (λ v. All (IsMade c.entry.setting.lts.now c.entry.setting.class (columns_in (shown_setting c.entry.setting)) (map kept_row (map row_in rows.now)) indices.now) v.items) }
{
    let mut forms = forms(alloc, common, c, names, rows, indices)?;
    if splits_start(c.setting.class, c.problem) {
        let start = start_form(alloc, common, c, names, rows, indices)?;
        forms.push(start)?;
    }
    Ok(forms)
}

// Whether the start has to be split on: a class that asks a marking is bounded, or is plain and the problem an
// event's.
pub(crate) fn splits_start(class: Class, problem: Problem) -> bool
    ensures { result ≡ splits_start class problem }
{
    match problem {
        Problem::Event(..) => class.marking.is_some() && (class.plain || class.bound.is_some()),
        Problem::States(..) => class.marking.is_some() && class.bound.is_some(),
    }
}

// How many of so many forms of the class a case of the problem has: all but the start, which is the last one, if the
// case doesn't split on it, though event problems of the class do.
pub(crate) fn form_count(class: Class, problem: Problem, all: usize) -> usize
    ensures value { result ≡ form_count class problem all }
    ensures within { result ≤ all }
{
    if splits_start(class, Problem::Event(0, 0)) && !splits_start(class, problem) {
        all.saturating_sub(1)
    } else {
        all
    }
}

// The form of the tokens at the start, which has the terms of the row `tokens` of the initial state.
fn start_form(
    alloc: Global,
    common: &Common,
    c: CaseSetting<'_>,
    names: &[RowName],
    rows: &[HeldRow<'_>],
    indices: &[u32],
) -> Result<NamedForm, FoldStop>
    requires tree { IsTreeOf c.setting.lts.now c.setting.tree.now }
    requires labels { labels_of c.setting.basis.now ≡ labels c.setting.lts.now }
    requires common { IsCommonOf (shown_setting c.setting) common.now }
    requires names { AreNamesWithin (shown_case c) names.now }
    requires rows { each (fold_of (shown_case c)) names.now (Ok (map kept_row (map row_in rows.now))) }
    requires one_each { length rows.now ≡ length names.now }
    requires indices { length indices.now ≡ length rows.now }
    requires start { Contains names.now (row_name.Tokens c.setting.lts.now.initial) }
    ensures comes { Comes (form_fold (shown_setting c.entry.setting) split_form.Start) linear_form result }
    ensures form { IfOk result (λ f. split_of f ≡ split_form.Start) }
    ensures made { IfOk result (λ f. IsMade c.entry.setting.lts.now c.entry.setting.class (columns_in (shown_setting c.entry.setting)) (map kept_row (map row_in rows.now)) indices.now f) }
{
    let name = RowName::Tokens(c.setting.lts.initial());
    let i = index_of(names, name);
    let terms = terms_in_case(alloc, common, c, name)?;
    let scale = start_scale(c.setting.class);
    let form = form_over(
        c.setting.lts,
        c.setting.class,
        Form::Start,
        scale,
        terms,
        rows[i].row(),
        indices[i],
    );
    Ok(form)
}

// By steps of how many the start is counted.
fn start_scale(class: Class) -> i128
    ensures value { result ≡ pos (step_of class split_form.Start) }
    ensures in_range { InRange result }
{
    i128::from(Form::Start.step(class))
}

// The index of a name among names that have it.
fn index_of(names: &[RowName], name: RowName) -> usize
    requires { Contains names.now name }
    ensures within { result < length names.now }
    ensures here { (d : RowName) → slice_index_or names.now result d ≡ name }
{
    for (i, other) in names.iter().enumerate() {
        if *other == name {
            return i;
        }
    }
    unreachable!()
}

// The forms of the named rows, in order: in a bounded class the tokens of each state, else in a plain one the effect
// of each label with an arc. Each is written over the columns as the row named `tokens` or `down` is, and not
// divided.
pub(crate) fn forms(
    alloc: Global,
    common: &Common,
    c: CaseSetting<'_>,
    names: &[RowName],
    rows: &[HeldRow<'_>],
    indices: &[u32],
) -> Result<Vec<NamedForm>, FoldStop>
    requires tree { IsTreeOf c.setting.lts.now c.setting.tree.now }
    requires labels { labels_of c.setting.basis.now ≡ labels c.setting.lts.now }
    requires common { IsCommonOf (shown_setting c.setting) common.now }
    requires names { AreNamesWithin (shown_case c) names.now }
    requires rows { each (fold_of (shown_case c)) names.now (Ok (map kept_row (map row_in rows.now))) }
    requires one_each { length rows.now ≡ length names.now }
    requires indices { length indices.now ≡ length rows.now }
    ensures comes { Comes (each (form_fold (shown_setting c.entry.setting)) (forms_in c.entry.setting.class names.now)) (λ v. map linear_form v.items) result }
    ensures forms { IfOk result (λ v. map split_of v.items ≡ forms_in c.entry.setting.class names.now) }
    ensures made { IfOk result (λ v. All (IsMade c.entry.setting.lts.now c.entry.setting.class (columns_in (shown_setting c.entry.setting)) (map kept_row (map row_in rows.now)) indices.now) v.items) }
{
    let mut forms = Vec::with_capacity(alloc, names.len())?;
    for (i, &name) in names.iter().enumerate() {
        if let Some(form) = form_named(c.setting.class, name) {
            let terms = terms_in_case(alloc, common, c, name)?;
            let named = form_over(
                c.setting.lts,
                c.setting.class,
                form,
                terms.multiple,
                terms,
                rows[i].row(),
                indices[i],
            );
            forms.push(named)?;
        }
    }
    Ok(forms)
}

// The terms of the named row of the case: those that all problems share, or its own, which are written now.
fn terms_in_case(
    alloc: Global,
    common: &Common,
    c: CaseSetting<'_>,
    name: RowName,
) -> Result<FormTerms, FoldStop>
    requires tree { IsTreeOf c.setting.lts.now c.setting.tree.now }
    requires labels { labels_of c.setting.basis.now ≡ labels c.setting.lts.now }
    requires common { IsCommonOf (shown_setting c.setting) common.now }
    requires within { IsNameWithin (shown_case c) name }
    ensures comes { Comes (terms_fold (shown_setting c.entry.setting) (row_expression c.entry.setting.lts.now c.entry.setting.class c.entry.problem c.entry.number [] name).terms) terms_of result }
    ensures one_each { IfOk result (λ t. length t.coeffs.items ≡ columns_in (shown_setting c.entry.setting)) }
{
    match common.terms(name) {
        Some(Ok(terms)) => Ok(copy_terms(alloc, terms)?),
        Some(Err(wide)) => Err(FoldStop::Wide(*wide)),
        None => {
            let said = case_expression(c, name);
            form_terms(alloc, c.setting, &common.columns, &said)
        }
    }
}

// The same terms, with a list of their own.
fn copy_terms(alloc: Global, terms: &FormTerms) -> Result<FormTerms, AllocError>
    ensures { IfOk result (λ t. terms_of t ≡ terms_of terms.now) }
{
    let coeffs = terms.coeffs.to_vec(alloc)?;
    Ok(FormTerms {
        multiple: terms.multiple,
        coeffs,
    })
}

// The form that has the terms of this row, where it is one of the class's.
fn form_named(class: Class, name: RowName) -> Option<Form>
    ensures { result ≡ form_in class name }
{
    match name {
        RowName::Tokens(q) if class.bound.is_some() => Some(Form::Tokens(q)),
        RowName::Down(t) if class.plain && class.bound.is_none() => Some(Form::Effect(t)),
        _ => None,
    }
}

// The form with these terms, of whose numbers those of the row are a part.
fn form_over(
    lts: &Lts,
    class: Class,
    form: Form,
    scale: i128,
    terms: FormTerms,
    row: &CaseRow,
    index: u32,
) -> NamedForm
    requires { (d : ℕ) × (0 < d) × (terms.coeffs.items ≡ map (λ z. pos d *ℤ z) row.now.coeffs.items) }
    ensures form { result.form ≡ form }
    ensures numbers { (result.scale ≡ scale) × (result.coeffs.items ≡ terms.coeffs.items) }
    ensures bounds { (result.low ≡ form_low form) × (result.high ≡ form_high lts.now class form) }
    ensures row { IsPartOf result row.now.coeffs.items index }
    ensures in_range { InRange result.times }
{
    let times = times(&terms.coeffs, &row.coeffs);
    NamedForm {
        form,
        scale,
        coeffs: terms.coeffs,
        low: low(form),
        high: high(lts, class, form),
        row: if times == 0 { 0 } else { index },
        times,
    }
}

// The least that a form may be.
fn low(form: Form) -> i64
    ensures { result ≡ form_low form }
{
    match form {
        Form::Tokens(_) | Form::Start => 0,
        Form::Effect(_) => -1,
    }
}

// The most that a form of the class may be.
fn high(lts: &Lts, class: Class, form: Form) -> i64
    ensures { result ≡ form_high lts.now class form }
{
    match form {
        Form::Tokens(_) => class.bound.map_or(0, i64::from),
        Form::Effect(_) => 1,
        Form::Start => class.bound.map_or(i64::from(lts.states()), i64::from),
    }
}

// How many times the parts the numbers are, 0 where all are 0.
fn times(numbers: &[i128], parts: &[i128]) -> i128
    requires times { (d : ℕ) × (0 < d) × (numbers.now ≡ map (λ z. pos d *ℤ z) parts.now) }
    requires in_range { All InRange numbers.now }
    ensures in_range { InRange result }
    ensures times { (d : ℕ) → 0 < d → numbers.now ≡ map (λ z. pos d *ℤ z) parts.now → ((result ≡ pos d) × ¬ IsZeroVector numbers.now) ⊎ ((result ≡ pos 0) × IsZeroVector numbers.now) }
{
    for (i, number) in numbers.iter().enumerate() {
        if *number != 0 {
            return *number / parts[i];
        }
    }
    0
}

//! What right lines say.
ghost use Rattle.std.specs.Prelude.{◌≡◌, ◌<◌, ◌++◌, ◌∷◌, [], length, slice_index_or, Contains};
ghost use Rattle.std.specs.Fmt.{signed_decimal};
ghost use Rattle.rg_theory.specs.System.{states, labels};
ghost use Rattle.rg_cert_data.specs.Trees.{named_row};
ghost use Rattle.rg_cert_data.specs.Certificates.{IsMultiplierInRange, IsSplitInRange, IsRowNameOf, IsRowOf};
ghost use Rattle.rg_cert.specs.Text.{Version, Subject.of_none, Subject.of_state, Subject.of_label, state_name, label_name, word_and_subject, row_fields, named_fields};
ghost use Rattle.rg_cert.specs.Lines.{lone_words, state_words, label_words, Position.at_reason, Next.to, follows, Field.state as state_field, Field.label as label_field, Field.number as number_field, Range.multiplier as multiplier_range, Range.split_value as split_range, Range.depth as depth_range};
ghost use Rattle.rg_cert.specs.Drafts.{IsGoodAt, IsGood, IsSplitLine, head_fields, IsHeadOf, IsHeadForm, after_head};
ghost use Rattle.rg_cert.specs.View.{texts_in, line_form_in, head_in};
ghost use Rattle.rg_cert.specs.declared.table.LineForm.TheVariants as of_line;

use crate::draft::Head;
use crate::names::{label_of, state_of};
use crate::numerals::{depth, multiplier, split_value};
use crate::table::{LineForm, RowForm};
use rg_cert_meaning::{Form, RowName};
use rg_lts::Lts;
use rg_theory::Arc;

// A field.
pub(crate) fn text_at<'a>(texts: &[&'a [u8]], i: usize) -> &'a [u8]
    requires { i < length (texts_in texts.now) }
    ensures { result.now ≡ slice_index_or (texts_in texts.entry.now) i [] }
{
    texts[i]
}

// The state that a field names.
pub(crate) fn state_at(texts: &[&[u8]], i: usize, lts: &Lts) -> u32
    requires { IsGoodAt lts.now (texts_in texts.now) i state_field }
    ensures { (result < states lts.now) × (slice_index_or (texts_in texts.now) i [] ≡ state_name lts.now result) }
{
    state_of(text_at(texts, i), lts)
}

// The label that a field names.
pub(crate) fn label_at(texts: &[&[u8]], i: usize, lts: &Lts) -> u32
    requires { IsGoodAt lts.now (texts_in texts.now) i label_field }
    ensures { (result < labels lts.now) × (slice_index_or (texts_in texts.now) i [] ≡ label_name lts.now result) }
{
    label_of(text_at(texts, i), lts)
}

// The row with this word, which speaks of nothing.
fn lone_row(word: &[u8]) -> RowName
    requires { Contains lone_words word.now }
    ensures { word_and_subject result ≡ (word.now, of_none) }
{
    if word == b"block".as_slice() {
        RowName::Block
    } else if word == b"empty".as_slice() {
        RowName::Empty
    } else if word == b"keep".as_slice() {
        RowName::Keep
    } else {
        RowName::Apart
    }
}

// The row with this word, which speaks of a state.
fn state_row(word: &[u8], q: u32) -> RowName
    requires { Contains state_words word.now }
    ensures { word_and_subject result ≡ (word.now, of_state q) }
{
    if word == b"tokens".as_slice() {
        RowName::Tokens(q)
    } else if word == b"cap".as_slice() {
        RowName::Cap(q)
    } else if word == b"stop".as_slice() {
        RowName::Stop(q)
    } else {
        RowName::Full(q)
    }
}

// The row with this word, which speaks of a label.
fn label_row(word: &[u8], t: u32) -> RowName
    requires { Contains label_words word.now }
    ensures { word_and_subject result ≡ (word.now, of_label t) }
{
    if word == b"up".as_slice() {
        RowName::Up(t)
    } else if word == b"down".as_slice() {
        RowName::Down(t)
    } else {
        RowName::Makes(t)
    }
}

// The row that a line names.
fn row_name(row: RowForm, texts: &[&[u8]], lts: &Lts) -> RowName
    requires { IsGood lts.now (line_form_in (of_line.Row row)) (texts_in texts.now) }
    ensures names { IsRowNameOf lts.now result }
    ensures fields { texts_in texts.now ≡ slice_index_or (texts_in texts.now) 0 [] ∷ row_fields lts.now result }
{
    match row {
        RowForm::Lone => lone_row(text_at(texts, 1)),
        RowForm::Arc => RowName::Arc(Arc {
            from: state_at(texts, 2, lts),
            label: label_at(texts, 3, lts),
            to: state_at(texts, 4, lts),
        }),
        RowForm::State => state_row(text_at(texts, 1), state_at(texts, 2, lts)),
        RowForm::Label => label_row(text_at(texts, 1), label_at(texts, 2, lts)),
        RowForm::Depth => RowName::Above(depth(text_at(texts, 2))),
    }
}

// The row that a line gives, with its multiplier.
pub(crate) fn row_of(row: RowForm, texts: &[&[u8]], lts: &Lts) -> (RowName, i128)
    requires { IsGood lts.now (line_form_in (of_line.Row row)) (texts_in texts.now) }
    ensures row { IsRowOf lts.now (named_row result) }
    ensures fields { texts_in texts.now ≡ named_fields lts.now (named_row result) }
{
    (row_name(row, texts, lts), multiplier(text_at(texts, 0)))
}

// What a split of tokens says.
pub(crate) fn tokens_split(texts: &[&[u8]], lts: &Lts) -> (Form, i64)
    requires { IsGood lts.now (line_form_in of_line.SplitTokens) (texts_in texts.now) }
    ensures { IsSplitLine lts.now (texts_in texts.now) result.0 result.1 }
{
    (
        Form::Tokens(state_at(texts, 2, lts)),
        split_value(text_at(texts, 3)),
    )
}

// What a split of an effect says.
pub(crate) fn effect_split(texts: &[&[u8]], lts: &Lts) -> (Form, i64)
    requires { IsGood lts.now (line_form_in of_line.SplitEffect) (texts_in texts.now) }
    ensures { IsSplitLine lts.now (texts_in texts.now) result.0 result.1 }
{
    (
        Form::Effect(label_at(texts, 2, lts)),
        split_value(text_at(texts, 3)),
    )
}

// What a split of the start says.
pub(crate) fn start_split(texts: &[&[u8]], lts: &Lts) -> (Form, i64)
    requires { IsGood lts.now (line_form_in of_line.SplitStart) (texts_in texts.now) }
    ensures { IsSplitLine lts.now (texts_in texts.now) result.0 result.1 }
{
    (Form::Start, split_value(text_at(texts, 2)))
}

// The reason that a line begins.
pub(crate) fn head_of(form: LineForm, texts: &[&[u8]], lts: &Lts) -> Head
    requires good { IsGood lts.now (line_form_in form) (texts_in texts.now) }
    requires form { IsHeadForm (line_form_in form) }
    ensures head { IsHeadOf lts.now (head_in result) }
    ensures fields { texts_in texts.now ≡ head_fields lts.now (head_in result) }
    ensures leads { (version : Version) → follows (at_reason version) (line_form_in form) ≡ to (after_head version (head_in result)) }
{
    match form {
        LineForm::Unreachable => Head::Unreachable(state_at(texts, 1, lts)),
        LineForm::Fork => Head::Fork(
            state_at(texts, 1, lts),
            label_at(texts, 2, lts),
            state_at(texts, 3, lts),
            state_at(texts, 4, lts),
        ),
        LineForm::Event => Head::Event(state_at(texts, 1, lts), label_at(texts, 2, lts)),
        LineForm::States => Head::States(state_at(texts, 1, lts), state_at(texts, 2, lts)),
        _ => unreachable!(),
    }
}

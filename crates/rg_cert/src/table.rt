//! The forms of the lines after the second, as a table.
ghost use Rattle.std.specs.Prelude.{◌≡◌, map, Contains, IsTrue, ◌↔◌, IfSome, IfNone};
ghost use Rattle.rg_cert.specs.declared.table.LineForm.{LineForm};
ghost use Rattle.rg_cert.specs.declared.table.LineForm.TheVariants as of_line;
ghost use Rattle.rg_cert.specs.Lines.{fields_of, IsIn, HasFieldForm, IsFieldInRange, IsFieldKnown, AreAsked};
ghost use Rattle.rg_cert.specs.View.{range_in, texts_in, field_in, line_form_in};

use crate::names::{label_in, state_in};
use crate::numerals::{is_numeral, number};
use rg_lts::Lts;
use rg_text::is_name;

/// The ranges of numbers.
#[derive(Clone, Copy, Debug, PartialEq, Eq)]
pub(crate) enum Range {
    Multiplier,
    Split,
    Depth,
}

/// What a field of a line must be.
#[derive(Clone, Copy, Debug)]
pub(crate) enum Field {
    Word(&'static [u8]),
    /// One of these words.
    OneOf(&'static [&'static [u8]]),
    State,
    Label,
    Number(Range),
}

/// The rows of a leaf, by what they speak of: nothing, an arc, a state, a label, or the depth of a split.
#[derive(Clone, Copy, Debug, PartialEq, Eq)]
pub(crate) enum RowForm {
    Lone,
    Arc,
    State,
    Label,
    Depth,
}

/// The forms of lines.
#[derive(Clone, Copy, Debug, PartialEq, Eq)]
pub(crate) enum LineForm {
    Unreachable,
    Fork,
    Event,
    States,
    Case,
    SplitTokens,
    SplitEffect,
    SplitStart,
    Leaf,
    Row(RowForm),
    End,
}

const FORMS: [LineForm; 15] = [
    LineForm::Unreachable,
    LineForm::Fork,
    LineForm::Event,
    LineForm::States,
    LineForm::Case,
    LineForm::SplitTokens,
    LineForm::SplitEffect,
    LineForm::SplitStart,
    LineForm::Leaf,
    LineForm::Row(RowForm::Lone),
    LineForm::Row(RowForm::Arc),
    LineForm::Row(RowForm::State),
    LineForm::Row(RowForm::Label),
    LineForm::Row(RowForm::Depth),
    LineForm::End,
];

impl LineForm {
    // The fields of a line of this form.
    pub(crate) fn fields(self) -> &'static [Field]
        ensures { map field_in result.now ≡ fields_of (line_form_in self) }
    {
        match self {
            LineForm::Unreachable => &[Field::Word(b"unreachable"), Field::State],
            LineForm::Fork => &[
                Field::Word(b"fork"),
                Field::State,
                Field::Label,
                Field::State,
                Field::State,
            ],
            LineForm::Event => &[Field::Word(b"event"), Field::State, Field::Label],
            LineForm::States => &[Field::Word(b"states"), Field::State, Field::State],
            LineForm::Case => &[Field::Word(b"case")],
            LineForm::SplitTokens => &[
                Field::Word(b"split"),
                Field::Word(b"tokens"),
                Field::State,
                Field::Number(Range::Split),
            ],
            LineForm::SplitEffect => &[
                Field::Word(b"split"),
                Field::Word(b"effect"),
                Field::Label,
                Field::Number(Range::Split),
            ],
            LineForm::SplitStart => &[
                Field::Word(b"split"),
                Field::Word(b"start"),
                Field::Number(Range::Split),
            ],
            LineForm::Leaf => &[Field::Word(b"leaf")],
            LineForm::Row(row) => row.fields(),
            LineForm::End => &[Field::Word(b"end")],
        }
    }
}

impl RowForm {
    // The fields of a row's line: a multiplier, the row's word, and what it speaks of.
    fn fields(self) -> &'static [Field]
        ensures { map field_in result.now ≡ fields_of (line_form_in (of_line.Row self)) }
    {
        match self {
            RowForm::Lone => &[
                Field::Number(Range::Multiplier),
                Field::OneOf(&[b"block", b"empty", b"keep", b"apart"]),
            ],
            RowForm::Arc => &[
                Field::Number(Range::Multiplier),
                Field::Word(b"arc"),
                Field::State,
                Field::Label,
                Field::State,
            ],
            RowForm::State => &[
                Field::Number(Range::Multiplier),
                Field::OneOf(&[b"tokens", b"cap", b"stop", b"full"]),
                Field::State,
            ],
            RowForm::Label => &[
                Field::Number(Range::Multiplier),
                Field::OneOf(&[b"up", b"down", b"makes"]),
                Field::Label,
            ],
            RowForm::Depth => &[
                Field::Number(Range::Multiplier),
                Field::Word(b"above"),
                Field::Number(Range::Depth),
            ],
        }
    }
}

impl Field {
    // Whether the text has the form of the field.
    fn fits(self, text: &[u8]) -> bool
        ensures { IsTrue result ↔ HasFieldForm (field_in self) text.now }
    {
        match self {
            Field::Word(word) => text == word,
            Field::OneOf(words) => is_one_of(words, text),
            Field::State | Field::Label => is_name(text),
            Field::Number(_) => is_numeral(text),
        }
    }
}

// Whether the text is one of the words.
fn is_one_of(words: &[&[u8]], text: &[u8]) -> bool
    ensures { IsTrue result ↔ Contains (texts_in words.now) text.now }
{
    match words {
        [] => false,
        [word, words @ ..] => text == *word || is_one_of(words, text),
    }
}

// Whether each text has the form of its field, and there are no more of them.
fn fit(fields: &[Field], texts: &[&[u8]]) -> bool
    ensures { IsTrue result ↔ AreAsked HasFieldForm (map field_in fields.now) (map (λ w. w.now) texts.now) }
{
    match fields {
        [] => texts.is_empty(),
        [field, fields @ ..] => match texts {
            [] => false,
            [text, texts @ ..] => field.fits(text) && fit(fields, texts),
        },
    }
}

// The form of a line with these fields.
pub(crate) fn form_of(texts: &[&[u8]]) -> Option<LineForm>
    ensures some { IfSome result (λ form. AreAsked HasFieldForm (fields_of (line_form_in form)) (map (λ w. w.now) texts.now)) }
    ensures none { IfNone result ((form : LineForm) → ¬ AreAsked HasFieldForm (fields_of (line_form_in form)) (map (λ w. w.now) texts.now)) }
{
    for form in &FORMS {
        if fit(form.fields(), texts) {
            return Some(*form);
        }
    }
    None
}

impl Range {
    // Whether the number is in the range.
    fn has(self, z: i128) -> bool
        ensures { IsTrue result ↔ IsIn (range_in self) z }
    {
        match self {
            Range::Multiplier => z != i128::MIN,
            Range::Split => z > i64::MIN as i128 && z <= i64::MAX as i128,
            Range::Depth => z >= 0 && z <= u32::MAX as i128,
        }
    }
}

impl Field {
    // Whether the text, if it is a number, is one in its range.
    fn is_in_range(self, text: &[u8]) -> bool
        requires { HasFieldForm (field_in self) text.now }
        ensures { IsTrue result ↔ IsFieldInRange (field_in self) text.now }
    {
        match self {
            Field::Number(range) => match number(text) {
                Some(z) => range.has(z),
                None => false,
            },
            _ => true,
        }
    }

    // Whether the text, if it is a name, is that of a state or label.
    fn is_known(self, text: &[u8], lts: &Lts) -> bool
        requires { HasFieldForm (field_in self) text.now }
        ensures { IsTrue result ↔ IsFieldKnown lts.now (field_in self) text.now }
    {
        match self {
            Field::State => state_in(text, lts).is_some(),
            Field::Label => label_in(text, lts).is_some(),
            _ => true,
        }
    }
}

// Whether the numbers of a line are in their ranges.
pub(crate) fn are_in_range(fields: &[Field], texts: &[&[u8]]) -> bool
    requires { AreAsked HasFieldForm (map field_in fields.now) (map (λ w. w.now) texts.now) }
    ensures { IsTrue result ↔ AreAsked IsFieldInRange (map field_in fields.now) (map (λ w. w.now) texts.now) }
{
    match fields {
        [] => true,
        [field, fields @ ..] => match texts {
            [] => false,
            [text, texts @ ..] => field.is_in_range(text) && are_in_range(fields, texts),
        },
    }
}

// Whether the names of a line are those of states and labels.
pub(crate) fn are_known(fields: &[Field], texts: &[&[u8]], lts: &Lts) -> bool
    requires { AreAsked HasFieldForm (map field_in fields.now) (map (λ w. w.now) texts.now) }
    ensures { IsTrue result ↔ AreAsked (IsFieldKnown lts.now) (map field_in fields.now) (map (λ w. w.now) texts.now) }
{
    match fields {
        [] => true,
        [field, fields @ ..] => match texts {
            [] => false,
            [text, texts @ ..] => field.is_known(text, lts) && are_known(fields, texts, lts),
        },
    }
}

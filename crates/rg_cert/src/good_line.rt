//! The next line of a text, where it is right.
ghost use Rattle.std.specs.Prelude.{◌≡◌, ◌≢◌, ◌++◌, ◌∷◌, map, List, ℕ, IfOk, IfErr, OnOk};
ghost use Rattle.rg_cert.specs.declared.fault.CertFault.TheVariants as fault;
ghost use Rattle.rg_cert.specs.declared.position.Position.TheVariants as of_position;
ghost use Rattle.rg_cert.specs.Lines.{HasFieldForm, AreAsked, fields_of};
ghost use Rattle.rg_cert.specs.Faults.{IsRight, IsFaultAt};
ghost use Rattle.rg_cert.specs.Drafts.{IsNextLine, IsWrong};
ghost use Rattle.rg_cert.specs.View.{line_form_in, position_in, HasFewDue};

use crate::fault::CertFault;
use crate::lines::{first_fields, first_line};
use crate::position::{Next, Position};
use crate::table::{LineForm, are_in_range, are_known, form_of};
use rg_lts::Lts;
use std::alloc::Global;

/// A line that is right, and what follows it.
#[derive(Debug, Drop)]
pub(crate) struct GoodLine<'a> {
    pub(crate) form: LineForm,
    /// Its fields.
    pub(crate) texts: Vec<&'a [u8]>,
    /// The position of the next line.
    pub(crate) to: Position,
    pub(crate) rest: &'a [u8],
}

// The line, of this number, with which the text goes on at a position.
pub(crate) fn good_line<'a>(
    alloc: Global,
    text: &'a [u8],
    number: u32,
    position: Position,
    lts: &Lts,
) -> Result<GoodLine<'a>, CertFault>
    requires small { HasFewDue position 4294967294 }
    requires going { position ≢ of_position.End }
    ensures ok { IfOk result (λ g. IsNextLine lts.now (position_in position) text.entry.now (line_form_in g.form) (map (λ w. w.now) g.texts.items) (position_in g.to) g.rest.now) }
    ensures err { IfErr result (λ e. e ≢ fault.NoMemory → IsFaultAt lts.now (position_in position) text.entry.now number e) }
{
    let Some((line, rest)) = first_line(text) else {
        return Err(CertFault::Expected(number));
    };
    let texts = first_fields(alloc, line)?;
    let Some(form) = form_of(&texts) else {
        return Err(CertFault::Expected(number));
    };
    let next = position.next(form);
    if let Next::Refused = next {
        return Err(CertFault::Expected(number));
    }
    check(form, &texts, lts, number)?;
    match next {
        Next::To(to) => Ok(GoodLine {
            form,
            texts,
            to,
            rest,
        }),
        Next::Short => Err(CertFault::TreeShort),
        Next::Long => Err(CertFault::TreeLong),
        Next::Refused => Err(CertFault::Expected(number)),
    }
}

// The numbers of a line, and then its names.
fn check(form: LineForm, texts: &[&[u8]], lts: &Lts, number: u32) -> Result<(), CertFault>
    requires { AreAsked HasFieldForm (fields_of (line_form_in form)) (map (λ w. w.now) texts.now) }
    ensures ok { OnOk result (IsRight lts.now (line_form_in form) (map (λ w. w.now) texts.now)) }
    ensures err { IfErr result (IsWrong lts.now (line_form_in form) (map (λ w. w.now) texts.now) number) }
{
    if !are_in_range(form.fields(), texts) {
        return Err(CertFault::NumberPasses(number));
    }
    if !are_known(form.fields(), texts, lts) {
        return Err(CertFault::UnknownName(number));
    }
    Ok(())
}

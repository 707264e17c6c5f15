//! The rows that speak of no problem.
ghost use Rattle.std.specs.Prelude.{◌≡◌, []};
ghost use Rattle.rg_cert_meaning.specs.Row.{shared_expression};
ghost use Rattle.rg_cert_data.specs.Sums.{expression_of};
ghost use Rattle.rg_rows.specs.Sharing.{row_of_kind, rows_of_kind, forms_of_kind};

use rg_case_parts::has_start;
use rg_cert_data::{Expression, ProblemCase, expression};
use rg_cert_meaning::RowName;
use rg_lts::Lts;
use rg_theory::{Class, Problem};

// A kind of rows that speak of no problem: `Tokens` and `Cap` have one by state, the others one by label.
#[derive(Clone, Copy)]
pub(crate) enum Kind {
    Tokens,
    Cap,
    Up,
    Down,
    Makes,
}

impl Kind {
    // The row of this state or label.
    pub(crate) fn name(self, number: u32) -> RowName
        ensures { result ≡ row_of_kind self number }
    {
        match self {
            Kind::Tokens => RowName::Tokens(number),
            Kind::Cap => RowName::Cap(number),
            Kind::Up => RowName::Up(number),
            Kind::Down => RowName::Down(number),
            Kind::Makes => RowName::Makes(number),
        }
    }

    // What it says, whatever the problem is.
    pub(crate) fn expression(self, lts: &Lts, class: Class, number: u32) -> Expression
        ensures { expression_of result ≡ shared_expression lts.now class [] (row_of_kind self number) }
    {
        let any = ProblemCase {
            class,
            problem: Problem::States(0, 0),
            number: 0,
        };
        expression(lts, any, &[], self.name(number))
    }

    // How many rows of the kind the class has, where each label has an arc.
    pub(crate) fn rows(self, lts: &Lts, class: Class) -> u32
        ensures { result ≡ rows_of_kind lts.now class self }
    {
        match self {
            Kind::Tokens if has_start(class) => lts.states(),
            Kind::Cap if class.bound.is_some() => lts.states(),
            Kind::Up | Kind::Down if class.plain => lts.labels(),
            Kind::Makes if class.nonbranching => lts.labels(),
            _ => 0,
        }
    }

    // How many forms with the terms of rows of the kind it has.
    pub(crate) fn forms(self, lts: &Lts, class: Class) -> u32
        ensures { result ≡ forms_of_kind lts.now class self }
    {
        match self {
            Kind::Tokens if class.bound.is_some() => lts.states(),
            Kind::Down if class.plain && class.bound.is_none() => lts.labels(),
            _ => 0,
        }
    }
}

//! What the named rows say.
ghost use Rattle.std.specs.Prelude.{◌≡◌, ◌<◌, ◌^◌, [], ◌∷◌, pos, ◌*ℤ◌, unsigned_abs};
ghost use Rattle.rg_integers.specs.Range.{InRange};
ghost use Rattle.rg_cert_meaning.specs.Row.{row_expression, shared_expression, event_expression, state_expression, apart_expression, side_expression};
ghost use Rattle.rg_cert_meaning.specs.Expression.{sum_of};
ghost use Rattle.rg_cert_data.specs.Sums.{term_of, terms_in, expression_of};

use crate::problem_case::ProblemCase;
use crate::sum::Expression;
use crate::term::Term::{self, Minus, Plus};
use rg_cert_meaning::Variable::{Effect, Tokens};
use rg_cert_meaning::{RowName, Side};
use rg_lts::Lts;
use rg_theory::{Class, Problem};

/// Returns what the row says in the case, below the sides of the splits above it: the sum that isn't negative
/// wherever the row holds, and that of an arc is 0 (Badouel, Bernardinello and Darondeau, *Petri Net Synthesis*). The
/// sides are given outermost first; a row that names none needs none. A name that says nothing in the case, such as
/// `Above` beyond the sides, gives the sum of no terms and 0.
pub fn expression(lts: &Lts, case: ProblemCase, above: &[Side], name: RowName) -> Expression
    ensures { expression_of result ≡ row_expression lts.now case.class case.problem case.number above.now name }
{
    match case.problem {
        Problem::Event(s, t) => of_event(lts, case.class, s, t, above, name),
        Problem::States(s, other) => {
            let order = case.order(lts);
            of_states(lts, case.class, s, other, order, above, name)
        },
    }
}

// The rows of the problem of label t at state s.
fn of_event(lts: &Lts, class: Class, s: u32, t: u32, above: &[Side], name: RowName) -> Expression
    ensures { expression_of result ≡ event_expression lts.now class s t above.now name }
{
    match name {
        RowName::Stop(q) => two(Plus(Tokens(q)), Minus(Tokens(s)), -1),
        RowName::Block => two(Minus(Tokens(s)), Minus(Effect(t)), -1),
        RowName::Empty => one(Minus(Tokens(s)), 0),
        RowName::Full(q) => one(Plus(Tokens(q)), -1),
        RowName::Keep => one(Minus(Effect(t)), 0),
        _ => expression_of_shared(lts, class, above, name),
    }
}

// The rows of the problem of two states, of which the first has fewer tokens at order 0, and else the second.
fn of_states(
    lts: &Lts,
    class: Class,
    s: u32,
    other: u32,
    order: u32,
    above: &[Side],
    name: RowName,
) -> Expression
    ensures { expression_of result ≡ state_expression lts.now class s other order above.now name }
{
    match name {
        RowName::Apart => apart(s, other, order),
        _ => expression_of_shared(lts, class, above, name),
    }
}

// The one state has fewer tokens than the other.
fn apart(s: u32, other: u32, order: u32) -> Expression
    ensures { expression_of result ≡ apart_expression s other order }
{
    if order == 0 {
        two(Plus(Tokens(other)), Minus(Tokens(s)), -1)
    } else {
        two(Plus(Tokens(s)), Minus(Tokens(other)), -1)
    }
}

// The rows that speak of no problem.
fn expression_of_shared(lts: &Lts, class: Class, above: &[Side], name: RowName) -> Expression
    ensures { expression_of result ≡ shared_expression lts.now class above.now name }
{
    match name {
        RowName::Arc(a) => sum(
            [
                Some(Plus(Tokens(a.from))),
                Some(Plus(Effect(a.label))),
                Some(Minus(Tokens(a.to))),
            ],
            0,
        ),
        RowName::Tokens(q) => one(Plus(Tokens(q)), 0),
        RowName::Cap(q) => {
            let bound = class.bound.unwrap_or(0);
            one(Minus(Tokens(q)), i128::from(bound))
        }
        RowName::Up(t) => one(Minus(Effect(t)), 1),
        RowName::Down(t) => one(Plus(Effect(t)), 1),
        RowName::Makes(t) => one(Plus(Effect(t)), 0),
        RowName::Above(depth) => of_side(lts, class, above.get(depth as usize).copied()),
        _ => sum([None, None, None], 0),
    }
}

// What a split says on its side.
fn of_side(lts: &Lts, class: Class, side: Option<Side>) -> Expression
    ensures { expression_of result ≡ side_expression class lts.now.initial side }
{
    match side {
        Some(side) if side.high => {
            let step = side.form.step(class);
            one(
                Plus(side.form.variable(lts.initial())),
                -steps(step, side.at) - i128::from(step),
            )
        }
        Some(side) => one(
            Minus(side.form.variable(lts.initial())),
            steps(side.form.step(class), side.at),
        ),
        None => sum([None, None, None], 0),
    }
}

// So many steps.
fn steps(step: u8, count: i64) -> i128
    ensures value { result ≡ pos step *ℤ count }
    ensures small { unsigned_abs result < 2 ^ 72 }
{
    i128::from(step) * i128::from(count)
}

// The sum of one term and the constant.
fn one(term: Term, constant: i128) -> Expression
    requires { InRange constant }
    ensures { expression_of result ≡ sum_of (term_of term ∷ []) constant }
{
    sum([Some(term), None, None], constant)
}

// The sum of two terms and the constant.
fn two(first: Term, second: Term, constant: i128) -> Expression
    requires { InRange constant }
    ensures { expression_of result ≡ sum_of (term_of first ∷ term_of second ∷ []) constant }
{
    sum([Some(first), Some(second), None], constant)
}

// The sum of these terms and the constant.
fn sum(terms: [Option<Term>; 3], constant: i128) -> Expression
    requires { InRange constant }
    ensures { expression_of result ≡ sum_of (terms_in terms) constant }
{
    Expression { terms, constant }
}

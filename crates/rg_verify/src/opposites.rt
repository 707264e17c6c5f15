//! Rows in which no two terms are opposite.
ghost use Rattle.std.specs.Prelude.{◌≡◌, ◌↔◌, IsTrue};
ghost use Rattle.rg_cert_meaning.specs.Refutes.{IsSeparationProblem};
ghost use Rattle.rg_cert_data.specs.Certificates.{IsRowNameOf};
ghost use Rattle.rg_cert_data.specs.Sums.{terms_in};
ghost use Rattle.rg_verify.specs.Settings.{expression_in};
ghost use Rattle.rg_verify.specs.Sides.{AreSidesOf};
ghost use Rattle.rg_verify.specs.Terms.{opposite, AreOpposite, IsReducedSum, IsExpressionOf};

use rg_cert_data::{Expression, ProblemCase, Term, expression};
use rg_cert_meaning::{RowName, Side};
use rg_lts::Lts;

/// Returns what a row says in a case of a problem and below the sides above it, where the coefficients of one
/// variable are added up.
pub(crate) fn row_expression(
    lts: &Lts,
    problem_case: ProblemCase,
    above: &[Side],
    name: RowName,
) -> Expression
    requires asked { IsSeparationProblem lts.now problem_case.problem }
    requires sides { AreSidesOf lts.now above.now }
    requires name { IsRowNameOf lts.now name }
    ensures { IsExpressionOf lts.now result (expression_in lts.now problem_case above.now name) }
{
    lts.is_well_formed();
    without_opposites(expression(lts, problem_case, above, name))
}

// The expression without two opposite terms, which cancel: those of an arc from a state to itself, and of a row that
// compares a state with itself.
fn without_opposites(row: Expression) -> Expression
    ensures terms { IsReducedSum (terms_in row.terms) (terms_in result.terms) }
    ensures constant { result.constant ≡ row.constant }
{
    let [first, second, third] = row.terms;
    let constant = row.constant;
    if are_opposite(first, second) {
        Expression {
            terms: [None, None, third],
            constant,
        }
    } else if are_opposite(first, third) {
        Expression {
            terms: [None, second, None],
            constant,
        }
    } else if are_opposite(second, third) {
        Expression {
            terms: [first, None, None],
            constant,
        }
    } else {
        row
    }
}

// Whether both places have a term, and the terms are opposite.
fn are_opposite(first: Option<Term>, other: Option<Term>) -> bool
    ensures { IsTrue result ↔ AreOpposite first other }
{
    match first {
        Some(term) => other == Some(opposite(term)),
        None => false,
    }
}

// The same variable, taken away in place of added.
fn opposite(term: Term) -> Term
    ensures { result ≡ opposite term }
{
    match term {
        Term::Plus(variable) => Term::Minus(variable),
        Term::Minus(variable) => Term::Plus(variable),
    }
}

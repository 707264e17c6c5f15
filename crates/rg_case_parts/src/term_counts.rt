//! How often Start and a label count in terms: the tokens at a state are Start and the effects on the way to it.
ghost use Rattle.std.specs.Prelude.{◌≡◌, ◌<◌, ◌^◌, pos, negsuc, neg_ℤ, ◌*ℤ◌, ◌≤ℤ◌, ◌<ℤ◌, All};
ghost use Rattle.rg_integers.specs.Range.{InRange};
ghost use Rattle.rg_case_folds.specs.Rewriting.{variable_start, variable_count, start_of, count_of};
ghost use Rattle.rg_cert_data.specs.Sums.{term_of, expression_of};
ghost use Rattle.rg_case_parts.specs.StatesNamed.{NamesStateBelow, TermNamesStateBelow};

use rg_cert_data::Expression;
use rg_cert_data::Term::{self, Minus, Plus};
use rg_cert_meaning::Variable;
use rg_spanning::Tree;

/// Returns how often Start, the tokens of the initial state, counts in the terms: once in the tokens at each state,
/// and not in effects (Badouel, Bernardinello and Darondeau, *Petri Net Synthesis*).
pub fn start(expression: &Expression) -> i128
    ensures value { result ≡ start_of (expression_of expression.now).terms }
    ensures in_range { InRange result }
{
    let mut sum = 0;
    for entry in &expression.terms {
        if let Some(term) = entry {
            sum += start_in(*term);
        }
    }
    sum
}

// How often Start counts in the term.
fn start_in(term: Term) -> i128
    ensures value { result ≡ (term_of term).coefficient *ℤ variable_start (term_of term).variable }
    ensures bounds { (negsuc 0 ≤ℤ result) × (result ≤ℤ pos 1) }
{
    match term {
        Plus(Variable::Tokens(_)) => 1,
        Minus(Variable::Tokens(_)) => -1,
        Plus(Variable::Effect(_)) | Minus(Variable::Effect(_)) => 0,
    }
}

/// Returns how often label t counts in the terms: in the tokens at a state as often as the way to the state in the
/// tree has the label, which is the state's Parikh vector there, and in an effect once where it is the label's.
pub fn count(tree: &Tree, expression: &Expression, t: u32) -> i128
    requires label { t < tree.now.labels }
    requires within { All (TermNamesStateBelow tree.now.states) (expression_of expression.now).terms }
    ensures value { result ≡ count_of tree.now.arcs (expression_of expression.now).terms t }
    ensures in_range { InRange result }
{
    let mut sum = 0;
    for entry in &expression.terms {
        if let Some(term) = entry {
            sum += count_in(tree, *term, t);
        }
    }
    sum
}

// How often label t counts in the term.
fn count_in(tree: &Tree, term: Term, t: u32) -> i128
    requires label { t < tree.now.labels }
    requires within { TermNamesStateBelow tree.now.states (term_of term) }
    ensures value { result ≡ (term_of term).coefficient *ℤ variable_count tree.now.arcs (term_of term).variable t }
    ensures bounds { (neg_ℤ (pos (2 ^ 32)) <ℤ result) × (result <ℤ pos (2 ^ 32)) }
{
    match term {
        Plus(variable) => variable_count(tree, variable, t),
        Minus(variable) => -variable_count(tree, variable, t),
    }
}

// How often label t counts in the tokens at a state or the effect of a label.
fn variable_count(tree: &Tree, variable: Variable, t: u32) -> i128
    requires label { t < tree.now.labels }
    requires within { NamesStateBelow tree.now.states variable }
    ensures value { result ≡ variable_count tree.now.arcs variable t }
    ensures bounds { (pos 0 ≤ℤ result) × (result <ℤ pos (2 ^ 32)) }
{
    match variable {
        Variable::Tokens(q) => i128::from(tree.parikh(q)[t as usize]),
        Variable::Effect(u) => i128::from(u == t),
    }
}

//! How often all labels count in terms, term by term.
ghost use Rattle.std.specs.Prelude.{◌≡◌, ℕ, ◌<◌, ◌^◌, pos, ◌+ℤ◌, ◌-ℤ◌, length, slice_index, unsigned_abs, All, IfOk};
ghost use Rattle.rg_integers.specs.Range.{InRange};
ghost use Rattle.rg_integers.specs.Sum.{number_at, only};
ghost use Rattle.rg_case_folds.specs.Rewriting.{count_of};
ghost use Rattle.rg_cert_data.specs.Sums.{term_of, expression_of};
ghost use Rattle.rg_case_parts.specs.StatesNamed.{TermNamesStateBelow};
ghost use Rattle.rg_case_parts.specs.LabelCounts.{CountsTerm};

use rg_cert_data::Expression;
use rg_cert_data::Term::{self, Minus, Plus};
use rg_cert_meaning::Variable;
use rg_spanning::Tree;
use std::alloc::{AllocError, Global};

/// Returns how often each label counts in the terms, as `count` says it: one number for each label, in order. Each
/// term takes one pass over the Parikh vector of its state, or changes the number of its label. Returns an error if
/// memory runs out.
pub fn counts(
    alloc: Global,
    tree: &Tree,
    labels: u32,
    expression: &Expression,
) -> Result<Vec<i128>, AllocError>
    requires labels { labels ≡ tree.now.labels }
    requires within { All (TermNamesStateBelow tree.now.states) (expression_of expression.now).terms }
    ensures one_each { IfOk result (λ v. length v.items ≡ labels) }
    ensures counts { IfOk result (λ v. (t : ℕ) → t < labels → number_at v.items t ≡ count_of tree.now.arcs (expression_of expression.now).terms t) }
    ensures in_range { IfOk result (λ v. (t : ℕ) → t < labels → InRange (number_at v.items t)) }
{
    let mut counts = vec![in alloc; 0; labels as usize]?;
    for entry in &expression.terms {
        if let Some(term) = entry {
            count_term(&mut counts, tree, *term);
        }
    }
    Ok(counts)
}

// Adds how often each label counts in the term.
fn count_term(counts: &mut [i128], tree: &Tree, term: Term)
    requires one_each { length counts.old ≡ tree.now.labels }
    requires within { TermNamesStateBelow tree.now.states (term_of term) }
    requires small { (t : ℕ) → t < length counts.old → unsigned_abs (number_at counts.old t) < 2 ^ 126 }
    ensures { CountsTerm tree.now.arcs (term_of term) counts.old counts.new }
{
    match term {
        Plus(Variable::Tokens(q)) => add(counts, tree.parikh(q)),
        Minus(Variable::Tokens(q)) => subtract(counts, tree.parikh(q)),
        Plus(Variable::Effect(u)) => add_at(counts, u, 1),
        Minus(Variable::Effect(u)) => add_at(counts, u, -1),
    }
}

// Adds each number to the count at its index.
fn add(counts: &mut [i128], numbers: &[u32])
    requires one_each { length counts.old ≡ length numbers.now }
    requires small { (t : ℕ) → t < length counts.old → unsigned_abs (number_at counts.old t) < 2 ^ 126 }
    ensures one_each { length counts.new ≡ length counts.old }
    ensures sums { (t : ℕ) → t < length counts.old → number_at counts.new t ≡ number_at counts.old t +ℤ pos (slice_index numbers.now t) }
    ensures fits { (t : ℕ) → t < length counts.old → slice_index numbers.now t < 2 ^ 32 }
{
    for t in 0..numbers.len() {
        counts[t] += i128::from(numbers[t]);
    }
}

// Subtracts each number from the count at its index.
fn subtract(counts: &mut [i128], numbers: &[u32])
    requires one_each { length counts.old ≡ length numbers.now }
    requires small { (t : ℕ) → t < length counts.old → unsigned_abs (number_at counts.old t) < 2 ^ 126 }
    ensures one_each { length counts.new ≡ length counts.old }
    ensures differences { (t : ℕ) → t < length counts.old → number_at counts.new t ≡ number_at counts.old t -ℤ pos (slice_index numbers.now t) }
    ensures fits { (t : ℕ) → t < length counts.old → slice_index numbers.now t < 2 ^ 32 }
{
    for t in 0..numbers.len() {
        counts[t] -= i128::from(numbers[t]);
    }
}

// Adds the number to the count of label `u`, if there is one.
fn add_at(counts: &mut [i128], u: u32, number: i128)
    requires small { (t : ℕ) → t < length counts.old → unsigned_abs (number_at counts.old t) < 2 ^ 126 }
    requires number { unsigned_abs number < 2 ^ 32 }
    ensures one_each { length counts.new ≡ length counts.old }
    ensures sums { (t : ℕ) → t < length counts.old → number_at counts.new t ≡ number_at counts.old t +ℤ only u number t }
{
    let index = u as usize;
    if index < counts.len() {
        counts[index] += number;
    }
}

//! The sums of rows, multiplied and added up.
ghost use Rattle.std.specs.Prelude.{◌≡◌, ◌↔◌, ◌+◌, ◌<◌, ◌^◌, ◌≤◌, ◌⊎◌, [], ◌∷◌, if◌then◌else◌, IsTrue, IfOk, IfErr, OnOk, MatchOption, Some, pos, ◌+ℤ◌, nat_abs, map, All, Contains, length};
ghost use Rattle.rg_integers.specs.Range.{InRange, greatest};
ghost use Rattle.rg_cert_meaning.specs.Expression.{same_variable};
ghost use Rattle.rg_cert_meaning.specs.Refutes.{IsSeparationProblem, IsSmall};
ghost use Rattle.rg_cert_data.specs.Certificates.{IsRowOf};
ghost use Rattle.rg_cert_data.specs.Trees.{named_row};
ghost use Rattle.rg_verify.specs.Judged.{IsVariableBefore};

use crate::opposites::row_expression;
use crate::verdict::{Defect, comes_before};
use rg_cert_data::{Expression, ProblemCase, Term};
use rg_cert_meaning::{RowName, Side, Variable};
use rg_integers::GREATEST;
use rg_lts::Lts;
use rg_memory::NoMemory;
use std::alloc::{AllocError, AllocFailed, Global};

/// A sum of numbers, and that of their absolute values.
#[derive(Clone, Copy, Debug)]
pub(crate) struct Sum {
    signed: i128,
    size: u128,
    pub ghost within: { nat_abs signed ≤ size },
    pub ghost small: { size < 2 ^ 127 },
}

impl Sum {
    // The sum of no number.
    fn zero() -> Sum
        ensures signed { result.signed ≡ pos 0 }
        ensures size { result.size ≡ 0 }
    {
        Sum { signed: 0, size: 0 }
    }

    fn is_zero(&self) -> bool
        ensures { IsTrue result ↔ (self.now.signed ≡ pos 0) }
    {
        self.signed == 0
    }

    // The sum with one number more; None where the absolute values pass.
    fn plus(self, number: i128) -> Option<Sum>
        ensures { MatchOption result (greatest < self.size + nat_abs number) (λ s. (s.signed ≡ self.signed +ℤ number) × (s.size ≡ self.size + nat_abs number)) }
    {
        let size = self.size + number.unsigned_abs();
        if size > GREATEST.unsigned_abs() {
            return None;
        }
        Some(Sum {
            signed: self.signed + number,
            size,
        })
    }
}

/// Why rows were not added up.
#[derive(Clone, Copy, Debug, PartialEq, Eq)]
pub(crate) enum Stop {
    /// A sum of absolute values passes the greatest.
    Passes,
    /// Memory ran out.
    NoMemory,
}

impl From<AllocError> for Stop {
    ghost use Rattle.rg_verify.specs.declared.sums.Stop.TheVariants as stop;

    ghost from_gives = { λ _ e. e ≡ stop.NoMemory };

    fn from(_: AllocError) -> Stop {
        Stop::NoMemory
    }
}

impl<T: Drop> From<AllocFailed<T>> for Stop {
    ghost use Rattle.rg_verify.specs.declared.sums.Stop.TheVariants as stop;

    ghost from_gives = { λ _ e. e ≡ stop.NoMemory };

    fn from(_: AllocFailed<T>) -> Stop {
        Stop::NoMemory
    }
}

/// The sums of multiplied rows: for each state, for each label, and for the constants. It lists the variables whose
/// sums may be other than 0, so that rows cost no more than what they touch.
#[derive(Debug, Drop)]
pub(crate) struct Sums {
    tokens: Vec<Sum>,
    effects: Vec<Sum>,
    constant: Sum,
    touched: Vec<Variable>,
}

impl Sums {
    ghost use Rattle.rg_verify.specs.Settings.{expression_in};
    ghost use Rattle.rg_verify.specs.Sides.{AreSidesOf};
    ghost use Rattle.rg_cert_data.specs.Sums.{terms_in};
    ghost use Rattle.rg_cert_data.specs.Sums.{term_of};
    ghost use Rattle.rg_verify.specs.Sums.{entry_of, signed_at, HasEntry, IsTidy, HasSameVariables, HasSameEntries, IsTableOf, IsZero, IsClear, AreSumsOf, AddsTerms, AddsRow, PassesByTerms, PassesByRow, IsLeftFirst, HasNoDefect, IsSumDefect};
    ghost use Rattle.rg_verify.specs.declared.sums.Stop.TheVariants as stop;

    /// Returns the table with every sum 0.
    pub(crate) fn new(alloc: Global, lts: &Lts) -> Result<Sums, NoMemory>
        ensures { IfOk result (IsClear lts.now) }
    {
        Ok(Sums {
            tokens: zeros(alloc, lts.states())?,
            effects: zeros(alloc, lts.labels())?,
            constant: Sum::zero(),
            touched: Vec::new(alloc),
        })
    }

    // The entry of a variable.
    fn get(&self, variable: Variable) -> Sum
        requires { HasEntry self.now variable }
        ensures { entry_of self.now variable ≡ Some result }
    {
        match variable {
            Variable::Tokens(q) => self.tokens[q as usize],
            Variable::Effect(t) => self.effects[t as usize],
        }
    }

    // Changes the entry of a variable.
    fn set(&mut self, variable: Variable, sum: Sum)
        requires { HasEntry self.old variable }
        ensures entries { (w : Variable) → entry_of self.new w ≡ (if same_variable variable w then Some sum else entry_of self.old w) }
        ensures variables { HasSameVariables self.old self.new }
        ensures constant { self.new.constant ≡ self.old.constant }
        ensures touched { self.new.touched.items ≡ self.old.touched.items }
    {
        match variable {
            Variable::Tokens(q) => self.tokens[q as usize] = sum,
            Variable::Effect(t) => self.effects[t as usize] = sum,
        }
    }

    // Lists the variable as touched.
    fn touch(&mut self, variable: Variable) -> Result<(), Stop>
        requires tidy { IsTidy self.old }
        requires entry { HasEntry self.old variable }
        ensures tidy { IsTidy self.new }
        ensures same { HasSameEntries self.old self.new }
        ensures constant { self.new.constant ≡ self.old.constant }
        ensures listed { OnOk result (Contains self.new.touched.items variable) }
        ensures cause { IfErr result (λ e. e ≡ stop.NoMemory) }
    {
        if self.get(variable).size == 0 {
            self.touched.push(variable)?;
        }
        Ok(())
    }

    // Adds a term times a number.
    fn add_term(&mut self, term: Term, multiplier: i128) -> Result<(), Stop>
        requires tidy { IsTidy self.old }
        requires entry { HasEntry self.old (term_of term).variable }
        requires multiplier { InRange multiplier }
        ensures tidy { IsTidy self.new }
        ensures variables { HasSameVariables self.old self.new }
        ensures ok { OnOk result (AddsTerms multiplier (term_of term ∷ []) self.old self.new) }
        ensures passes { IfErr result (λ e. e ≡ stop.Passes → PassesByTerms multiplier (term_of term ∷ []) self.old) }
    {
        let variable = term.variable();
        let Some(sum) = self.get(variable).plus(term.times(multiplier)) else {
            return Err(Stop::Passes);
        };
        self.touch(variable)?;
        self.set(variable, sum);
        Ok(())
    }

    // Adds terms times a number.
    fn add_terms(&mut self, terms: &[Option<Term>], multiplier: i128) -> Result<(), Stop>
        requires tidy { IsTidy self.old }
        requires entries { All (λ t. HasEntry self.old t.variable) (terms_in terms.now) }
        requires multiplier { InRange multiplier }
        ensures tidy { IsTidy self.new }
        ensures variables { HasSameVariables self.old self.new }
        ensures ok { OnOk result (AddsTerms multiplier (terms_in terms.now) self.old self.new) }
        ensures passes { IfErr result (λ e. e ≡ stop.Passes → PassesByTerms multiplier (terms_in terms.now) self.old) }
    {
        for place in terms {
            if let Some(term) = place {
                self.add_term(*term, multiplier)?;
            }
        }
        Ok(())
    }

    // Adds a row times a number.
    fn add_row(&mut self, row: &Expression, multiplier: i128) -> Result<(), Stop>
        requires tidy { IsTidy self.old }
        requires entries { All (λ t. HasEntry self.old t.variable) (terms_in row.now.terms) }
        requires multiplier { InRange multiplier }
        ensures tidy { IsTidy self.new }
        ensures variables { HasSameVariables self.old self.new }
        ensures ok { OnOk result (AddsRow multiplier (terms_in row.now.terms) row.now.constant self.old self.new) }
        ensures passes { IfErr result (λ e. e ≡ stop.Passes → PassesByRow multiplier (terms_in row.now.terms) row.now.constant self.old) }
    {
        let Some(number) = multiplier.checked_mul(row.constant) else {
            return Err(Stop::Passes);
        };
        let Some(constant) = self.constant.plus(number) else {
            return Err(Stop::Passes);
        };
        self.constant = constant;
        self.add_terms(&row.terms, multiplier)
    }

    /// Adds up the rows of a leaf, to a table with every sum 0.
    pub(crate) fn add_rows(
        &mut self,
        lts: &Lts,
        problem_case: ProblemCase,
        above: &[Side],
        rows: &[(RowName, i128)],
    ) -> Result<(), Stop>
        requires asked { IsSeparationProblem lts.now problem_case.problem }
        requires sides { AreSidesOf lts.now above.now }
        requires rows { All (IsRowOf lts.now) (map named_row rows.now) }
        requires clear { IsClear lts.now self.old }
        ensures table { IsTableOf lts.now self.new }
        ensures ok { OnOk result (AreSumsOf (expression_in lts.now problem_case above.now) (map named_row rows.now) self.new) }
        ensures passes { IfErr result (λ e. e ≡ stop.Passes → ¬ IsSmall (expression_in lts.now problem_case above.now) (map named_row rows.now)) }
    {
        for (name, multiplier) in rows {
            self.add_row(
                &row_expression(lts, problem_case, above, *name),
                *multiplier,
            )?;
        }
        Ok(())
    }

    // The first variable whose sum isn't 0.
    fn first_nonzero(&self) -> Option<Variable>
        requires { IsTidy self.now }
        ensures { MatchOption result ((v : Variable) → signed_at self.now v ≡ pos 0) (λ v. IsLeftFirst self.now v) }
    {
        let mut first: Option<Variable> = None;
        for variable in &self.touched {
            if !self.get(*variable).is_zero() {
                first = Some(first_of(first, *variable));
            }
        }
        first
    }

    /// Returns what is wrong with the sums of rows, none of which passes.
    pub(crate) fn defect(&self) -> Option<Defect>
        requires { IsTidy self.now }
        ensures { MatchOption result (HasNoDefect self.now) (IsSumDefect self.now) }
    {
        match self.first_nonzero() {
            Some(variable) => Some(Defect::LeftOver(variable)),
            None if self.constant.signed < 0 => None,
            None => Some(Defect::NoContradiction),
        }
    }

    /// Makes every sum 0 again.
    pub(crate) fn clear(&mut self)
        requires { IsTidy self.old }
        ensures tidy { IsTidy self.new }
        ensures variables { HasSameVariables self.old self.new }
        ensures zero { IsZero self.new }
    {
        while let Some(variable) = self.touched.pop() {
            self.set(variable, Sum::zero());
        }
        self.constant = Sum::zero();
    }
}

// The first of a variable, if there is one, and another.
fn first_of(first: Option<Variable>, other: Variable) -> Variable
    ensures { MatchOption first (result ≡ other) (λ v. ((result ≡ v) × IsVariableBefore v other) ⊎ ((result ≡ other) × (¬ IsVariableBefore v other))) }
{
    match first {
        Some(variable) if comes_before(variable, other) => variable,
        _ => other,
    }
}

// So many entries with the sum 0.
fn zeros(alloc: Global, n: u32) -> Result<Vec<Sum>, AllocError>
    ensures length { IfOk result (λ v. length v.items ≡ n) }
    ensures zero { IfOk result (λ v. All (λ s. s.size ≡ 0) v.items) }
{
    let mut sums = Vec::with_capacity(alloc, n as usize)?;
    for _ in 0..n {
        sums.push(Sum::zero())?;
    }
    Ok(sums)
}

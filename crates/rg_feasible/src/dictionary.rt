//! The dictionary of a system, and the descent on it.

ghost use Rattle.std.specs.Prelude.{◌≡◌, ℕ, ◌+◌, ◌^◌, ◌<◌, ◌≤◌, ℤ, pos, ◌≤ℤ◌, length, map, Contains, slice_index, IsOk, IfOk, IfSome, IfNone, OnOk, OnErr};
ghost use Rattle.rg_linear.specs.System.{LinearSystem, AreFarkasMultipliers, with_rows};
ghost use Rattle.rg_linear.specs.Dictionary.{numbers_from, IsFree};
ghost use Rattle.rg_linear.specs.View.{linear_row, linear_system, IsWellFormed};
ghost use Rattle.rg_linear.specs.Width.{IsNarrow};
ghost use Rattle.rg_feasible.specs.Contents.{IsDictionary, columns_alone, SameShape};
ghost use Rattle.rg_fraction.specs.Fractions.{IsValue};
ghost use Rattle.rg_feasible.specs.declared.settled.Settled.TheVariants as ends;
ghost use Rattle.rg_feasible.specs.Settling.{IsDictionaryOf, IsWhole, IsFresh, IsOutcome, IsLeftBy, IsRefutation, IsNotWide, multiplier_with};
ghost use Rattle.rg_linear.specs.Descent.{IsBasicPoint, IsFeasibleAt};

use crate::descent::descend;
use crate::relation_table::RelationTable;
use crate::settled::Settled;
use rg_fraction::Fraction;
use rg_linear::{JoinedSystem, Row, System};
use rg_memory::NoMemory;
use std::alloc::{AllocError, Global};
use std::marker::Model;

/// The dictionary of a system, on which its descent is made: a set of as many variables as there are
/// columns, and the relation of each other variable over it (Chvátal, *Linear Programming*). Variables are
/// columns and rows, numbered columns first.
///
/// The contracts speak of the systems of which it is the dictionary, by `IsDictionaryOf system d`.
#[derive(Drop)]
pub struct Dictionary {
    table: RelationTable,
    stack: Vec<u32>,
    failing: Option<u32>,
}

impl Model for Dictionary {
    ghost use Rattle.std.specs.Prelude.{vec_capacity};
    ghost use Rattle.rg_feasible.specs.View.{DescentState, HasStack};

    ghost Value = { DescentState };

    ghost view = { λ a. record { table = a.table; failing = a.failing } };

    ghost invariant = { λ a. HasStack (record { table = a.table; failing = a.failing }) (vec_capacity a.stack) };
}

impl Dictionary {
    /// Returns the dictionary of the system over its columns. It takes all memory that the descent needs. Returns
    /// `NoMemory` if memory runs out.
    pub fn new(alloc: Global, system: &System) -> Result<Dictionary, NoMemory>
        ensures dictionary { IfOk result (IsDictionaryOf system.now) }
        ensures fresh { IfOk result IsFresh }
    {
        let rows = system.rows();
        let mut dictionary = without_rows(alloc, system.columns(), rows.len() as u32)?;
        add_rows(&mut dictionary.table, rows);
        Ok(dictionary)
    }

    /// Makes it the dictionary of the system with the rows `further` after its own, over its columns, as `new` does.
    /// It takes memory only if it never had so many rows, or has another number of columns. Returns `NoMemory` if
    /// memory runs out; then it is as before.
    pub fn renew(
        &mut self,
        alloc: Global,
        system: &JoinedSystem<'_>,
        further: &[Row],
    ) -> Result<(), NoMemory>
        requires { IsWellFormed (with_rows system.now (map linear_row further.now)) }
        ensures dictionary { OnOk result (IsDictionaryOf (with_rows system.now (map linear_row further.now)) self.new) }
        ensures fresh { OnOk result (IsFresh self.new) }
        ensures succeeds { self.old.table.columns ≡ system.now.columns → length system.now.rows + length further.now ≤ self.old.table.rows + self.old.table.room → IsOk result }
        ensures as_before { OnErr result (self.new ≡ self.old) }
    {
        let (own, shared) = system.lists();
        let count = own.len() + shared.len() + further.len();
        self.restart(alloc, system.columns(), count as u32)?;
        add_rows(&mut self.table, own);
        add_rows(&mut self.table, shared);
        add_rows(&mut self.table, further);
        Ok(())
    }

    // Takes all rows away, and makes room for so many over so many columns.
    fn restart(&mut self, alloc: Global, columns: u32, rows: u32) -> Result<(), AllocError>
        requires { columns + rows < 2 ^ 32 }
        ensures system { OnOk result (IsDictionaryOf (columns_alone columns) self.new) }
        ensures members { OnOk result (self.new.table.members ≡ numbers_from 0 columns) }
        ensures room { OnOk result (rows ≤ self.new.table.room) }
        ensures succeeds { self.old.table.columns ≡ columns → rows ≤ self.old.table.rows + self.old.table.room → IsOk result }
        ensures as_before { OnErr result (self.new ≡ self.old) }
    {
        if self.table.columns() == columns {
            self.table.restart(rows)?;
            self.failing = None;
        } else {
            *self = without_rows(alloc, columns, rows)?;
        }
        Ok(())
    }

    /// Makes the descent, once. Rows are taken in order. One that fails is exchanged with the least variable of the
    /// set that its relation names and that isn't fixed; it is fixed, and the rows before it are taken again from the
    /// first one, before the rows after it are taken. It takes no memory.
    ///
    /// Returns `Settled::Point` exactly if this ends after the last row, `Settled::Refuted` exactly if it reaches a
    /// row that fails and names fixed variables alone, and `Settled::Wide` exactly if it reaches an exchange with a
    /// term out of range, with the first such term. A system has one outcome. On at most 5 columns with numbers below
    /// `2^(2^(6 - columns) - 1)` in absolute value it is never `Wide`.
    pub fn settle(&mut self) -> Settled
        requires fresh { IsFresh self.old }
        ensures outcome { (system : LinearSystem) → IsDictionaryOf system self.old → IsOutcome system self.new.table.members result }
        ensures free { (system : LinearSystem) → IsDictionaryOf system self.old → IsFree system self.new.table.members }
        ensures left { (system : LinearSystem) → IsDictionaryOf system self.old → IsLeftBy system self.new result }
        ensures point { result ≡ ends.Point → (system : LinearSystem) → IsDictionaryOf system self.old → IsFeasibleAt system self.new.table.members }
        ensures refutes { (i : ℕ) → result ≡ ends.Refuted i → (system : LinearSystem) → IsDictionaryOf system self.old → AreFarkasMultipliers system (multiplier_with self.new.table i) }
        ensures shape { SameShape self.old.table self.new.table }
        ensures narrow { (system : LinearSystem) → IsDictionaryOf system self.old → IsNarrow system → IsNotWide result }
    {
        self.stack.clear();
        let settled = descend(&mut self.table, &mut self.stack);
        if let Settled::Refuted(row) = settled {
            self.failing = Some(row);
        }
        settled
    }

    /// Returns member number `i` of the set, in order. After `Settled::Wide` it is the set before the exchange.
    pub fn member(&self, i: u32) -> u32
        requires { i < length self.now.table.members }
        ensures { result ≡ slice_index self.now.table.members i }
    {
        self.table.members()[i as usize]
    }

    /// Returns the value of variable `j`, a column or a row, at the point at which every member is 0.
    pub fn point(&self, j: u32) -> Fraction
        requires whole { IsWhole self.now }
        requires variable { j < self.now.table.columns + self.now.table.rows }
        ensures { (system : LinearSystem) → IsDictionaryOf system self.now → (scale : ℤ) (v : ℕ → ℤ) → IsBasicPoint system self.now.table.members scale v → IsValue result (v j) scale }
    {
        if self.table.contains(j) {
            return Fraction::new(0, 1);
        }
        let numbers = self.table.numbers(j);
        Fraction::new(numbers[1], numbers[0])
    }

    /// Returns the multiplier of a row, after `Settled::Refuted`. The sum of the rows, each times its multiplier, has
    /// no column and a negative constant.
    pub fn multiplier(&self, row: u32) -> i128
        requires refuted { (i : ℕ) × IsRefutation self.now i }
        requires row { row < self.now.table.rows }
        ensures value { (i : ℕ) → IsRefutation self.now i → result ≡ multiplier_with self.now.table i row }
        ensures not_negative { pos 0 ≤ℤ result }
    {
        let Some(failing) = self.failing else {
            unreachable!()
        };
        let columns = self.table.columns();
        let numbers = self.table.numbers(columns + failing);
        if row == failing {
            return numbers[0];
        }
        match index_of(self.table.members(), columns + row) {
            Some(index) => -numbers[index + 2],
            None => 0,
        }
    }
}

// The dictionary of so many columns without a row. It has room for so many rows.
fn without_rows(alloc: Global, columns: u32, rows: u32) -> Result<Dictionary, AllocError>
    requires { columns + rows < 2 ^ 32 }
    ensures system { IfOk result (IsDictionaryOf (columns_alone columns)) }
    ensures members { IfOk result (λ d. d.table.members ≡ numbers_from 0 columns) }
    ensures room { IfOk result (λ d. d.table.room ≡ rows) }
{
    let table = RelationTable::with_columns(alloc, columns, rows)?;
    let stack = Vec::with_capacity(alloc, columns as usize + 1)?;
    Ok(Dictionary {
        table,
        stack,
        failing: None,
    })
}

// Adds rows after those of the table, which is over its columns.
fn add_rows(table: &mut RelationTable, rows: &[Row])
    requires start { table.old.members ≡ numbers_from 0 table.old.columns }
    requires room { length rows.now ≤ table.old.room }
    requires well_formed { IsWellFormed (linear_system table.old.columns rows.now) }
    ensures system { (system : LinearSystem) → IsDictionary system table.old → IsDictionary (with_rows system (map linear_row rows.now)) table.new }
    ensures members { table.new.members ≡ table.old.members }
    ensures columns { table.new.columns ≡ table.old.columns }
    ensures rows { table.new.rows ≡ table.old.rows + length rows.now }
    ensures room { table.new.room + length rows.now ≡ table.old.room }
{
    for row in rows {
        table.push_row(&row.coeffs, row.constant);
    }
}

// The index of the variable among the members.
fn index_of(members: &[u32], variable: u32) -> Option<usize>
    ensures found { IfSome result (λ p. (p < length members.now) × (slice_index members.now p ≡ variable)) }
    ensures first { IfSome result (λ p. (q : ℕ) → q < p → slice_index members.now q ≡ variable → ⊥) }
    ensures none { IfNone result (Contains members.now variable → ⊥) }
{
    for (index, &member) in members.iter().enumerate() {
        if member == variable {
            return Some(index);
        }
    }
    None
}

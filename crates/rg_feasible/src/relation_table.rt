//! The dictionary of a system of linear rows.

ghost use Rattle.std.specs.Prelude.{◌≡◌, ◌≢◌, ◌↔◌, ℕ, ◌+◌, ◌*◌, ◌<◌, ◌^◌, ◌≤◌, max, ◌∷◌, ◌++◌, IsTrue, vec_len, vec_capacity, length, Contains, slice_index, pos, IsOk, IfOk, OnOk, OnErr, MatchResult};
ghost use Rattle.std.specs.List.{insert, remove};
ghost use Rattle.rg_integers.specs.Range.{InRange};
ghost use Rattle.rg_integers.specs.Sum.{number_at};
ghost use Rattle.rg_linear.specs.System.{LinearSystem};
ghost use Rattle.rg_linear.specs.Dictionary.{numbers_from};
ghost use Rattle.rg_linear.specs.Exchange.{exchanged, AllFit, FirstWide};
ghost use Rattle.rg_linear.specs.Table.{ShowsRow};
ghost use Rattle.rg_feasible.specs.Contents.{IsOutside, row_of, IsDictionary, columns_alone, with_row, SameShape};

use crate::table::{ExchangeWide, exchange_table, is_member, new_index};
use std::alloc::{AllocError, Global};
use std::marker::Model;

/// A set of as many variables as a system has columns, and for each other variable its relation over the
/// set: a dictionary in the sense of the simplex method (Chvátal, *Linear Programming*; Schrijver, *Theory
/// of Linear and Integer Programming*), in whole numbers. Variables are columns and rows, columns first.
///
/// The contracts speak of the systems of which it is the dictionary: `IsDictionary system d` says that
/// the members are a free set and that each row shows its variable's relation.
#[derive(Drop)]
pub struct RelationTable {
    columns: u32,
    rows: u32,
    room: u32,
    members: Vec<u32>,
    table: Vec<i128>,
    pivot_row: Vec<i128>,
}

impl Model for RelationTable {
    ghost use Rattle.std.specs.Prelude.{vec_capacity};
    ghost use Rattle.rg_feasible.specs.Contents.{Contents, IsStored};

    ghost Value = { Contents };

    ghost view = { λ a. record { columns = a.columns; rows = a.rows; room = a.room; members = a.members.items; table = a.table.items } };

    ghost invariant = { λ a. IsStored (record { columns = a.columns; rows = a.rows; room = a.room; members = a.members.items; table = a.table.items }) (vec_capacity a.table) a.pivot_row.items };
}

impl RelationTable {
    /// Returns the dictionary of `columns` columns without a row. It takes the memory for `rows` rows, and no later
    /// call but `restart` takes any. Returns `AllocError` if memory runs out.
    pub fn with_columns(alloc: Global, columns: u32, rows: u32) -> Result<RelationTable, AllocError>
        requires { columns + rows < 2 ^ 32 }
        ensures system { IfOk result (IsDictionary (columns_alone columns)) }
        ensures members { IfOk result (λ d. d.members ≡ numbers_from 0 columns) }
        ensures room { IfOk result (λ d. d.room ≡ rows) }
    {
        let width = columns as usize + 2;
        let mut table = Vec::new(alloc);
        make_room(&mut table, columns as usize + rows as usize, width)?;
        table.resize(columns as usize * width, 0i128)?;
        let members = column_numbers(alloc, columns)?;
        let pivot_row = vec![in alloc; 0i128; width]?;
        Ok(RelationTable {
            columns,
            rows: 0,
            room: rows,
            members,
            table,
            pivot_row,
        })
    }

    /// Removes all rows, so that it is the dictionary of its columns alone. It has room for as many rows as before,
    /// or for `rows` if that is more. It takes memory only in that case, and no later call but `restart` takes any.
    /// Returns `AllocError` if memory runs out; then it is as before.
    pub fn restart(&mut self, rows: u32) -> Result<(), AllocError>
        requires { self.old.columns + rows < 2 ^ 32 }
        ensures system { OnOk result (IsDictionary (columns_alone self.old.columns) self.new) }
        ensures members { OnOk result (self.new.members ≡ numbers_from 0 self.old.columns) }
        ensures room { OnOk result (self.new.room ≡ max (self.old.rows + self.old.room) rows) }
        ensures succeeds { rows ≤ self.old.rows + self.old.room → IsOk result }
        ensures as_before { OnErr result (self.new ≡ self.old) }
    {
        let width = self.pivot_row.len();
        let room = (self.rows + self.room).max(rows);
        make_room(
            &mut self.table,
            self.columns as usize + room as usize,
            width,
        )?;
        self.table.truncate(self.columns as usize * width);
        number_columns(&mut self.members);
        self.rows = 0;
        self.room = room;
        Ok(())
    }

    /// Adds a row at the end of the system: the sum of the columns, each times its coefficient, and the
    /// constant. There is one coefficient for each column. It is called before any exchange.
    pub fn push_row(&mut self, coeffs: &[i128], constant: i128)
        requires room { 0 < self.old.room }
        requires before_exchanges { self.old.members ≡ numbers_from 0 self.old.columns }
        requires one_each { length coeffs.now ≡ self.old.columns }
        requires coeffs_in_range { (j : ℕ) → j < length coeffs.now → InRange (number_at coeffs.now j) }
        requires constant_in_range { InRange constant }
        ensures system { (system : LinearSystem) → IsDictionary system self.old → IsDictionary (with_row system coeffs.now constant) self.new }
        ensures columns { self.new.columns ≡ self.old.columns }
        ensures rows { self.new.rows ≡ self.old.rows + 1 }
        ensures room { self.new.room + 1 ≡ self.old.room }
        ensures members { self.new.members ≡ self.old.members }
    {
        append_row(&mut self.table, coeffs, constant);
        self.rows += 1;
        self.room -= 1;
    }

    /// Returns how many columns the system has.
    pub fn columns(&self) -> u32
        ensures { result ≡ self.now.columns }
    {
        self.columns
    }

    /// Returns how many rows the system has.
    pub fn rows(&self) -> u32
        ensures { result ≡ self.now.rows }
    {
        self.rows
    }

    /// Returns how many variables the system has: columns and rows.
    pub fn variables(&self) -> u32
        ensures { result ≡ self.now.columns + self.now.rows }
    {
        self.columns + self.rows
    }

    /// Returns the members of the set, in order.
    pub fn members(&self) -> &[u32]
        ensures { result.now ≡ self.now.members }
    {
        &self.members
    }

    /// Returns whether the variable is a member.
    pub fn contains(&self, variable: u32) -> bool
        ensures { IsTrue result ↔ Contains self.now.members variable }
    {
        is_member(&self.members, variable)
    }

    /// Returns the relation of a variable outside the set: its `d`, which is positive, the constant, and the
    /// coefficients of the members in order. They say that `d` times the variable is the constant and the sum of the
    /// members, each times its coefficient; no number divides them all.
    pub fn numbers(&self, variable: u32) -> &[i128]
        requires { IsOutside self.now variable }
        ensures row { result.now ≡ row_of self.now variable }
        ensures shows { (system : LinearSystem) → IsDictionary system self.now → ShowsRow system self.now.members variable result.now }
        ensures length { length result.now ≡ self.now.columns + 2 }
        ensures in_range { (n : ℕ) → InRange (number_at result.now n) }
    {
        let width = self.pivot_row.len();
        let start = variable as usize * width;
        &self.table[start..start + width]
    }

    /// Exchanges the variable `pivot`, which is outside the set, with the member at this index, whose
    /// coefficient in the relation of `pivot` isn't 0. It takes no memory.
    ///
    /// Refused exactly where a term that it forms is out of range, with the first such one: relations are
    /// renewed in the order of their variables. Then the members are as before, and nothing is said of
    /// the table any more.
    pub fn exchange(&mut self, pivot: u32, index: usize) -> Result<(), ExchangeWide>
        requires pivot { IsOutside self.old pivot }
        requires index { index < length self.old.members }
        requires named { number_at (row_of self.old pivot) (index + 2) ≢ pos 0 }
        ensures exact { (system : LinearSystem) → IsDictionary system self.old → MatchResult result
            (λ _. AllFit system self.old.members pivot (slice_index self.old.members index) × IsDictionary system self.new)
            (λ e. FirstWide system self.old.members pivot (slice_index self.old.members index) e.target e.entry e.wide) }
        ensures members { OnOk result (self.new.members ≡ exchanged self.old.members pivot (slice_index self.old.members index)) }
        ensures members_stay { OnErr result (self.new.members ≡ self.old.members) }
        ensures shape { SameShape self.old self.new }
    {
        let variables = self.columns + self.rows;
        let to = new_index(&self.members, index, pivot);
        match exchange_table(
            &mut self.table,
            &self.members,
            &mut self.pivot_row,
            pivot,
            index,
            to,
            variables,
        ) {
            Ok(()) => {}
            Err(wide) => return Err(wide),
        }
        exchange_members(&mut self.members, index, to, pivot);
        Ok(())
    }
}

// The columns in order.
fn column_numbers(alloc: Global, columns: u32) -> Result<Vec<u32>, AllocError>
    ensures { IfOk result (λ v. v.items ≡ numbers_from 0 columns) }
{
    let mut members = Vec::new(alloc);
    for column in 0..columns {
        members.push(column)?;
    }
    Ok(members)
}

// Makes the columns the members, in order.
fn number_columns(members: &mut [u32])
    requires { length members.old < 2 ^ 32 }
    ensures { members.new ≡ numbers_from 0 (length members.old) }
{
    for column in 0..members.len() {
        members[column] = column as u32;
    }
}

// Makes room for a table of so many variables.
fn make_room(table: &mut Vec<i128>, variables: usize, width: usize) -> Result<(), AllocError>
    ensures items { table.new.items ≡ table.old.items }
    ensures room { OnOk result (variables * width ≤ vec_capacity table.new) }
    ensures capacity { vec_capacity table.old ≤ vec_capacity table.new }
    ensures succeeds { variables * width ≤ vec_capacity table.old → IsOk result }
{
    let Some(size) = variables.checked_mul(width) else {
        return Err(AllocError);
    };
    table.reserve(size.saturating_sub(table.len()))
}

// Adds the numbers of a row: 1, the constant and the coefficients.
fn append_row(table: &mut Vec<i128>, coeffs: &[i128], constant: i128)
    requires { vec_len table.old + length coeffs.now + 2 ≤ vec_capacity table.old }
    ensures items { table.new.items ≡ table.old.items ++ pos 1 ∷ constant ∷ coeffs.now }
    ensures capacity { vec_capacity table.old ≤ vec_capacity table.new }
{
    append(table, &[1, constant]);
    append(table, coeffs);
}

// Adds numbers for which there is room.
fn append(table: &mut Vec<i128>, numbers: &[i128])
    requires { vec_len table.old + length numbers.now ≤ vec_capacity table.old }
    ensures items { table.new.items ≡ table.old.items ++ numbers.now }
    ensures capacity { vec_capacity table.old ≤ vec_capacity table.new }
{
    match table.extend_from_slice(numbers) {
        Ok(()) => {}
        Err(_) => unreachable!(),
    }
}

// The member at an index leaves, and the pivot comes to its index among the others.
fn exchange_members(members: &mut Vec<u32>, index: usize, to: usize, pivot: u32)
    requires index { index < length members.old.items }
    requires new_index { to < length members.old.items }
    ensures { members.new.items ≡ insert (remove members.old.items index) to pivot }
{
    members.remove(index);
    match members.insert(to, pivot) {
        Ok(()) => {}
        Err(_) => unreachable!(),
    }
}

//! A revised dictionary.

ghost use Rattle.std.specs.Prelude.{◌≡◌, ℕ, ◌+◌, ◌*◌, ◌^◌, ◌<◌, ◌≤◌, [], ◌∷◌, ◌++◌, List, length, map, vec_capacity, IfOk, IfSome, ℤ, pos, ◌≤ℤ◌, unsigned_abs};
ghost use Rattle.rg_fraction.specs.Fractions.{IsValue};
ghost use Rattle.rg_linear.specs.System.{LinearSystem, LinearRow, row_variable, row_at, with_rows};
ghost use Rattle.rg_linear.specs.Dictionary.{Relation, DictionaryRow};
ghost use Rattle.rg_linear.specs.Descent.{multiplier_of, IsBasicPoint};
ghost use Rattle.rg_linear.specs.View.{linear_row, linear_system, IsWellFormed};
ghost use Rattle.rg_revised.specs.Basis.{HasNorms};
ghost use Rattle.rg_revised.specs.Lists.{rows_of};
ghost use Rattle.rg_revised.specs.Ending.{EndTells};
ghost use Rattle.rg_revised.specs.Reaching.{IsSavedAt};
ghost use Rattle.rg_revised.specs.State.{HasRoomIn};
ghost use Rattle.rg_revised.specs.Settling.{IsHeldOf, IsAtPoint, IsRefutedAt, IsDescent};

use crate::descent::{Descent, descend};
use crate::factor::divide_by_factor;
use crate::room::Room;
use crate::rows::Rows;
use crate::saved::Saved;
use crate::tableau::Tableau;
use crate::value::{column_value, row_value};
use rg_fraction::Fraction;
use rg_linear::{JoinedSystem, Row, largest_norm};
use std::alloc::{AllocError, Global};
use std::marker::Model;

/// The relations of the columns of a system over a free set: a revised dictionary (Chvátal, *Linear Programming*).
/// Variables are columns and rows, numbered columns first.
///
/// The contracts speak of the systems whose relations it has, by `IsHeldOf system members r`.
#[derive(Drop)]
pub struct Revised {
    tableau: Tableau,
    stack: Vec<u32>,
    failing: Option<u32>,
    factor: i128,
}

impl Model for Revised {
    ghost use Rattle.std.specs.Prelude.{length, vec_capacity};
    ghost use Rattle.rg_revised.specs.View.{RevisedState, IsStored};

    ghost Value = { RevisedState };

    ghost view = { λ a. record { columns = length a.tableau.basis.slots; tableau = a.tableau; failing = a.failing; factor = a.factor } };

    ghost invariant = { λ a. IsStored (record { columns = length a.tableau.basis.slots; tableau = a.tableau; failing = a.failing; factor = a.factor }) (vec_capacity a.stack) };
}

// The greatest number of 64 bits with a sign.
const GREATEST: u64 = i64::MAX as u64;

// The greatest size that the numbers of the table may have where no row's norm passes `norm`.
pub(crate) fn most_for(norm: u64) -> Option<i64>
    ensures some { IfSome result (λ most. (1 ≤ unsigned_abs most) × ((norm + 1) * unsigned_abs most < 2 ^ 63)) }
    ensures not_negative { IfSome result (λ most. pos 0 ≤ℤ most) }
{
    if norm >= GREATEST {
        return None;
    }
    let most = GREATEST / (norm + 1);
    Some(most as i64)
}

// Makes the descent of the system of these rows from the start, with this room.
fn descend_from_start(
    tableau: &mut Tableau,
    columns: u32,
    rows: Rows<'_>,
    stack: &mut Vec<u32>,
    room: Room,
) -> Descent
    requires well_formed { IsWellFormed (linear_system columns (rows_of rows)) }
    requires columns { length tableau.old.basis.slots ≡ columns }
    requires not_negative { pos 0 ≤ℤ room.most }
    requires room { HasRoomIn (linear_system columns (rows_of rows)) room.norm (unsigned_abs room.most) room.long }
    requires stack { columns < vec_capacity stack.old }
    ensures outcome { EndTells (linear_system columns (rows_of rows.entry)) tableau.new result }
    ensures columns { length tableau.new.basis.slots ≡ columns }
    ensures stack { columns < vec_capacity stack.new }
{
    stack.clear();
    tableau.restart(room);
    descend(tableau, columns, rows, stack, 0)
}

// The same, where a short descent may end with a number that is too large: then a long one is made.
fn descend_twice(
    tableau: &mut Tableau,
    columns: u32,
    rows: Rows<'_>,
    stack: &mut Vec<u32>,
    room: Room,
) -> Descent
    requires well_formed { IsWellFormed (linear_system columns (rows_of rows)) }
    requires columns { length tableau.old.basis.slots ≡ columns }
    requires not_negative { pos 0 ≤ℤ room.most }
    requires room { HasRoomIn (linear_system columns (rows_of rows)) room.norm (unsigned_abs room.most) room.long }
    requires stack { columns < vec_capacity stack.old }
    ensures outcome { EndTells (linear_system columns (rows_of rows.entry)) tableau.new result }
    ensures columns { length tableau.new.basis.slots ≡ columns }
    ensures stack { columns < vec_capacity stack.new }
{
    match descend_from_start(tableau, columns, rows, stack, room) {
        Descent::Point => Descent::Point,
        Descent::Refuted(row) => Descent::Refuted(row),
        Descent::Large => {
            let room = Room {
                norm: room.norm,
                most: 1,
                long: true,
            };
            descend_from_start(tableau, columns, rows, stack, room)
        }
    }
}

impl Revised {
    /// Returns a revised dictionary for systems of so many columns. It takes all memory that a descent needs. Returns
    /// `AllocError` if there is none.
    pub fn new(alloc: Global, columns: u32) -> Result<Revised, AllocError>
        ensures { IfOk result (λ r. r.columns ≡ columns) }
    {
        let tableau = Tableau::new(alloc, columns)?;
        let stack = Vec::with_capacity(alloc, columns as usize + 1)?;
        Ok(Revised {
            tableau,
            stack,
            failing: None,
            factor: 1,
        })
    }

    /// Makes the descent of the system with these rows after its own, from the start. Rows are taken in order. One
    /// that fails is exchanged with the least variable of the set that its relation names and that isn't fixed; it is
    /// fixed, and the rows before it are taken again from the first one, before the rows after it are taken. It takes
    /// no memory, and it may be called again.
    ///
    /// `Descent::Point` and `Descent::Refuted` are the outcome of the order of work. `Descent::Large` says nothing of
    /// the system.
    pub fn settle(&mut self, system: &JoinedSystem<'_>, further: &[Row]) -> Descent
        requires columns { self.old.columns ≡ system.now.columns }
        requires well_formed { IsWellFormed (with_rows system.now (map linear_row further.now)) }
        ensures outcome { IsDescent (with_rows system.now (map linear_row further.now)) self.new result }
        ensures columns { self.new.columns ≡ self.old.columns }
    {
        let norm = system.norm().max(largest_norm(further));
        let Some(most) = most_for(norm) else {
            return Descent::Large;
        };
        let room = Room {
            norm,
            most,
            long: false,
        };
        let ended = descend_twice(
            &mut self.tableau,
            system.columns(),
            Rows::of(system, further),
            &mut self.stack,
            room,
        );
        self.finish(ended);
        ended
    }

    /// Goes on as `settle` does, where the descent of the system without its last row ended with a point, and the
    /// dictionary is at it. The descent goes on from there with the last row. Where that row's norm or a number is
    /// too large for it, the descent is made from the start.
    pub fn go_on(&mut self, system: &JoinedSystem<'_>, further: &[Row]) -> Descent
        requires columns { self.old.columns ≡ system.now.columns }
        requires well_formed { IsWellFormed (with_rows system.now (map linear_row further.now)) }
        requires point { (front : List LinearRow) × (last : LinearRow) × (map linear_row further.now ≡ front ++ last ∷ []) × IsAtPoint (with_rows system.now front) self.old }
        ensures outcome { IsDescent (with_rows system.now (map linear_row further.now)) self.new result }
        ensures columns { self.new.columns ≡ self.old.columns }
    {
        let rows = Rows::of(system, further);
        let norm = system.norm().max(largest_norm(further));
        if norm <= self.tableau.norm() {
            let last = rows.count() - 1;
            self.stack.clear();
            match descend(
                &mut self.tableau,
                system.columns(),
                rows,
                &mut self.stack,
                last,
            ) {
                Descent::Large => {}
                ended => {
                    self.finish(ended);
                    return ended;
                }
            }
        }
        self.settle(system, further)
    }

    // Keeps the row that fails and the common factor of its numbers, after a refutation.
    fn finish(&mut self, ended: Descent)
        requires { (system : LinearSystem) × EndTells system self.old.tableau ended }
        ensures outcome { (system : LinearSystem) → EndTells system self.old.tableau ended → IsDescent system self.new ended }
        ensures columns { self.new.columns ≡ self.old.columns }
    {
        if let Descent::Refuted(row) = ended {
            self.failing = Some(row);
            self.factor = self.tableau.common_factor();
        }
    }

    /// Returns a copy of the relations, for `restore`. Returns `AllocError` if there is no memory for it.
    pub fn save(&self, alloc: Global) -> Result<Saved, AllocError>
        ensures columns { IfOk result (λ s. s.columns ≡ self.now.columns) }
        ensures point { IfOk result (λ s. (system : LinearSystem) → IsAtPoint system self.now → IsSavedAt system s) }
    {
        self.tableau.save(alloc)
    }

    /// Gives the dictionary the relations of a copy.
    pub fn restore(&mut self, saved: Saved)
        requires columns { saved.columns ≡ self.old.columns }
        ensures point { (system : LinearSystem) → IsSavedAt system saved → IsAtPoint system self.new }
        ensures columns { self.new.columns ≡ self.old.columns }
    {
        self.tableau.restore(saved);
    }

    /// Returns the value of a row of the system at the point at which every member is 0.
    pub fn value(&self, row: &Row) -> Fraction
        requires held { (system : LinearSystem) × (members : List ℕ) × (i : ℕ) × IsHeldOf system members self.now × (i < length system.rows) × (row_at system i ≡ linear_row row.now) }
        requires coeffs { length row.now.coeffs.items ≡ length self.now.tableau.basis.slots }
        ensures { (system : LinearSystem) (members : List ℕ) (i : ℕ) → IsHeldOf system members self.now → i < length system.rows → row_at system i ≡ linear_row row.now → (scale : ℤ) (v : ℕ → ℤ) → IsBasicPoint system members scale v → IsValue result (v (row_variable system i)) scale }
    {
        row_value(&self.tableau, &row.coeffs, row.constant)
    }

    /// Returns the value of column `t` at the point at which every member is 0.
    pub fn column(&self, t: u32) -> Fraction
        requires held { (system : LinearSystem) × (members : List ℕ) × IsHeldOf system members self.now }
        requires column { t < length self.now.tableau.basis.slots }
        ensures { (system : LinearSystem) (members : List ℕ) → IsHeldOf system members self.now → (scale : ℤ) (v : ℕ → ℤ) → IsBasicPoint system members scale v → IsValue result (v t) scale }
    {
        column_value(&self.tableau, t)
    }

    /// Returns the multiplier of a row, counted among the rows from 0, after `Descent::Refuted`. The sum of the rows,
    /// each times its multiplier, has no column and a negative constant.
    pub fn multiplier(&self, row: u32) -> i128
        requires refuted { (system : LinearSystem) × (members : List ℕ) × (i : ℕ) × IsRefutedAt system members i self.now }
        requires row { length self.now.tableau.basis.slots + row < 2 ^ 32 }
        ensures { (system : LinearSystem) (members : List ℕ) (i : ℕ) (k : Relation) → IsRefutedAt system members i self.now → DictionaryRow system members (row_variable system i) k → result ≡ multiplier_of system k i row }
    {
        let Some(failing) = self.failing else {
            unreachable!()
        };
        if row == failing {
            return divide_by_factor(self.tableau.over(), self.factor);
        }
        match self.tableau.number_of(self.tableau.columns() + row) {
            Some(number) => -divide_by_factor(number, self.factor),
            None => 0,
        }
    }
}
